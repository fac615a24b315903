// Texts by where they begin and end, and the readers of tokens.
ghost use Rattle.std.specs.Prelude.{◌≡◌, ℕ, ◌<◌, List, length, Some, Option};
ghost use Rattle.std.specs.Option.{option_map};
ghost use Rattle.fields.specs.Seen.{placed};
ghost use Rattle.abnf.specs.Classes.{behind_some};
ghost use Rattle.abnf.proofs.Runs.{some_shortens};
ghost use Rattle.lexical.specs.Reads.{either};
ghost use Rattle.lexical.specs.Spans.{text_of, within_of, moved, token_of, spanned, taken};
ghost use Rattle.lexical.specs.Tokens.{either_shortens};

use crate::white::skip_cfws;
use abnf::classes::skip_some;
use fields::bytes::Class;
use fields::part::Part;
use std::marker::PhantomData;

// A text of some bytes: the bytes from it on, and those behind it, since a reader answers what is left.
#[derive(Clone, Copy)]
pub struct Span<'a> {
    pub from: &'a [u8],
    pub to: &'a [u8],
}

impl<'a> Span<'a> {
    pub fn text(self) -> &'a [u8]
        ensures { result.now ≡ text_of (spanned self.entry) }
    {
        let length = self.from.len().saturating_sub(self.to.len());
        &self.from[0..length]
    }

    // The text as a part of the input, where `whole` is the part that it was read from.
    pub fn part_of(self, whole: Part<'a>) -> Part<'a>
        ensures { placed result ≡ moved whole.entry.at (within_of whole.entry.text.now (spanned self.entry)) }
    {
        let before = whole.text.len().saturating_sub(self.from.len());
        Part {
            at: whole.at.saturating_add(before),
            text: self.text(),
        }
    }
}

// What reads the text of one token, and answers what is left behind it. What is left is a plain slice: as a struct seen
// as a list, each slice pattern of the readers would go through its field.
pub trait Reader {
    ghost leaves: { List ℕ → Option (List ℕ) };

    fn read<'a>(s: &'a [u8]) -> Option<&'a [u8]>
        ensures { option_map (λ x. x.now) result ≡ leaves s.now };

    ghost shorter: { (s t : List ℕ) → leaves s ≡ Some t → length t < length s };
}

// A run of one byte or more of a class, as long as it goes.
pub struct Run<C> {
    class: PhantomData<C>,
}

impl<C: Class> Reader for Run<C> {
    ghost leaves = { behind_some C.test };

    ghost shorter = { some_shortens C.test };

    fn read<'a>(s: &'a [u8]) -> Option<&'a [u8]> {
        skip_some::<C>(s)
    }
}

// What `Inner` reads behind the byte `OPEN`, or else what `Plain` reads.
pub struct Opened<const OPEN: u8, Inner, Plain> {
    inner: PhantomData<Inner>,
    plain: PhantomData<Plain>,
}

impl<const OPEN: u8, Inner: Reader, Plain: Reader> Reader for Opened<OPEN, Inner, Plain> {
    ghost leaves = { either OPEN Inner.leaves Plain.leaves };

    ghost shorter = { either_shortens OPEN Inner.leaves Plain.leaves Inner.shorter Plain.shorter };

    fn read<'a>(s: &'a [u8]) -> Option<&'a [u8]> {
        match s {
            [b, tail @ ..] if *b == OPEN => Inner::read(tail),
            _ => Plain::read(s),
        }
    }
}

// What was read, and what is left behind it.
#[derive(Clone, Copy)]
pub struct Taken<'a, T> {
    pub value: T,
    pub rest: &'a [u8],
}

// The token that `s` begins with, with [CFWS] on both sides.
pub fn around<'a, R: Reader>(s: &'a [u8]) -> Option<Taken<'a, Span<'a>>>
    ensures { option_map taken result ≡ token_of R.leaves s.now }
{
    let from = skip_cfws(s)?;
    let to = R::read(from)?;
    let rest = skip_cfws(to)?;
    Some(Taken {
        value: Span { from, to },
        rest,
    })
}
