// A type and a text: the Original-Recipient, Final-Recipient and MDN-Gateway of RFC 8098.
ghost use Rattle.std.specs.Prelude.{◌≡◌, true};
ghost use Rattle.std.specs.Option.{option_map};
ghost use Rattle.fields.specs.Clean.{clean};
ghost use Rattle.fields.specs.Seen.{placed};
ghost use Rattle.abnf.specs.Exact.{Exactly};
ghost use Rattle.lexical.specs.Spans.{moved};
ghost use Rattle.texts.specs.Rfc8098.{typed_text};
ghost use Rattle.texts.specs.Reads.{text_in, typed_of};
ghost use Rattle.texts.specs.Seen.{typed, moved_typed};

use crate::text::{is_text, trimmed};
use abnf::classes::{Atext, skip_byte};
use fields::part::Part;
use lexical::span::{Run, around};
use lexical::white::skip_cfws;

// The type and the text of a body, without the white space around them.
#[derive(Clone, Copy)]
pub struct TypedText<'a> {
    pub kind: Part<'a>,
    pub text: Part<'a>,
}

// What a type is: the Atom of RFC 5321.
pub type Atom = Run<Atext>;

// The text that `rest` is, where `whole` ends with it.
fn text_in<'a>(whole: Part<'a>, rest: &'a [u8]) -> Option<Part<'a>>
    ensures { option_map placed result ≡ option_map (moved whole.entry.at) (text_in whole.entry.text.now rest.now) }
{
    let before = whole.text.len().saturating_sub(rest.len());
    is_text(rest).then(|| Part {
        at: whole.at.saturating_add(before),
        text: trimmed(rest),
    })
}

// The type and the text that `body` is, with [CFWS] around the type and before the text.
// That the body is clean is a premise, since a type of clean bodies would ask it of every caller.
#[tactic(auto, using(crate::proofs::Typing::typed_exact), unfolding(crate::specs::Reads::typed_of))]
pub fn read_typed_text<'a>(body: Part<'a>) -> Option<TypedText<'a>>
    ensures answers { option_map typed result ≡ option_map (moved_typed body.entry.at) (typed_of body.entry.text.now) }
    ensures exactly { clean body.entry.text.now ≡ true → Exactly typed_text (moved_typed body.entry.at) body.entry.text.now (option_map typed result) }
{
    let kind = around::<Atom>(body.text)?;
    let rest = skip_cfws(skip_byte(kind.rest, b';')?)?;
    let text = text_in(body, rest)?;
    Some(TypedText {
        kind: kind.value.part_of(body),
        text,
    })
}
