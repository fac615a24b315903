// Quoted strings and words: RFC 5322, 3.2.4 and 3.2.5.
ghost use Rattle.std.specs.Prelude.{◌≡◌};
ghost use Rattle.std.specs.Option.{option_map};
ghost use Rattle.lexical.specs.Reads.{quoted_rest, word_rest};
ghost use Rattle.lexical.specs.Quoting.{quoted_shortens};

use crate::span::{Opened, Reader, Run};
use crate::white::skip_fws;
use abnf::classes::{Atext, Qtext, Quotable, skip_one};
use fields::bytes::Class;

// What is left behind a quoted-string whose first quote was read. Its loop is not that of `comment`, which calls itself.
pub fn skip_quoted<'a>(s: &'a [u8]) -> Option<&'a [u8]>
    ensures { option_map (λ x. x.now) result ≡ quoted_rest s.now }
{
    let mut rest = skip_fws(s);
    while let [b, tail @ ..] = rest {
        let next = match *b {
            b'"' => return Some(tail),
            b'\\' => skip_one::<Quotable>(tail)?,
            _ if Qtext::holds(*b) => tail,
            _ => return None,
        };
        rest = skip_fws(next);
    }
    None
}

// A quoted-string behind its first quote.
pub struct QuotedTail;

impl Reader for QuotedTail {
    ghost leaves = { quoted_rest };

    ghost shorter = { quoted_shortens };

    fn read<'a>(s: &'a [u8]) -> Option<&'a [u8]> {
        skip_quoted(s)
    }
}

// A quoted-string from quote to quote, or else what `Plain` reads.
pub type QuotedOr<Plain> = Opened<b'"', QuotedTail, Plain>;

// The text of a word: an atom's, or a quoted-string's.
pub type Word = QuotedOr<Run<Atext>>;

// What is left behind a word's text.
pub fn skip_word<'a>(s: &'a [u8]) -> Option<&'a [u8]>
    ensures { option_map (λ x. x.now) result ≡ word_rest s.now }
{
    Word::read(s)
}
