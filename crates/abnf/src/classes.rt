// The classes of bytes, and what stands behind a run of one.
ghost use Rattle.std.specs.Prelude.{◌≡◌};
ghost use Rattle.std.specs.Option.{option_map};
ghost use Rattle.abnf.specs.Classes.{quotable, ctext, atext, qtext, dtext, text, token, behind_one, behind_some};

pub use fields::bytes::skip_byte;
use fields::bytes::{Class, skip};

// What may stand behind the "\" of a quoted-pair.
pub struct Quotable;

impl Class for Quotable {
    ghost test = { quotable };

    fn holds(b: u8) -> bool {
        matches!(b, 33..=126 | b' ' | b'\t')
    }
}

// What a comment is made of.
pub struct Ctext;

impl Class for Ctext {
    ghost test = { ctext };

    fn holds(b: u8) -> bool {
        matches!(b, 33..=39 | 42..=91 | 93..=126)
    }
}

// What an atom is made of.
pub struct Atext;

impl Class for Atext {
    ghost test = { atext };

    fn holds(b: u8) -> bool {
        matches!(b, b'A'..=b'Z' | b'a'..=b'z' | b'0'..=b'9' | b'!' | b'#' | b'$' | b'%' | b'&' | b'\'' | b'*' | b'+' | b'-' | b'/' | b'=' | b'?' | b'^' | b'_' | b'`' | b'{' | b'|' | b'}' | b'~')
    }
}

// What a quoted-string is made of.
pub struct Qtext;

impl Class for Qtext {
    ghost test = { qtext };

    fn holds(b: u8) -> bool {
        matches!(b, 33 | 35..=91 | 93..=126)
    }
}

// What a domain-literal is made of.
pub struct Dtext;

impl Class for Dtext {
    ghost test = { dtext };

    fn holds(b: u8) -> bool {
        matches!(b, 33..=90 | 94..=126)
    }
}

// What a text is made of.
pub struct Text;

impl Class for Text {
    ghost test = { text };

    fn holds(b: u8) -> bool {
        matches!(b, 1..=9 | 11 | 12 | 14..=127)
    }
}

// What a token of MIME is made of.
pub struct Token;

impl Class for Token {
    ghost test = { token };

    fn holds(b: u8) -> bool {
        match b {
            b'('
            | b')'
            | b'<'
            | b'>'
            | b'@'
            | b','
            | b';'
            | b':'
            | b'\\'
            | b'"'
            | b'/'
            | b'['
            | b']'
            | b'?'
            | b'=' => false,
            _ => matches!(b, 33..=126),
        }
    }
}

// What stands behind one byte of the class.
pub fn skip_one<'a, C: Class>(s: &'a [u8]) -> Option<&'a [u8]>
    ensures { option_map (λ x. x.now) result ≡ behind_one C.test s.now }
{
    match s {
        [b, tail @ ..] if C::holds(*b) => Some(tail),
        _ => None,
    }
}

// What stands behind a run of one byte or more of the class, as long as it goes.
pub fn skip_some<'a, C: Class>(s: &'a [u8]) -> Option<&'a [u8]>
    ensures { option_map (λ x. x.now) result ≡ behind_some C.test s.now }
{
    match s {
        [b, tail @ ..] if C::holds(*b) => Some(skip::<C>(tail)),
        _ => None,
    }
}
