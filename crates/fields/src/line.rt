// Where lines end.
ghost use Rattle.std.specs.Prelude.{◌≡◌, ◌+◌, not, take, position};
ghost use Rattle.std.specs.Option.{option_map};
ghost use Rattle.fields.specs.Classes.{plain};
ghost use Rattle.fields.specs.Scans.{crlf_here, line_end, fold_start, fold_end};

use crate::bytes::{Class, Wsp, skip};

// The most bytes that a line may have before its CRLF.
pub(crate) const LONGEST_LINE: usize = 998;

// How many bytes stand before the first NUL, CR or LF.
fn plain_front(s: &[u8]) -> Option<usize>
    ensures { result ≡ position (λ b. not (plain b)) s.now }
{
    s.iter().position(|b| matches!(*b, 0 | b'\r' | b'\n'))
}

// The bytes of a line that have room, and one behind them: no more are looked at, so that a line that is too long costs no
// more than one that fits.
fn near<'a>(s: &'a [u8], room: usize) -> &'a [u8]
    ensures { result.now ≡ take (room + 1) s.now }
{
    s.get(..=room).unwrap_or(s)
}

// The bytes from the CRLF on that ends the line, where at most `room` stand before it, none of them NUL, CR or LF.
pub(crate) fn line_end<'a>(s: &'a [u8], room: usize) -> Option<&'a [u8]>
    ensures { option_map (λ x. x.now) result ≡ line_end room s.now }
{
    let front = plain_front(near(s, room))?;
    crlf(&s[front..])
}

// The bytes themselves, where they begin with CRLF.
pub(crate) fn crlf<'a>(s: &'a [u8]) -> Option<&'a [u8]>
    ensures { option_map (λ x. x.now) result ≡ crlf_here s.now }
{
    match s {
        [b'\r', b'\n', ..] => Some(s),
        _ => None,
    }
}

// What stands behind a CRLF and the white space that makes it a fold.
pub fn fold_start<'a>(s: &'a [u8]) -> Option<&'a [u8]>
    ensures { option_map (λ x. x.now) result ≡ fold_start s.now }
{
    match s {
        [b'\r', b'\n', next, rest @ ..] if Wsp::holds(*next) => Some(rest),
        _ => None,
    }
}

// As `line_end`, for a continuation line from its second byte on. It has more than white space.
pub(crate) fn fold_end<'a>(s: &'a [u8]) -> Option<&'a [u8]>
    ensures { option_map (λ x. x.now) result ≡ fold_end s.now }
{
    match crlf(skip::<Wsp>(s)) {
        Some(_) => None,
        None => line_end(s, LONGEST_LINE - 1),
    }
}
