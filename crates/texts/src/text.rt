// Texts with folds inside.
ghost use Rattle.std.specs.Prelude.{◌≡◌};
ghost use Rattle.texts.specs.Reads.{blank, is_text, trim};

use abnf::classes::Text;
use fields::bytes::skip;
use fields::line::fold_start;

// Whether `s` is text and folds, and nothing else.
pub fn is_text(s: &[u8]) -> bool
    ensures { result ≡ is_text s.now }
{
    let mut rest = skip::<Text>(s);
    while let Some(line) = fold_start(rest) {
        rest = skip::<Text>(line);
    }
    rest.is_empty()
}

// White space, or a byte of a CRLF.
fn is_blank(b: u8) -> bool
    ensures { result ≡ blank b }
{
    matches!(b, b' ' | b'\t' | b'\r' | b'\n')
}

// The bytes without the white space and the folds at their end. No trim of the library takes a class of bytes, and a
// search from the end would add a case where it finds none.
pub fn trimmed<'a>(s: &'a [u8]) -> &'a [u8]
    ensures { result.now ≡ trim s.now }
{
    let mut text = s;
    while let [front @ .., last] = text
        && is_blank(*last)
    {
        text = front;
    }
    text
}
