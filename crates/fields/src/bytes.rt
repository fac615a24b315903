// Classes of bytes, and the run of one class that some bytes begin with.
ghost use Rattle.std.specs.Prelude.{◌≡◌, ℕ, Bool};
ghost use Rattle.std.specs.Option.{option_map};
ghost use Rattle.fields.specs.Classes.{wsp, ftext, behind, behind_byte};

// A class of bytes.
pub trait Class {
    ghost test: { ℕ → Bool };

    fn holds(b: u8) -> bool
        ensures { result ≡ test b };
}

// White space inside a line: a space or a tab.
pub struct Wsp;

impl Class for Wsp {
    ghost test = { wsp };

    fn holds(b: u8) -> bool {
        b == b' ' || b == b'\t'
    }
}

// What a field's name is made of: 33 to 126, without the colon.
pub struct Ftext;

impl Class for Ftext {
    ghost test = { ftext };

    fn holds(b: u8) -> bool {
        matches!(b, 33..=57 | 59..=126)
    }
}

// What is left behind the bytes of the class that `s` begins with.
pub fn skip<'a, C: Class>(s: &'a [u8]) -> &'a [u8]
    ensures { result.now ≡ behind C.test s.now }
{
    let mut rest = s;
    while let [b, tail @ ..] = rest
        && C::holds(*b)
    {
        rest = tail;
    }
    rest
}

// What stands behind a byte `b`. As a class of one byte, it would be named in a type at each call.
pub fn skip_byte<'a>(s: &'a [u8], b: u8) -> Option<&'a [u8]>
    ensures { option_map (λ x. x.now) result ≡ behind_byte b s.now }
{
    match s {
        [first, tail @ ..] if *first == b => Some(tail),
        _ => None,
    }
}
