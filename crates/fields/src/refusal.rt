// Why an input is refused, and the numbers by which that is told.
ghost use Rattle.std.specs.Prelude.{◌≡◌, Some};
ghost use Rattle.fields.specs.Refusals.{objection_number, numbered, because, numbers_text};

use std::error::Error;
use std::fmt;

// A field, counted from 1, and a byte of the input, counted from 0.
#[derive(Clone, Copy, Debug, PartialEq, Eq)]
pub struct Place {
    pub field: usize,
    pub byte: usize,
}

// Why a collector refuses a field.
#[derive(Clone, Copy, Debug, PartialEq, Eq)]
pub enum Objection {
    // The field may stand once, and stands there a second time.
    Repeated,
    // The body is outside its grammar.
    Malformed,
    // A report's body has a byte above 127.
    NotAscii,
}

// Why an input is refused.
#[derive(Clone, Copy, Debug, PartialEq, Eq)]
pub enum Refusal {
    // More than 32,768 bytes.
    TooLong,
    // A line at fault. The byte is the line's first.
    BadLine(Place),
    // A 257th field. Here and below the byte is the field's first.
    TooManyFields(Place),
    // What the collector says of a field.
    Objected(Objection, Place),
}

// A refusal in numbers: its own, its layer's, and its place. Users are told these, so they stay numbers.
#[derive(Clone, Copy)]
pub struct Numbers {
    pub number: u8,
    pub layer: u8,
    pub field: usize,
    pub byte: usize,
}

// The place of a refusal that concerns no field.
const NOWHERE: Place = Place { field: 0, byte: 0 };

impl From<Objection> for u8 {
    ghost from_gives = { λ why n. n ≡ objection_number why };

    fn from(why: Objection) -> u8 {
        match why {
            Objection::Repeated => 4,
            Objection::Malformed => 5,
            Objection::NotAscii => 8,
        }
    }
}

impl From<Refusal> for Numbers {
    ghost from_gives = { λ why n. n ≡ numbered why };

    fn from(why: Refusal) -> Numbers {
        let (number, layer, Place { field, byte }) = match why {
            Refusal::TooLong => (1, 1, NOWHERE),
            Refusal::BadLine(line) => (2, 1, line),
            Refusal::TooManyFields(field) => (3, 1, field),
            Refusal::Objected(why, field) => (u8::from(why), 2, field),
        };
        Numbers {
            number,
            layer,
            field,
            byte,
        }
    }
}

impl Refusal {
    pub fn numbers(self) -> Numbers
        ensures { result ≡ numbered self }
    {
        Numbers::from(self)
    }
}

// The cause in words.
impl fmt::Display for Refusal {
    ghost output = { λ why. Some (because why) };

    fn fmt<W: fmt::Write>(&self, f: &mut fmt::Formatter<W>) -> fmt::Result {
        f.write_str(match self {
            Refusal::TooLong => "more than 32,768 bytes",
            Refusal::BadLine(_) => "a line at fault",
            Refusal::TooManyFields(_) => "more than 256 fields",
            Refusal::Objected(Objection::Repeated, _) => "a field that may stand once stands again",
            Refusal::Objected(Objection::Malformed, _) => "a body outside its grammar",
            Refusal::Objected(Objection::NotAscii, _) => "a byte above 127 in a report",
        })
    }
}

impl Error for Refusal {}

impl fmt::Display for Numbers {
    ghost output = { λ n. Some (numbers_text n) };

    fn fmt<W: fmt::Write>(&self, f: &mut fmt::Formatter<W>) -> fmt::Result {
        let Numbers {
            number,
            layer,
            field,
            byte,
        } = *self;
        write!(f, "{number} layer {layer} field {field} byte {byte}")
    }
}
