// The first field of what is left of an input.
ghost use Rattle.std.specs.Prelude.{◌≡◌, ◌+◌, ◌^◌, ◌<◌, false, length, None, Some};
ghost use Rattle.fields.specs.Lines.{texts};
ghost use Rattle.fields.specs.Fields.{cut};
ghost use Rattle.fields.specs.Scans.{no_field, found, Ahead};
ghost use Rattle.fields.specs.Walks.{meaning};

use crate::bytes::{Ftext, skip, skip_byte};
use crate::line::{LONGEST_LINE, fold_end, fold_start, line_end};
use crate::part::{Field, Part};

// What an input is. An empty line ends a header, and is a fault in a report.
#[derive(Clone, Copy)]
pub enum Form {
    Header,
    Report,
}

// A field, and what is left behind it.
#[derive(Clone, Copy)]
pub(crate) struct Front<'a> {
    pub field: Field<'a>,
    pub rest: Part<'a>,
}

// A line at fault, by its first byte.
#[derive(Clone, Copy)]
pub(crate) struct Fault {
    pub byte: usize,
}

// The first field of what is left of an input. None stands at the end of the bytes, or at the empty line of a header.
pub(crate) fn read_next<'a>(form: Form, from: Part<'a>) -> Result<Option<Front<'a>>, Fault>
    requires { from.at + length from.text.now < 2 ^ 64 }
    ensures found { cut form None from.entry.at (texts from.entry.text.now) ≡ found form result }
    ensures ahead { Ahead from.entry result }
{
    match from.text {
        [] => Ok(None),
        [b'\r', b'\n', ..] => match form {
            Form::Header => Ok(None),
            Form::Report => Err(Fault { byte: from.at }),
        },
        _ => Ok(Some(read_field(from)?)),
    }
}

// The first field, where the bytes are neither at their end nor at an empty line.
fn read_field<'a>(from: Part<'a>) -> Result<Front<'a>, Fault>
    requires { from.at + length from.text.now < 2 ^ 64 }
    ensures found { (form : Form) → no_field from.entry.text.now ≡ false → cut form None from.entry.at (texts from.entry.text.now) ≡ found form (meaning Some result) }
    ensures ahead { Ahead from.entry (meaning Some result) }
{
    let here = Fault { byte: from.at };
    let text = skip_byte(skip::<Ftext>(from.text), b':').ok_or(here)?;
    let used = from.text.len() - text.len();
    if used == 1 || used > LONGEST_LINE {
        return Err(here);
    }
    let mut end = line_end(text, LONGEST_LINE - used).ok_or(here)?;
    while let Some(line) = fold_start(end) {
        let byte = from.at + (from.text.len() - line.len()) - 1;
        end = fold_end(line).ok_or(Fault { byte })?;
    }
    let name = Part {
        at: from.at,
        text: &from.text[0..used - 1],
    };
    let body = Part {
        at: from.at + used,
        text: &text[0..text.len() - end.len()],
    };
    let rest = Part {
        at: from.at + (from.text.len() - end.len()) + 2,
        text: &end[2..],
    };
    Ok(Front {
        field: Field { name, body },
        rest,
    })
}
