// What the commands print.
use fields::field::Form;
use fields::part::Field;
use fields::refusal::{Numbers, Refusal};
use listing::{Unlisted, list};
use std::{fs, io};

// Each field of a header with its place, or the refusal with its place. Either is an answer: only what cannot be read is an error.
// `rt` and `file` stay two parameters: a struct of them would be made at one place and taken apart at the three that print.
pub fn fields(rt: &HostRuntime, file: &str) -> anyhow::Result<()> {
    let input = fs::read(rt, file)?;
    match list(rt.alloc(), Form::Header, input.as_slice()) {
        Ok(found) => {
            let count = found.len();
            println!(rt; "{file}: accepted, number of fields: {count}")?;
            for (number, field) in (1..=count).zip(&found) {
                print_field(rt, number, field)?;
            }
            Ok(())
        }
        Err(Unlisted::Refused(why)) => {
            print_refusal(rt, file, why)?;
            Ok(())
        }
        Err(Unlisted::Memory) => Err(Unlisted::Memory.into()),
    }
}

fn print_field(rt: &HostRuntime, number: usize, field: &Field) -> io::Result<()> {
    let at = field.name.at;
    let name = std::str::from_utf8(field.name.text).unwrap_or("?");
    let size = field.body.text.len();
    let body_at = field.body.at;
    println!(rt; "field {number} at byte {at}: {name}, body of {size} bytes at byte {body_at}")
}

// The numbers stand between other words than those of their `Display`.
fn print_refusal(rt: &HostRuntime, file: &str, why: Refusal) -> io::Result<()> {
    let Numbers {
        number,
        layer,
        field,
        byte,
    } = why.numbers();
    println!(rt; "{file}: refused {number} of layer {layer} at field {field}, byte {byte}: {why}")
}
