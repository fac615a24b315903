// The one walk over the fields of an input, for every collector.
ghost use Rattle.std.specs.Prelude.{◌≡◌, true, Result};
ghost use Rattle.fields.specs.declared.refusal.Objection.{Objection};
ghost use Rattle.fields.specs.Fields.{PlacedField, fields_of};
ghost use Rattle.fields.specs.Seen.{placed_field};
ghost use Rattle.fields.specs.declared.refusal.Refusal.TheVariants.{BadLine};
ghost use Rattle.fields.specs.Walks.{became, meaning, place, walked};
ghost use Rattle.fields.specs.Built.{WalkExactly};
ghost use Rattle.fields.specs.Clean.{all_clean};

use crate::field::{Fault, Form, read_next};
use crate::part::{Field, Part};
use crate::refusal::{Objection, Place, Refusal};

// The most bytes that an input may have.
pub const LONGEST_INPUT: usize = 32_768;

// The most fields that an input may have.
pub const MOST_FIELDS: usize = 256;

// What the fields of an input are told to, one after another. It takes a field, or says why not.
pub trait Collector<'a> {
    // What it has collected means one of these.
    ghost State: { Type 0 };

    ghost state: { Self → State };

    // What taking a field means. A collector that objects is told no more, and what it then holds is left open.
    ghost step: { State → PlacedField → Result State Objection };

    fn take(&mut self, field: Field<'a>) -> Result<(), Objection>
        ensures { became result (state self.new) ≡ step (state self.old) (placed_field field.entry) };
}

// Tells each field of the input to the collector, in order, and gives the collector back, or the first refusal.
pub fn walk<'a, C: Collector<'a> + Drop>(
    form: Form,
    input: &'a [u8],
    mut collector: C,
) -> Result<C, Refusal>
    ensures walks { meaning C.state result ≡ walked C.step (C.state collector) form input.now }
    ensures exactly { WalkExactly C.step (C.state collector) form input.now (meaning C.state result) }
    ensures clean { all_clean (fields_of form input.now).fields ≡ true }
{
    if input.len() > LONGEST_INPUT {
        return Err(Refusal::TooLong);
    }
    let mut rest = Part { at: 0, text: input };
    // A `for` over the numbers of fields would leave an answer behind it that is never given.
    let mut field = 1;
    while let Some(front) = read_next(form, rest).map_err(|fault| fault.in_field(field))? {
        let place = Place {
            field,
            byte: front.field.name.at,
        };
        if field > MOST_FIELDS {
            return Err(Refusal::TooManyFields(place));
        }
        collector
            .take(front.field)
            .map_err(|why| Refusal::Objected(why, place))?;
        rest = front.rest;
        field += 1;
    }
    Ok(collector)
}

impl Fault {
    // The refusal of this line, which belongs to the field that stands next.
    fn in_field(self, field: usize) -> Refusal
        ensures { result ≡ BadLine (place field self.byte) }
    {
        Refusal::BadLine(Place {
            field,
            byte: self.byte,
        })
    }
}
