// A collector that keeps the last field, and objects to one that is called X-Bad.
ghost use Rattle.std.specs.Prelude.{Option};
ghost use Rattle.fields.specs.Fields.{PlacedField};
ghost use Rattle.field_cases.specs.Picks.{last_of, picks};

use fields::part::Field;
use fields::refusal::Objection;
use fields::walk::Collector;

#[derive(Clone, Copy)]
pub struct Picky<'a> {
    pub last: Option<Field<'a>>,
}

impl<'a> Collector<'a> for Picky<'a> {
    ghost State = { Option PlacedField };

    ghost state = { last_of };

    ghost step = { picks };

    fn take(&mut self, field: Field<'a>) -> Result<(), Objection> {
        if field.name.is_name(b"X-Bad") {
            return Err(Objection::Malformed);
        }
        self.last = Some(field);
        Ok(())
    }
}
