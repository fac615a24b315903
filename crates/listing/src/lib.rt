// The list of an input's fields.
#![tactic(auto)]

ghost use Rattle.std.specs.Prelude.{◌≡◌, Some};
ghost use Rattle.listing.specs.declared.Unlisted.TheVariants.{Memory, Refused as RefusedFor};
ghost use Rattle.listing.specs.Listed.{listed, unlisted_because, Holds, ListedExactly};
ghost use Rattle.listing.specs.Kept.{Roomy, roomy, keep};

use fields::field::Form;
use fields::part::Field;
use fields::refusal::{Objection, Refusal};
use fields::walk::{Collector, MOST_FIELDS, walk};
use std::alloc::{AllocError, Global};
use std::error::Error;
use std::fmt;

// Why there is no list.
#[derive(Clone, Copy, Debug, PartialEq, Eq)]
pub enum Unlisted {
    Memory,
    Refused(Refusal),
}

impl From<AllocError> for Unlisted {
    ghost from_gives = { λ _ r. r ≡ Memory };

    fn from(_: AllocError) -> Self {
        Self::Memory
    }
}

impl From<Refusal> for Unlisted {
    ghost from_gives = { λ why r. r ≡ RefusedFor why };

    fn from(why: Refusal) -> Self {
        Self::Refused(why)
    }
}

impl fmt::Display for Unlisted {
    ghost output = { λ why. Some (unlisted_because why) };

    fn fmt<W: fmt::Write>(&self, f: &mut fmt::Formatter<W>) -> fmt::Result {
        match self {
            Unlisted::Memory => f.write_str("no memory"),
            Unlisted::Refused(why) => write!(f, "{why}"),
        }
    }
}

impl Error for Unlisted {}

// Keeps each field that it is told, as long as there is room: it never asks for memory, so it never has to refuse.
#[derive(Drop)]
struct Listing<'a> {
    fields: Vec<Field<'a>>,
}

impl<'a> Collector<'a> for Listing<'a> {
    ghost State = { Roomy };

    ghost state = { roomy };

    ghost step = { keep };

    fn take(&mut self, field: Field<'a>) -> Result<(), Objection> {
        if self.fields.len() < self.fields.capacity() {
            self.fields.push_reserved(field);
        }
        Ok(())
    }
}

// The fields of an input, in order.
pub fn list<'a>(heap: Global, form: Form, input: &'a [u8]) -> Result<Vec<Field<'a>>, Unlisted>
    ensures holds { Holds (listed form input.now) result }
    ensures exactly { ListedExactly form input.now }
{
    let room = Listing {
        fields: Vec::with_capacity(heap, MOST_FIELDS)?,
    };
    let Listing { fields } = walk(form, input, room)?;
    Ok(fields)
}
