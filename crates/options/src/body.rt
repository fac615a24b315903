// The whole body.
ghost use Rattle.std.specs.Prelude.{◌≡◌, true};
ghost use Rattle.std.specs.Option.{option_map};
ghost use Rattle.fields.specs.Clean.{clean};
ghost use Rattle.abnf.specs.Exact.{Exactly};
ghost use Rattle.options.specs.Rfc8098.{options_body};
ghost use Rattle.options.specs.Reads.{options_of, some_required};

use crate::parameter::read_parameter;

// Whether some parameter is marked required, or None for a body outside the grammar.
// That the body is clean is a premise, since a type of clean bodies would ask it of every caller.
pub fn read_options(body: &[u8]) -> Option<bool>
    ensures answers { result ≡ option_map some_required (options_of body.now) }
    ensures exactly { clean body.now ≡ true → Exactly options_body some_required body.now result }
{
    let mut rest = body;
    let mut required = false;
    loop {
        let p = read_parameter(rest)?;
        required |= p.value.is_required();
        match p.rest {
            [] => return Some(required),
            [b';', tail @ ..] => rest = tail,
            _ => return None,
        }
    }
}
