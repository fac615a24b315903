// A parameter of the list.
ghost use Rattle.std.specs.Prelude.{◌≡◌};
ghost use Rattle.std.specs.Option.{option_map};
ghost use Rattle.options.specs.Reads.{no_comma, values_of, parameter_of, marked, mark_of};

use crate::importance::Importance;
use crate::marking::read_marking;
use abnf::classes::skip_byte;
use fields::bytes::{Class, skip};
use lexical::quoted::Word;
use lexical::span::{Span, Taken, around};
use lexical::white::skip_fws;

// Any byte but ",".
struct NoComma;

impl Class for NoComma {
    ghost test = { no_comma };

    fn holds(b: u8) -> bool {
        b != b','
    }
}

// What is left behind the values, each behind a ",".
fn skip_values<'a>(s: &'a [u8]) -> Option<&'a [u8]>
    ensures { option_map (λ x. x.now) result ≡ option_map (λ v. v.rest) (values_of s.now) }
{
    let mut from = skip_byte(s, b',')?;
    loop {
        let rest = around::<Word>(from)?.rest;
        let [b',', tail @ ..] = rest else {
            return Some(rest);
        };
        from = tail;
    }
}

// The importance of the parameter that `s` begins with, behind [FWS].
#[tactic(auto, unfolding(crate::specs::Reads::parameter_of))]
pub(crate) fn read_parameter<'a>(s: &'a [u8]) -> Option<Taken<'a, Importance>>
    ensures { option_map marked result ≡ option_map mark_of (parameter_of s.now) }
{
    let from = skip_fws(s);
    let to = skip::<NoComma>(from);
    let value = read_marking(Span { from, to }.text())?;
    let rest = skip_values(to)?;
    Some(Taken { value, rest })
}
