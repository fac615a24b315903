// What stands before the first "," of a parameter: attribute [FWS] "=" [FWS] importance [FWS].
ghost use Rattle.std.specs.Prelude.{◌≡◌};
ghost use Rattle.std.specs.Option.{option_map};
ghost use Rattle.options.specs.Reads.{atom_of, sides_of, sides, marking_of};

use crate::importance::{Importance, importance_of};
use abnf::classes::{Atext, skip_some};
use lexical::span::Span;
use lexical::white::skip_fws;

// The text of an atom with [FWS] behind it and nothing more.
fn read_atom<'a>(s: &'a [u8]) -> Option<&'a [u8]>
    ensures { option_map (λ x. x.now) result ≡ atom_of s.now }
{
    let to = skip_some::<Atext>(s)?;
    skip_fws(to)
        .is_empty()
        .then_some(Span { from: s, to }.text())
}

// What stands on both sides of the last "=": an attribute may have that sign in it, an importance may not.
fn part_at_equals(s: &[u8]) -> Option<(&[u8], &[u8])>
    ensures { option_map sides result ≡ sides_of s.now }
{
    let at = s.iter().rposition(|b| *b == b'=')?;
    Some((&s[..at], &s[at + 1..]))
}

// The importance that a parameter is marked with, where these are all bytes before its first ",".
#[tactic(auto, unfolding(crate::specs::Reads::marking_of))]
pub(crate) fn read_marking(s: &[u8]) -> Option<Importance>
    ensures { result ≡ option_map (λ m. m.mark) (marking_of s.now) }
{
    let (left, right) = part_at_equals(s)?;
    read_atom(left)?;
    importance_of(read_atom(skip_fws(right))?)
}
