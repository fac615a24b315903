// An address: RFC 5322, 3.4.1.
ghost use Rattle.std.specs.Prelude.{◌≡◌};
ghost use Rattle.std.specs.Option.{option_map};
ghost use Rattle.address.specs.Reads.{dot_atom_rest, literal_rest, addr_spec_of};
ghost use Rattle.address.specs.Seen.{found};
ghost use Rattle.address.specs.Dots.{dots_shorten, literal_shortens};

use abnf::classes::{Atext, Dtext, skip_byte, skip_some};
use fields::bytes::skip;
use lexical::quoted::QuotedOr;
use lexical::span::{Opened, Reader, Taken, around};

// The parts of an address as written, without the white space around them.
#[derive(Clone, Copy)]
pub struct Address<'a> {
    pub local: &'a [u8],
    pub domain: &'a [u8],
}

// A dot-atom-text, taken as long as it goes.
pub struct DotAtom;

impl Reader for DotAtom {
    ghost leaves = { dot_atom_rest };

    ghost shorter = { dots_shorten };

    fn read<'a>(s: &'a [u8]) -> Option<&'a [u8]> {
        let mut rest = skip_some::<Atext>(s)?;
        while let [b'.', tail @ ..] = rest {
            rest = skip_some::<Atext>(tail)?;
        }
        Some(rest)
    }
}

// A domain-literal behind its "[". No white space stands inside.
pub struct LiteralTail;

impl Reader for LiteralTail {
    ghost leaves = { literal_rest };

    ghost shorter = { literal_shortens };

    fn read<'a>(s: &'a [u8]) -> Option<&'a [u8]> {
        skip_byte(skip::<Dtext>(s), b']')
    }
}

// A dot-atom-text, or a quoted-string from quote to quote.
pub type LocalPart = QuotedOr<DotAtom>;

// A dot-atom-text, or a domain-literal from "[" to "]".
pub type Domain = Opened<b'[', LiteralTail, DotAtom>;

// The addr-spec that `s` begins with.
#[tactic(auto, unfolding(crate::specs::Reads::addr_spec_of))]
pub(crate) fn addr_spec<'a>(s: &'a [u8]) -> Option<Taken<'a, Address<'a>>>
    ensures { option_map found result ≡ addr_spec_of s.now }
{
    let local = around::<LocalPart>(s)?;
    let after = skip_byte(local.rest, b'@')?;
    let domain = around::<Domain>(after)?;
    Some(Taken {
        value: Address {
            local: local.value.text(),
            domain: domain.value.text(),
        },
        rest: domain.rest,
    })
}
