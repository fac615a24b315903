// Message identifiers: RFC 5322, 3.6.4.
ghost use Rattle.std.specs.Prelude.{◌≡◌};
ghost use Rattle.std.specs.Option.{option_map};
ghost use Rattle.fields.specs.Seen.{placed};
ghost use Rattle.lexical.specs.Spans.{moved};
ghost use Rattle.abnf.specs.Exact.{Exactly};
ghost use Rattle.address.specs.Rfc5322.{msg_id};
ghost use Rattle.address.specs.Reads.{msg_id_rest, msg_id_of};
ghost use Rattle.address.specs.Paths.{msg_id_shortens};

use crate::addr_spec::{Domain, DotAtom};
use abnf::classes::skip_byte;
use fields::part::Part;
use lexical::span::{Reader, around};

// A msg-id from "<" to ">". Its right side is a dot-atom-text or a literal, as a domain's is.
pub struct MsgId;

impl Reader for MsgId {
    ghost leaves = { msg_id_rest };

    ghost shorter = { msg_id_shortens };

    fn read<'a>(s: &'a [u8]) -> Option<&'a [u8]> {
        let left = DotAtom::read(skip_byte(s, b'<')?)?;
        let right = Domain::read(skip_byte(left, b'@')?)?;
        skip_byte(right, b'>')
    }
}

// The msg-id that `body` is, without the white space around it.
#[tactic(auto, using(crate::specs::Paths::msg_id_exact))]
pub fn read_msg_id<'a>(body: Part<'a>) -> Option<Part<'a>>
    ensures answers { option_map placed result ≡ option_map (moved body.entry.at) (msg_id_of body.entry.text.now) }
    ensures exactly { Exactly msg_id (moved body.entry.at) body.entry.text.now (option_map placed result) }
{
    let id = around::<MsgId>(body.text)?;
    id.rest.is_empty().then_some(id.value.part_of(body))
}
