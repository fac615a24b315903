// The facts of a header.
ghost use Rattle.std.specs.Prelude.{◌≡◌, ◌+◌, ◌≤◌, length, take, drop};
ghost use Rattle.std.specs.Option.{option_map};
ghost use Rattle.fields.specs.Walks.{meaning};
ghost use Rattle.address.specs.Seen.{listing};
ghost use Rattle.header.specs.Facts.{returns_to, said, header_of, header_at};
ghost use Rattle.header.specs.Rules.{SaysExactly, AgreesMeans};
ghost use Rattle.header.specs.Seen.{trace_of, collected, facts_said};

use crate::collecting::{Collecting, Returned};
use address::mailbox::Mailboxes;
use address::path::Path;
use equality::{distinct, is_same};
use fields::field::Form;
use fields::part::Part;
use fields::refusal::Refusal;
use fields::walk::walk;
use texts::typed::TypedText;

#[derive(Clone, Copy)]
pub struct Facts<'a> {
    // A receipt is asked for.
    pub asks: bool,
    // The message is a disposition notification itself.
    pub notification: bool,
    // Some option is marked required.
    pub required: bool,
    // How many different addresses ask.
    pub distinct: usize,
    // There is one, and it is the address of the one Return-Path.
    pub agrees: bool,
    pub original_recipient: Option<TypedText<'a>>,
    pub message_id: Option<Part<'a>>,
}

// Whether the first address is that of the one Return-Path.
fn returns_to(requests: Option<Mailboxes>, returned: Returned) -> bool
    ensures { result ≡ returns_to (option_map listing requests.entry) (trace_of returned.entry) }
{
    match (requests.and_then(|mut list| list.next()), returned) {
        (Some(first), Returned::Once(Path { to: Some(path) })) => is_same(first, path),
        _ => false,
    }
}

impl<'a> From<Collecting<'a>> for Facts<'a> {
    ghost from_gives = { λ c facts. facts_said facts ≡ said (collected c) };

    fn from(c: Collecting<'a>) -> Facts<'a> {
        let distinct = c.requests.map_or(0, distinct);
        Facts {
            asks: c.requests.is_some(),
            notification: c.notification.unwrap_or(false),
            required: c.required.unwrap_or(false),
            distinct,
            agrees: distinct == 1 && returns_to(c.requests, c.returned),
            original_recipient: c.recipient,
            message_id: c.message_id,
        }
    }
}

// The facts of a header, or why it is refused.
pub fn read_header<'a>(input: &'a [u8]) -> Result<Facts<'a>, Refusal>
    ensures answers { meaning facts_said result ≡ header_of input.now }
    ensures exactly { SaysExactly input.now (meaning facts_said result) }
    ensures agreement { AgreesMeans }
{
    walk(Form::Header, input, Collecting::new()).map(Facts::from)
}

// The facts of the header of `size` bytes that begins at byte `start` of the spool, the bytes of all headers. One that
// reaches beyond the spool is too long for it.
pub fn read_header_at<'a>(spool: &'a [u8], start: usize, size: usize) -> Result<Facts<'a>, Refusal>
    ensures answers { meaning facts_said result ≡ header_at spool.now start size }
    ensures exactly { start + size ≤ length spool.now → SaysExactly (take size (drop start spool.now)) (meaning facts_said result) }
{
    let header = spool.get(start..).and_then(|rest| rest.get(..size));
    read_header(header.ok_or(Refusal::TooLong)?)
}
