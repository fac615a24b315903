// What is collected of a header's fields on the walk over them.
ghost use Rattle.std.specs.Prelude.{◌≡◌};
ghost use Rattle.address.specs.Seen.{path_told};
ghost use Rattle.header.specs.Collected.{Collected, traced, nothing_yet, collects, EntersOnce};
ghost use Rattle.header.specs.Seen.{trace_of, collected};

use crate::known::Known;
use address::mailbox::{Mailboxes, read_mailbox_list};
use address::msg_id::read_msg_id;
use address::path::{Path, read_path};
use fields::part::{Field, Part};
use fields::refusal::Objection;
use fields::walk::Collector;
use mime::content::read_content_type;
use options::body::read_options;
use texts::typed::{TypedText, read_typed_text};

// The Return-Paths so far.
#[derive(Clone, Copy)]
pub enum Returned<'a> {
    Never,
    Once(Path<'a>),
    Again,
}

impl<'a> Returned<'a> {
    // With one more.
    fn and(self, path: Path<'a>) -> Returned<'a>
        ensures { trace_of result ≡ traced (trace_of self.entry) (path_told path.entry) }
    {
        match self {
            Returned::Never => Returned::Once(path),
            _ => Returned::Again,
        }
    }
}

#[derive(Clone, Copy)]
pub struct Collecting<'a> {
    pub returned: Returned<'a>,
    // The addresses of Disposition-Notification-To.
    pub requests: Option<Mailboxes<'a>>,
    // Whether some option is marked required.
    pub required: Option<bool>,
    pub recipient: Option<TypedText<'a>>,
    pub message_id: Option<Part<'a>>,
    // Whether the Content-Type is a notification's.
    pub notification: Option<bool>,
}

impl<'a> Collecting<'a> {
    pub fn new() -> Collecting<'a>
        ensures { collected result ≡ nothing_yet }
    {
        Collecting {
            returned: Returned::Never,
            requests: None,
            required: None,
            recipient: None,
            message_id: None,
            notification: None,
        }
    }
}

// Enters what is read of the body, or objects that it is outside its grammar. Where the slot is filled, the field stands
// a second time, and nothing is read.
fn once<'a, T: Drop, F: FnOnce(Part<'a>) -> Option<T>>(
    slot: &mut Option<T>,
    body: Part<'a>,
    read: F,
) -> Result<(), Objection>
    requires { F.pre read body }
    ensures { EntersOnce slot.old (F.post read body.entry) result slot.new }
{
    if slot.is_some() {
        return Err(Objection::Repeated);
    }
    *slot = Some(read(body).ok_or(Objection::Malformed)?);
    Ok(())
}

impl<'a> Collector<'a> for Collecting<'a> {
    ghost State = { Collected };

    ghost state = { collected };

    ghost step = { collects };

    #[tactic(auto, unfolding(crate::specs::Collected::collects))]
    fn take(&mut self, field: Field<'a>) -> Result<(), Objection> {
        let Field { name, body } = field;
        match Known::from(name.text) {
            Known::ReturnPath => {
                let path = read_path(body.text).ok_or(Objection::Malformed)?;
                self.returned = self.returned.and(path);
                Ok(())
            }
            Known::NotificationTo => once(&mut self.requests, body, |b| read_mailbox_list(b.text)),
            Known::NotificationOptions => once(&mut self.required, body, |b| read_options(b.text)),
            Known::OriginalRecipient => once(&mut self.recipient, body, read_typed_text),
            Known::MessageId => once(&mut self.message_id, body, read_msg_id),
            Known::ContentType => once(&mut self.notification, body, |b| read_content_type(b.text)),
            Known::Other => Ok(()),
        }
    }
}
