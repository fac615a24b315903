// The fields that say something of receipts.
ghost use Rattle.std.specs.Prelude.{◌≡◌};
ghost use Rattle.header.specs.Names.{known_as};

use abnf::strings::is_alike;

#[derive(Clone, Copy, Debug, PartialEq, Eq)]
pub enum Known {
    ReturnPath,
    NotificationTo,
    NotificationOptions,
    OriginalRecipient,
    MessageId,
    ContentType,
    Other,
}

// The field of this name, where the case of ASCII letters does not count.
impl<'a> From<&'a [u8]> for Known {
    ghost from_gives = { λ name known. known ≡ known_as name.now };

    #[tactic(auto, unfolding(crate::specs::Names::known_as))]
    fn from(name: &'a [u8]) -> Known {
        match name {
            _ if is_alike(name, b"Return-Path") => Known::ReturnPath,
            _ if is_alike(name, b"Disposition-Notification-To") => Known::NotificationTo,
            _ if is_alike(name, b"Disposition-Notification-Options") => Known::NotificationOptions,
            _ if is_alike(name, b"Original-Recipient") => Known::OriginalRecipient,
            _ if is_alike(name, b"Message-ID") => Known::MessageId,
            _ if is_alike(name, b"Content-Type") => Known::ContentType,
            _ => Known::Other,
        }
    }
}

impl Known {
    // The field of this name, as `from` answers.
    pub fn named(name: &[u8]) -> Known
        ensures { result ≡ known_as name.now }
    {
        Known::from(name)
    }
}
