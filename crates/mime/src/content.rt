// The parts of a Content-Type's body, and whether it is a disposition notification's.
ghost use Rattle.std.specs.Prelude.{◌≡◌};
ghost use Rattle.std.specs.Option.{option_map};
ghost use Rattle.abnf.specs.Exact.{Exactly};
ghost use Rattle.mime.specs.Rfc2045.{content};
ghost use Rattle.mime.specs.Kinds.{some, reports, is_report, notifies};
ghost use Rattle.mime.specs.Reads.{token_before, parameter_of, parameters_of, content_of};
ghost use Rattle.mime.specs.Seen.{text, read, said};

use crate::values::means;
use abnf::classes::{self, skip_byte};
use abnf::strings::is_alike;
use lexical::quoted::QuotedOr;
use lexical::span::{Run, Taken, around};

// The text of a token.
pub type Token = Run<classes::Token>;

// The text of a parameter's value: a token's, or a quoted-string from quote to quote.
pub type Value = QuotedOr<Token>;

// The token that stands before a byte `b`, and what is left behind that byte.
#[tactic(auto, unfolding(crate::specs::Reads::token_before))]
fn token_before<'a>(s: &'a [u8], b: u8) -> Option<Taken<'a, &'a [u8]>>
    ensures { option_map text result ≡ token_before b s.now }
{
    let token = around::<Token>(s)?;
    let rest = skip_byte(token.rest, b)?;
    Some(Taken {
        value: token.value.text(),
        rest,
    })
}

#[derive(Clone, Copy)]
struct Parameter<'a> {
    attribute: &'a [u8],
    value: &'a [u8],
}

#[tactic(auto, unfolding(crate::specs::Reads::parameter_of))]
fn read_parameter<'a>(s: &'a [u8]) -> Option<Taken<'a, Parameter<'a>>>
    ensures { option_map read result ≡ parameter_of s.now }
{
    let attribute = token_before(s, b'=')?;
    let value = around::<Value>(attribute.rest)?;
    Some(Taken {
        value: Parameter {
            attribute: attribute.value,
            value: value.value.text(),
        },
        rest: value.rest,
    })
}

// Whether the parameter says that the report is a notification.
fn says_notification(p: Parameter) -> bool
    ensures { result ≡ reports (said p.entry) }
{
    is_alike(p.attribute, b"report-type") && means(p.value, b"disposition-notification")
}

// Whether one of the parameters, each behind a ";", says that the report is a notification.
fn read_parameters(s: &[u8]) -> Option<bool>
    ensures { result ≡ option_map (some reports) (parameters_of s.now) }
{
    let mut rest = s;
    let mut found = false;
    while let [b';', tail @ ..] = rest {
        let p = read_parameter(tail)?;
        found |= says_notification(p.value);
        rest = p.rest;
    }
    rest.is_empty().then_some(found)
}

// Whether the type is multipart/report.
fn is_report(kind: &[u8], subtype: &[u8]) -> bool
    ensures { result ≡ is_report kind.now subtype.now }
{
    is_alike(kind, b"multipart") && is_alike(subtype, b"report")
}

// Whether the body of a Content-Type field is a disposition notification's; none if it is no Content-Type.
#[tactic(auto, using(crate::proofs::Grammar::content_exact), unfolding(crate::specs::Reads::content_of))]
pub fn read_content_type(body: &[u8]) -> Option<bool>
    ensures answers { result ≡ option_map notifies (content_of body.now) }
    ensures exactly { Exactly content notifies body.now result }
{
    let kind = token_before(body, b'/')?;
    let subtype = around::<Token>(kind.rest)?;
    let reported = read_parameters(subtype.rest)?;
    Some(is_report(kind.value, subtype.value.text()) && reported)
}
