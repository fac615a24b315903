// The path of a Return-Path: RFC 5322, 3.6.7.
ghost use Rattle.std.specs.Prelude.{◌≡◌};
ghost use Rattle.std.specs.Option.{option_map};
ghost use Rattle.abnf.specs.Exact.{Exactly, itself};
ghost use Rattle.address.specs.Rfc5322.{path};
ghost use Rattle.address.specs.Reads.{null_rest, to_end, path_from, path_of};
ghost use Rattle.address.specs.Seen.{addr, path_told};

use crate::addr_spec::{Address, addr_spec};
use abnf::classes::skip_byte;
use lexical::white::skip_cfws;

// Where a message goes back to: to nobody for "<>".
#[derive(Clone, Copy)]
pub struct Path<'a> {
    pub to: Option<Address<'a>>,
}

// What stands behind [CFWS] ">".
fn skip_null<'a>(s: &'a [u8]) -> Option<&'a [u8]>
    ensures { option_map (λ x. x.now) result ≡ null_rest s.now }
{
    skip_byte(skip_cfws(s)?, b'>')
}

// The path to `to`, where [CFWS] and no more stands behind it.
fn ended<'a>(to: Option<Address<'a>>, s: &'a [u8]) -> Option<Path<'a>>
    ensures { option_map path_told result ≡ to_end (option_map addr to.entry) s.now }
{
    skip_cfws(s)?.is_empty().then_some(Path { to })
}

// A path whose "<" was read.
fn path_from<'a>(s: &'a [u8]) -> Option<Path<'a>>
    ensures { option_map path_told result ≡ path_from (null_rest s.now) s.now }
{
    match skip_null(s) {
        Some(rest) => ended(None, rest),
        None => {
            let to = addr_spec(s)?;
            ended(Some(to.value), skip_byte(to.rest, b'>')?)
        }
    }
}

// The path that `body` is.
#[tactic(auto, using(crate::specs::Paths::path_exact))]
pub fn read_path<'a>(body: &'a [u8]) -> Option<Path<'a>>
    ensures answers { option_map path_told result ≡ path_of body.now }
    ensures exactly { Exactly path itself body.now (option_map path_told result) }
{
    path_from(skip_byte(skip_cfws(body)?, b'<')?)
}
