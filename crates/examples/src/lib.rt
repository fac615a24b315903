// The worked examples that are proved: the code reads each, and the contracts say what comes of it.
#![tactic(auto)]

ghost use Rattle.std.specs.Prelude.{◌≡◌, true, not};
ghost use Rattle.equality.specs.Equality.{same_address};
ghost use Rattle.examples.specs.Starred.{at_x, Starred};

use address::addr_spec::Address;
use equality::is_same;
use header::facts::read_header;

// A work order that asks for a receipt.
const ORDER: &[u8] = b"Return-Path: <a@x.org>\r\nDisposition-Notification-To: a@X.org\r\n";

// Whether the address that asks is that of the Return-Path.
fn order_agrees() -> bool
    ensures { result ≡ true }
{
    read_header(ORDER).is_ok_and(|facts| facts.agrees)
}

// Whether these local parts at x.org are two addresses.
fn differ(a: &[u8], b: &[u8]) -> bool
    ensures { result ≡ not (same_address (at_x a.now) (at_x b.now)) }
{
    let domain = b"x.org";
    !is_same(Address { local: a, domain }, Address { local: b, domain })
}

// All examples hold, as they are read and as they are proved.
#[tactic(auto, using(crate::proofs::Stars::case_counts, crate::proofs::Stars::quotes_count, crate::proofs::Stars::stars))]
pub fn starred() -> bool
    ensures holds { result ≡ true }
    ensures proved { Starred }
{
    order_agrees() & differ(b"a", b"A") & differ(b"a", b"\"a\"")
}
