// When two addresses are the same, and how many different ones a list has.
#![tactic(auto)]

ghost use Rattle.std.specs.Prelude.{◌≡◌, ℕ};
ghost use Rattle.address.specs.Seen.{addr, listing};
ghost use Rattle.equality.specs.Equality.{same_address};
ghost use Rattle.equality.specs.Distinct.{among, distinct, Classes};

use abnf::strings::is_alike;
use address::addr_spec::Address;
use address::mailbox::Mailboxes;

// Local parts are compared as written, domains without the case of ASCII letters.
// By hand, since a derived `==` would compare the domains as written too.
#[tactic(auto, unfolding(crate::specs::Equality::same_address))]
pub fn is_same(a: Address, b: Address) -> bool
    ensures { result ≡ same_address (addr a.entry) (addr b.entry) }
{
    a.local == b.local && is_alike(a.domain, b.domain)
}

// Whether the same address stands in the list.
fn is_among(address: Address, mut list: Mailboxes) -> bool
    ensures { result ≡ among (addr address.entry) (listing list.entry) }
{
    list.any(|other| is_same(address, other))
}

// How many different addresses the list has: each counts where it stands last.
pub fn distinct(mut list: Mailboxes) -> usize
    ensures counted { result ≡ distinct (listing list.entry) }
    ensures classes { Classes (listing list.entry) result }
    ensures alone { (n : ℕ) → Classes (listing list.entry) n → n ≡ result }
{
    let mut count = 0;
    // A `for` would not lend what is left of the list.
    while let Some(address) = list.next() {
        count += usize::from(!is_among(address, list));
    }
    count
}
