// Mailboxes, and lists of them: RFC 5322, 3.4.
ghost use Rattle.std.specs.Prelude.{◌≡◌, true};
ghost use Rattle.std.specs.Iterator.{YieldsFirstBy, item_count};
ghost use Rattle.std.specs.Option.{option_map};
ghost use Rattle.fields.specs.Clean.{clean};
ghost use Rattle.abnf.specs.Exact.{Exactly, itself};
ghost use Rattle.address.specs.Rfc5322.{mailbox_list};
ghost use Rattle.address.specs.Reads.{word_first, name_rest, angle_start, angle_of, mailbox_of};
ghost use Rattle.address.specs.Lists.{parted, mailbox_list_of};
ghost use Rattle.address.specs.Seen.{addr, found, first_of, listing};

use crate::addr_spec::{Address, addr_spec};
use abnf::classes::{Atext, skip_byte};
use fields::bytes::Class;
use lexical::quoted::skip_word;
use lexical::span::Taken;
use lexical::white::skip_cfws;

// The most addresses that a list may have.
pub const MOST_ADDRESSES: usize = 16;

// What a word begins with.
pub struct WordFirst;

impl Class for WordFirst {
    ghost test = { word_first };

    fn holds(b: u8) -> bool {
        Atext::holds(b) || b == b'"'
    }
}

// What is left behind the words of a name, if any, and the white space around them.
#[tactic(auto, using(crate::proofs::Names::name_starts, crate::proofs::Names::no_name, crate::proofs::Names::past_word, crate::proofs::Names::word_less))]
fn skip_name<'a>(s: &'a [u8]) -> Option<&'a [u8]>
    ensures { option_map (λ x. x.now) result ≡ name_rest s.now }
{
    let mut rest = skip_cfws(s)?;
    while let [b, ..] = rest
        && WordFirst::holds(*b)
    {
        rest = skip_cfws(skip_word(rest)?)?;
    }
    Some(rest)
}

// What stands behind the "<" of an angle-addr with a name before it, if any.
fn angle_start<'a>(s: &'a [u8]) -> Option<&'a [u8]>
    ensures { option_map (λ x. x.now) result ≡ angle_start s.now }
{
    skip_byte(skip_name(s)?, b'<')
}

// An angle-addr whose "<" was read.
fn angle_addr<'a>(s: &'a [u8]) -> Option<Taken<'a, Address<'a>>>
    ensures { option_map found result ≡ angle_of s.now }
{
    let Taken {
        value: address,
        rest,
    } = addr_spec(s)?;
    let rest = skip_cfws(skip_byte(rest, b'>')?)?;
    Some(Taken {
        value: address,
        rest,
    })
}

// The mailbox that `s` begins with.
#[tactic(auto, unfolding(crate::specs::Reads::mailbox_of))]
fn mailbox<'a>(s: &'a [u8]) -> Option<Taken<'a, Address<'a>>>
    ensures { option_map found result ≡ mailbox_of s.now }
{
    match angle_start(s) {
        Some(inside) => angle_addr(inside),
        None => addr_spec(s),
    }
}

// Mailboxes with a comma between each two.
#[derive(Clone, Copy)]
pub struct Mailboxes<'a> {
    text: &'a [u8],
}

// The first address of a list, and the others. It stays beside the iterator for those who call `first`.
#[derive(Clone, Copy)]
pub struct First<'a> {
    pub address: Address<'a>,
    pub others: Mailboxes<'a>,
}

impl<'a> Mailboxes<'a> {
    // The first address and the others, if there is one: what `next` answers, and what it leaves.
    pub fn first(mut self) -> Option<First<'a>>
        ensures { option_map first_of result ≡ parted (listing self.entry) }
    {
        let address = self.next()?;
        Some(First {
            address,
            others: self,
        })
    }
}

// Their addresses, from the first to the last.
impl<'a> Iterator for Mailboxes<'a> {
    type Item = Address<'a>;

    ghost next_gives = { YieldsFirstBy addr listing };

    ghost remaining = { item_count listing };

    #[tactic(auto, using(crate::proofs::Lists::none_found))]
    fn next(&mut self) -> Option<Address<'a>> {
        let Taken {
            value: address,
            rest,
        } = mailbox(self.text)?;
        self.text = skip_byte(rest, b',').unwrap_or(&[]);
        Some(address)
    }
}

// The addresses of the mailbox-list that `body` is.
// That the body is clean is a premise, since a type of clean bodies would ask it of every caller.
#[tactic(auto, using(crate::proofs::Lists::list_exact))]
pub fn read_mailbox_list<'a>(body: &'a [u8]) -> Option<Mailboxes<'a>>
    ensures answers { option_map listing result ≡ mailbox_list_of body.now }
    ensures exactly { clean body.now ≡ true → Exactly mailbox_list itself body.now (option_map listing result) }
{
    let mut rest = body;
    for _ in 0..MOST_ADDRESSES {
        let found = mailbox(rest)?;
        if found.rest.is_empty() {
            return Some(Mailboxes { text: body });
        }
        rest = skip_byte(found.rest, b',')?;
    }
    None
}
