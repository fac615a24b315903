// Addresses and message identifiers of RFC 5322.
#![tactic(auto)]

pub mod addr_spec;
pub mod mailbox;
pub mod msg_id;
pub mod path;
