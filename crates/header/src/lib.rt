// What a message header says of receipts.
#![tactic(auto)]

pub mod collecting;
pub mod facts;
pub mod known;
