// The lines and fields of a message header or of a report, and the one walk over them.
#![tactic(auto)]

pub mod bytes;
pub mod field;
pub mod line;
pub mod part;
pub mod refusal;
pub mod walk;
