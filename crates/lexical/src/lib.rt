// The words of RFC 5322 and the white space around them. Each reader answers what is left of its bytes.
#![tactic(auto)]

pub mod quoted;
pub mod span;
pub mod white;
