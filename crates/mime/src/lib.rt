// The body of a Content-Type field: RFC 2045, section 5.1.
#![tactic(auto)]

pub mod content;
pub mod values;
