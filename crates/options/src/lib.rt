// The body of a Disposition-Notification-Options field: RFC 8098, 2.2.
#![tactic(auto)]

pub mod body;
pub mod importance;
pub mod marking;
pub mod parameter;
