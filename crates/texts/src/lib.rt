// Texts, and bodies of the form type ";" text: RFC 8098.
#![tactic(auto)]

pub mod text;
pub mod typed;
