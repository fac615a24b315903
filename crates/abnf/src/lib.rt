// The bytes and strings that bodies are made of. The operators of ABNF are definitions alone.
#![tactic(auto)]

pub mod classes;
pub mod strings;
