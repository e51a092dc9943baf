// A program that is driven by the lines of a script on standard input.
#![tactic(auto)]

mod arguments;
mod script;

pub use arguments::{Arguments, wants_usage};
pub use script::{FromLine, Script, Unread};
