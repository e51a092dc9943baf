// What every call of a host does, and what holds over every run of calls. No function here runs a call.
#![tactic(auto)]

mod examples;
mod isolation;

pub use examples::worked_examples;
pub use isolation::isolation_stands;
