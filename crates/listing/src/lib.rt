// A ring page in words, as ringdump prints it.
#![tactic(auto)]

mod dump;
mod lines;

pub use dump::{DumpFault, dump_page};
pub use lines::{HeaderLine, RequestLines};
