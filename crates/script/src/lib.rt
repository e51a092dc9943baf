// The script language of scanhost: the words of a line as a command, and an answer as text.
#![tactic(auto)]

mod answers;
mod by_count;
mod command;
mod error;
mod lines;
mod numbers;
mod verb;

pub use answers::{AnswerText, Echo};
pub use command::Command;
pub use error::LineError;
pub use lines::{parse, words};
pub use verb::Verb;
