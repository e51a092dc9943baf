// What a call of the host answers: what it gives, or why it refuses, and the four parts of either.
#![tactic(auto)]

mod fault;
mod parts;
mod reply;

pub use fault::HostFault;
pub use parts::{AnswerParts, Layer, parts_of};
pub use reply::Answer;
