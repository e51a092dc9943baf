// A first-in-first-out line over slots that the caller lends.
#![tactic(auto)]

pub mod fault;
pub mod line;
pub mod order;
mod slots;

pub use fault::QueueFault;
pub use line::Queue;
pub use order::first_in_first_out;
