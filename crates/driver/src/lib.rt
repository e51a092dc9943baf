// What a back end does for its device: it serves a connection, and it completes a job.
#![tactic(auto)]

mod completing;
mod serving;

pub use completing::complete;
pub use serving::serve;
