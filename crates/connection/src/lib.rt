// Connections between guests and back ends, and the jobs that devices have in hand for them.
#![tactic(auto)]

mod kinds;
mod number;
mod rings;
mod tables;

pub use kinds::{Bay, NoBay, bay_of};
pub use number::{ConnectionNumber, NoSuchConnection};
pub use tables::{CONNECTIONS, Connection, JOBS, Job, Rings};
