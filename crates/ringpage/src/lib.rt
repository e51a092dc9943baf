// A ring page as a whole: its header, the requests that are outstanding on it, and the request in a slot.
#![tactic(auto)]

mod header;
mod requests;
mod slot;

pub use header::header_of;
pub use requests::{Outstanding, Overrun, outstanding_on};
pub use slot::Request;
