// What back ends do with a ring: they take requests off it, map what these name, move bytes, and answer.
#![tactic(auto)]

mod consumed;
mod looking;
mod moving;
mod response;
mod segments;
mod tables;

pub use consumed::{Consumed, consume};
pub use looking::{ask_event, look, next_request};
pub use moving::move_bytes;
pub use response::{port_of, respond};
pub use segments::{BACK_END, job_for, order_for, pin_segments, unpin_segments};
pub use tables::Tables;
