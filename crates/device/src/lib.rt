// What a device is, told apart from any device: its orders, its faults, what it owes, and handing
// parts of a memory to it.
#![tactic(auto)]

pub mod fault;
pub mod meaning;
pub mod orders;
pub mod row;
pub mod transfer;
pub mod turn;

pub use fault::DeviceFault;
pub use meaning::Device;
pub use orders::{Direction, Order};
pub use transfer::{Part, drain_part, drain_parts, fill_part, fill_parts};
