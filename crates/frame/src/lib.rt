// Frames: who owns them, who may reach them, and their bytes in the memory that is lent to each call.
#![tactic(auto)]

mod access;
mod domain;
mod fault;
mod memory;
mod owners;

pub use domain::{DOMAINS, Domain, NoDomain};
pub use fault::FrameFault;
pub use memory::{FRAME_SIZE, read_part, write_part, zero_frame};
pub use owners::{FRAMES, Frames};
