// A loop-back network: a packet that is sent out comes in again, behind those that wait already.
#![tactic(auto)]

pub mod hand;
pub mod making;
pub mod packet;
pub mod packets;
pub mod serving;
pub mod wiring;

pub use making::check;
pub use packet::Packet;
pub use wiring::Wire;
