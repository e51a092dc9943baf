// Messages of the two network rings, as Xen's io/netif.h lays them out.
#![tactic(auto)]

mod receive;
mod send;

pub use receive::{ReceiveRequest, ReceiveResponse};
pub use send::{SendRequest, SendResponse};
