// Event channels: the ports that are pending in each domain.
#![tactic(auto)]

mod fault;
mod pending;
mod port;

pub use fault::EventFault;
pub use pending::Events;
pub use port::{PORTS, Port};
