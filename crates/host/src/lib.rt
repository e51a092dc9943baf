// The host: its fourteen calls, thin over the layers below, each of which takes its step of the law.
#![tactic(auto)]

mod call;
mod calls;
mod devices;
mod dispatch;
mod start;
mod state;
mod whole;

pub use call::Call;
pub use state::Host;
pub use whole::run;
