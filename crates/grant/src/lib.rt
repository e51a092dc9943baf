// Grant tables: what each domain lends, the host's own record of it, and who has it mapped.
#![tactic(auto)]

mod entries;
mod fault;
mod mapping;
mod maps;
mod mode;
mod pinning;
mod reference;
mod tables;

pub use fault::GrantFault;
pub use mapping::Granted;
pub use reference::Reference;
pub use tables::{ENTRIES, Grants, HANDLES, Mapping, Mode, Record};
