// The calls that need no device, on a host's tables and memory: each tests its rules in their order, then changes what
// it grants.
#![tactic(auto)]

pub mod callers;
pub mod connections;
pub mod events;
pub mod frames;
pub mod grants;
