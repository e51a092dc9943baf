// Rules that every layer shares: refusals in their order, and tables of places that are free or taken.
#![tactic(auto)]

mod tables;

pub use tables::{at, first_free, front, put};
