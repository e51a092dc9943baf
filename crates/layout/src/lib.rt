// Messages as lists of fields and gaps, lowest byte first: described once, with the laws that serve every codec.
// The bytes of a number are std's `to_le_bytes`, which promises the bytes that `le` gives.
#![tactic(auto)]

mod coded;

pub use coded::Coded;
