// A disk kept in memory that the caller lends: up to 128 sectors of 512 bytes, and up to four orders
// in hand, in slots that the caller lends too.
#![tactic(auto)]

pub mod example;
pub mod making;
pub mod sectors;
pub mod serving;
pub mod store;

pub use example::eight_sectors_on_thirty_two;
pub use making::check;
pub use store::Disk;
