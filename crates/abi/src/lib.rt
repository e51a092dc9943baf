// What Xen's public headers fix for every ring: grant entries, ring pages, free-running indices and numbers.
#![tactic(auto)]

mod entry;
mod examples;
mod index;
mod kind;
mod page;
mod status;

pub use entry::{GTF_READING, GTF_READONLY, GTF_WRITING, GrantEntry};
pub use examples::{Examples, worked_examples};
pub use index::{advance, distance};
pub use kind::NoKind;
pub use page::{Kind, PAGE_SIZE, RingHeader};
pub use status::{Errno, GrantStatus, HouseStatus};
