// Messages of a block ring, as Xen's io/blkif.h lays them out.
#![tactic(auto)]

mod block;

pub use block::{BlockRequest, BlockResponse, SEGMENTS, Segment};
