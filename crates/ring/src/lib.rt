// Rings: the shared page inside the memory, the indices on it, and responses.
#![tactic(auto)]

mod fault;
mod page;
mod producer;
mod response;
mod total;

pub use fault::{Layer, RingFault};
pub use page::{Word, copy_request, read_word, set_word, write_fresh_header};
pub use producer::{ahead, worked_examples};
pub use response::{Reply, write_response};
pub use total::{put_fresh_header, put_response, put_word, request_or_zeros, word_or_zero};
