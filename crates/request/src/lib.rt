// Requests of guests: what they ask for, and the checks that they pass before a device is asked.
#![tactic(auto)]

mod content;
mod fields;
mod passing;
mod table;

pub use content::{Span, direction_of, id_of, operation_of, place_of, segment_span};
pub use fields::{Miss, check_fields};
pub use passing::{Checked, check, worked_examples};
pub use table::{Spans, spans_of};
