// The spans of frames that a request names, in order.
ghost use Rattle.std.specs.Prelude.{◌≡◌, ◌≤◌, [], ◌∷◌, length, map, take, sum_by};
ghost use Rattle.request.specs.Content.{segment_span, spans_of, length_of, listed};

use crate::content::{Span, segment_span};
use abi::PAGE_SIZE;
use blkif::{BlockRequest, SEGMENTS};
use ringpage::Request;
use rules::front;

/// The first `count` places of a table, and how many bytes they have together. A plain `Copy` record, as `Checked` is
/// that holds it: a vector of a fixed capacity is none.
#[derive(Clone, Copy)]
pub struct Spans {
    pub table: [Span; SEGMENTS],
    pub count: u8,
    pub length: u32,
}

impl Spans {
    /// The spans, in their order.
    pub fn as_slice(&self) -> &[Span]
        ensures is { result.now ≡ listed self.now }
        ensures bound { length result.now ≤ 11 }
    {
        front(&self.table, self.count as usize)
    }
}

fn one_span(span: Span) -> Spans
    ensures spans { listed result ≡ span ∷ [] }
    ensures length { result.length ≡ span.length }
{
    Spans {
        table: [span; SEGMENTS],
        count: 1,
        length: span.length,
    }
}

// What stands in a span's place before one is put there.
const NONE: Span = Span {
    reference: 0,
    start: 0,
    length: 0,
};

// Only the segments that are asked for are looked at: an array's `map` would go through all eleven.
fn block_spans(request: &BlockRequest) -> Spans
    ensures spans { listed result ≡ map segment_span (take request.now.count request.now.segments) }
    ensures length { result.length ≡ sum_by (λ s. s.length) (map segment_span (take request.now.count request.now.segments)) }
{
    let segments = front(&request.segments, request.count as usize);
    let mut table = [NONE; SEGMENTS];
    let mut length = 0;
    for (i, segment) in segments.iter().enumerate() {
        let span = segment_span(*segment);
        table[i] = span;
        length += span.length;
    }
    Spans {
        table,
        count: segments.len() as u8,
        length,
    }
}

/// The spans that a request names.
pub fn spans_of(request: &Request) -> Spans
    ensures spans { listed result ≡ spans_of request.now }
    ensures length { result.length ≡ length_of request.now }
{
    match request {
        Request::OfBlock(q) => block_spans(q),
        Request::OfSend(q) => one_span(Span {
            reference: q.reference,
            start: u32::from(q.offset),
            length: u32::from(q.size),
        }),
        Request::OfReceive(q) => one_span(Span {
            reference: q.reference,
            start: 0,
            length: PAGE_SIZE as u32,
        }),
    }
}
