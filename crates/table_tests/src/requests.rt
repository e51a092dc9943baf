// Requests: what they ask for, and what their own fields are refused for.
use blkif::{BlockRequest, Segment};
use netif::SendRequest;
use request::{check_fields, spans_of};
use ringpage::Request;

// A block request of two segments: a whole frame, and the sectors 2 and 3 of another.
fn block(operation: u8, count: u8, first: u8, last: u8) -> Request {
    let mut segments = [Segment {
        reference: 5,
        first: 0,
        last: 7,
    }; 11];
    segments[1] = Segment {
        reference: 6,
        first,
        last,
    };
    Request::OfBlock(BlockRequest {
        operation,
        count,
        id: 1,
        sector: 9,
        segments,
    })
}

// The status that a request is refused with, and the segment, or 0 and 0.
fn refusal(request: &Request) -> (i16, u8) {
    check_fields(request)
        .err()
        .map_or((0, 0), |miss| (miss.fault.status(), miss.place))
}

#[test]
fn block_checks(rt: HostRuntime) {
    let passing = [
        refusal(&block(0, 2, 2, 3)),
        refusal(&block(1, 11, 7, 7)),
        // a bad segment that is not counted does not count
        refusal(&block(0, 1, 3, 2)),
    ];
    assert_eq!(rt; passing, [(0, 0); 3]);
    let refused = [
        refusal(&block(2, 2, 2, 3)),
        refusal(&block(0, 0, 2, 3)),
        refusal(&block(0, 12, 2, 3)),
        refusal(&block(0, 2, 3, 2)),
        refusal(&block(0, 2, 2, 8)),
    ];
    assert_eq!(rt; refused, [(-2, 0), (-1, 0), (-1, 0), (-1, 1), (-1, 1)]);
}

// 8 sectors from byte 0 on, and 2 from byte 2 * 512 = 1024 on: 4,096 + 1,024 = 5,120 bytes together.
#[test]
fn block_spans(rt: HostRuntime) {
    let spans = spans_of(&block(0, 2, 2, 3));
    assert_eq!(rt; spans.count, 2);
    assert_eq!(rt; spans.length, 5120);
    let [first, second, ..] = spans.table;
    assert_eq!(rt; [first.start, first.length], [0, 4096]);
    assert_eq!(rt;
        [second.reference, second.start, second.length],
        [6, 1024, 1024]
    );
}

#[test]
fn send_checks(rt: HostRuntime) {
    let fits = Request::OfSend(SendRequest {
        reference: 1,
        offset: 2582,
        flags: 0,
        id: 2,
        size: 1514,
    });
    let past = Request::OfSend(SendRequest {
        reference: 1,
        offset: 2583,
        flags: 0,
        id: 2,
        size: 1514,
    });
    let flagged = Request::OfSend(SendRequest {
        reference: 1,
        offset: 0,
        flags: 1,
        id: 2,
        size: 60,
    });
    let answers = [refusal(&fits), refusal(&past), refusal(&flagged)];
    assert_eq!(rt; answers, [(0, 0), (-1, 0), (-1, 0)]);
}
