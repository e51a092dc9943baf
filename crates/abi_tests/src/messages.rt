// Each message, decoded by the codec and by the decoder built apart, and written again.
ghost use Rattle.std.specs.Prelude.{◌≤◌};

use crate::apart::*;
use abi::{GrantEntry, RingHeader};
use blkif::{BlockRequest, BlockResponse, SEGMENTS};
use layout::Coded;
use netif::{ReceiveRequest, ReceiveResponse, SendRequest, SendResponse};
use std::process::Abort;

const ENTRY: [Field; 3] = [(0, 2), (2, 2), (4, 4)];

const HEADER: [Field; 4] = [(0, 4), (4, 4), (8, 4), (12, 4)];

const BLOCK_REQUEST: [Field; 37] = [
    (0, 1),
    (1, 1),
    (8, 8),
    (16, 8),
    (24, 4),
    (28, 1),
    (29, 1),
    (32, 4),
    (36, 1),
    (37, 1),
    (40, 4),
    (44, 1),
    (45, 1),
    (48, 4),
    (52, 1),
    (53, 1),
    (56, 4),
    (60, 1),
    (61, 1),
    (64, 4),
    (68, 1),
    (69, 1),
    (72, 4),
    (76, 1),
    (77, 1),
    (80, 4),
    (84, 1),
    (85, 1),
    (88, 4),
    (92, 1),
    (93, 1),
    (96, 4),
    (100, 1),
    (101, 1),
    (104, 4),
    (108, 1),
    (109, 1),
];

const BLOCK_RESPONSE: [Field; 3] = [(0, 8), (8, 1), (10, 2)];

const SEND_REQUEST: [Field; 5] = [(0, 4), (4, 2), (6, 2), (8, 2), (10, 2)];

const SEND_RESPONSE: [Field; 2] = [(0, 2), (2, 2)];

const RECEIVE_REQUEST: [Field; 2] = [(0, 2), (4, 4)];

const RECEIVE_RESPONSE: [Field; 4] = [(0, 2), (2, 2), (4, 2), (6, 2)];

/// A field as the codec gives it.
enum Found {
    Number(u64),
    Status(i16),
}

fn number<T>(n: T) -> Found
where
    u64: From<T>,
{
    Found::Number(u64::from(n))
}

// Decodes each test message, compares each field k with that of the decoder built apart, and writes it again.
fn each_sample<M: Coded<N> + Copy, const N: usize, F: Fn(&M, usize) -> Found>(
    rt: &impl Abort,
    fields: &[Field],
    found: F,
)
    requires callable { F.IsAlwaysCallable found }
    requires short { N ≤ 4096 }
{
    for which in 0..samples(fields) {
        let mut b = [0u8; N];
        fill(&mut b, which, fields);
        let m = M::decode(&b);
        for (k, field) in fields.iter().enumerate() {
            match found(&m, k) {
                Found::Number(n) => assert_eq!(rt; n, value(&b, *field), "{which}, field {k}"),
                Found::Status(n) => {
                    assert_eq!(rt; i64::from(n), signed(&b, field.0), "{which}, field {k}")
                }
            }
        }
        check_covered(rt, which, &b, &m.encode(), fields);
    }
}

#[test]
fn entries(rt: HostRuntime) {
    each_sample(&rt, &ENTRY, |m: &GrantEntry, k| match k {
        0 => number(m.flags),
        1 => number(m.domid),
        _ => number(m.frame),
    });
}

#[test]
fn headers(rt: HostRuntime) {
    each_sample(&rt, &HEADER, |m: &RingHeader, k| match k {
        0 => number(m.req_prod),
        1 => number(m.req_event),
        2 => number(m.rsp_prod),
        _ => number(m.rsp_event),
    });
}

// A segment has three fields.
#[test]
fn block_requests(rt: HostRuntime) {
    each_sample(&rt, &BLOCK_REQUEST, |m: &BlockRequest, k| match k {
        0 => number(m.operation),
        1 => number(m.count),
        2 => number(m.id),
        3 => number(m.sector),
        _ => {
            let k = k.wrapping_sub(4);
            let s = m.segments[k / 3 % SEGMENTS];
            match k % 3 {
                0 => number(s.reference),
                1 => number(s.first),
                _ => number(s.last),
            }
        }
    });
}

#[test]
fn block_responses(rt: HostRuntime) {
    each_sample(&rt, &BLOCK_RESPONSE, |m: &BlockResponse, k| match k {
        0 => number(m.id),
        1 => number(m.operation),
        _ => Found::Status(m.status),
    });
}

#[test]
fn send_requests(rt: HostRuntime) {
    each_sample(&rt, &SEND_REQUEST, |m: &SendRequest, k| match k {
        0 => number(m.reference),
        1 => number(m.offset),
        2 => number(m.flags),
        3 => number(m.id),
        _ => number(m.size),
    });
}

#[test]
fn send_responses(rt: HostRuntime) {
    each_sample(&rt, &SEND_RESPONSE, |m: &SendResponse, k| match k {
        0 => number(m.id),
        _ => Found::Status(m.status),
    });
}

#[test]
fn receive_messages(rt: HostRuntime) {
    each_sample(&rt, &RECEIVE_REQUEST, |m: &ReceiveRequest, k| match k {
        0 => number(m.id),
        _ => number(m.reference),
    });
    each_sample(&rt, &RECEIVE_RESPONSE, |m: &ReceiveResponse, k| match k {
        0 => number(m.id),
        1 => number(m.offset),
        2 => number(m.flags),
        _ => Found::Status(m.status),
    });
}
