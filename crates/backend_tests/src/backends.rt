// What back ends do: segments, responses, tickets.
use abi::{GrantEntry, Kind};
use backend::{consume, job_for, order_for, pin_segments, respond, unpin_segments};
use connection::{Bay, Connection, Rings};
use device::Direction;
use event::{Events, Port};
use frame::{Domain, Frames};
use grant::{GrantFault, Grants};
use netif::ReceiveRequest;
use request::{Checked, Miss, Span, Spans};
use ring::{Reply, Word, put_word, word_or_zero};
use ringpage::Request;
use std::test::Fail;

// A write to the device: a whole frame under the reference 5, and 1,024 bytes from 1,024 on under the reference 6.
fn two_segments() -> Checked {
    let mut table = [Span {
        reference: 5,
        start: 0,
        length: 4096,
    }; 11];
    table[1] = Span {
        reference: 6,
        start: 1024,
        length: 1024,
    };
    Checked {
        direction: Direction::Outward,
        place: 9,
        id: 7,
        operation: 1,
        spans: Spans {
            table,
            count: 2,
            length: 5120,
        },
    }
}

// Domain 1 grants domain 0 a frame, to be read or written.
fn grant(grants: &mut Grants, one: Domain, reference: u32, frame: u32) -> Result<(), GrantFault> {
    let reference = Grants::may_write(reference)?;
    grants.write_entry(
        one,
        reference,
        GrantEntry {
            flags: 1,
            domid: 0,
            frame,
        },
    );
    Ok(())
}

// The number of a refusal and its place, or 0 and 0.
fn number(r: Result<(), Miss>) -> (i32, u8) {
    r.err()
        .map_or((0, 0), |miss| (miss.fault.number(), miss.place))
}

// Reference 5 is granted and 6 is not: the map of the second segment is refused with -1, at place 1, and the first is
// unmapped again. With both granted they get the handles 0 and 1, and the second part begins at 4,096 * 3 + 1,024.
#[test]
fn segments(rt: HostRuntime) -> Result<(), Fail> {
    let one = Domain::try_from(1)?;
    let mut frames = Frames::new(4);
    frames.settle(one, 2);
    frames.settle(one, 3);
    let mut grants = Grants::new();
    grant(&mut grants, one, 5, 2)?;
    let checked = two_segments();
    assert_eq!(rt; order_for(3, &checked).length, 5120);
    let mut job = job_for(0, Kind::Block, &checked);
    assert_eq!(rt;
        number(pin_segments(&frames, &mut grants, 1, &checked.spans, &mut job)),
        (-1, 1)
    );
    assert_eq!(rt; grants.pins(2), 0);
    grant(&mut grants, one, 6, 3)?;
    assert_eq!(rt;
        number(pin_segments(&frames, &mut grants, 1, &checked.spans, &mut job)),
        (0, 0)
    );
    assert_eq!(rt; job.count, 2);
    assert_eq!(rt; job.handles[1], 1);
    assert_eq!(rt; job.parts[1].start, 13312);
    assert_eq!(rt; grants.pins(3), 1);
    unpin_segments(&mut grants, &job);
    assert_eq!(rt; grants.pins(2), 0);
    assert_eq!(rt; grants.pins(3), 0);
    Ok(())
}

// Connection 2 is a receive ring of domain 3 in frame 1, with 4 responses made of 5 requests taken. The guest waits for
// response 5: the first response, in slot 4 at 64 + 4 * 8 = 96 of the page, marks its port 3, the second does not.
#[test]
fn responses(rt: HostRuntime) -> Result<(), Fail> {
    let three = Domain::try_from(3)?;
    let port = Port::try_from(3)?;
    let connection = Connection {
        kind: Kind::Receive,
        guest: 3,
        page: 1,
        handle: 0,
        req_cons: 5,
        rsp_prod: 4,
    };
    let mut rings = Rings::new();
    rings.open(2, connection);
    let mut events = Events::new();
    let mut memory = [0u8; 8192];
    put_word(&mut memory, 1, Word::RspEvent, 5);
    let reply = Reply {
        id: 0x0201,
        operation: 0,
        status: 60,
    };
    respond(&mut rings, &mut events, &mut memory, 2, reply);
    assert_eq!(rt; events.pick(three), Some(port));
    assert_eq!(rt; word_or_zero(&memory, 1, Word::RspProd), 5);
    let mut response = [9u8; 8];
    assert!(rt; frame::read_part(&memory, 1, 96, &mut response).is_ok());
    assert_eq!(rt; response, [1, 2, 0, 0, 0, 0, 60, 0]);
    events.drop_mark(three, port);
    respond(&mut rings, &mut events, &mut memory, 2, reply);
    assert_eq!(rt; events.pick(three), None);
    assert_eq!(rt; word_or_zero(&memory, 1, Word::RspProd), 6);
    Ok(())
}

// A request that is taken raises req_cons from 4,294,967,295 to 0, and its answer rsp_prod likewise.
#[test]
fn taken_and_answered(rt: HostRuntime) -> Result<(), Fail> {
    let connection = Connection {
        kind: Kind::Receive,
        guest: 3,
        page: 0,
        handle: 0,
        req_cons: 4_294_967_295,
        rsp_prod: 4_294_967_295,
    };
    let mut rings = Rings::new();
    rings.open(5, connection);
    let mut events = Events::new();
    let mut memory = [0u8; 4096];
    let request = Request::OfReceive(ReceiveRequest {
        id: 9,
        reference: 1,
    });
    let taken = consume(&mut rings, 5, &connection, &request);
    taken.answer(&mut rings, &mut events, &mut memory, -1);
    let after = rings.connection(5).ok_or("the connection is live")?;
    assert_eq!(rt; after.req_cons, 0);
    assert_eq!(rt; after.rsp_prod, 0);
    Ok(())
}

// Connection 2 has the tickets 4 and 5.
#[test]
fn tickets(rt: HostRuntime) {
    let job = job_for(2, Kind::Block, &two_segments());
    let mut rings = Rings::new();
    assert_eq!(rt; rings.free_ticket(2), Some(4));
    rings.add_job(4, &job);
    assert_eq!(rt; rings.free_ticket(2), Some(5));
    rings.add_job(5, &job);
    assert_eq!(rt; rings.free_ticket(2), None);
    rings.end_job(4);
    assert_eq!(rt; rings.free_ticket(2), Some(4));
    assert!(rt; rings.has_jobs(2));
    assert!(rt; rings.job(Bay::BlockBay, 5).is_some());
    assert!(rt; rings.job(Bay::NetBay, 5).is_none());
    assert_eq!(rt; rings.free_ticket(6), None);
}
