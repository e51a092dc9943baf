// A ring page in frame 1 of a memory of two frames.
use abi::Kind;
use ring::{
    Reply, Word, ahead, copy_request, read_word, set_word, write_fresh_header, write_response,
};
use ringpage::Request;
use std::test::Fail;

// The header is 0, 1, 0, 1 in words of four bytes, and zeros up to byte 63; byte 64, the first slot's, stays.
#[test]
fn header(rt: HostRuntime) {
    let mut memory = [7u8; 8192];
    assert!(rt; write_fresh_header(&mut memory, 1).is_ok());
    let around = [memory[4095], memory[4096], memory[4159], memory[4160]];
    assert_eq!(rt; around, [7, 0, 0, 7]);
    let words = [memory[4096], memory[4100], memory[4104], memory[4108]];
    assert_eq!(rt; words, [0, 1, 0, 1]);
    assert!(rt; set_word(&mut memory, 1, Word::RspProd, 0x0102_0304).is_ok());
    assert_eq!(rt; [memory[4104], memory[4107]], [4, 1]);
    assert_eq!(rt;
        read_word(&memory, 1, Word::RspProd).ok(),
        Some(0x0102_0304)
    );
    assert!(rt; read_word(&memory, 2, Word::ReqProd).is_err());
}

// Index 257 of a receive ring uses slot 1, which starts at byte 64 + 8 = 72 of the page, 4168 of the memory. Its request
// has id 0x0201 and reference 0x0b0a0908. The response in its place has that id, zeros, and the status -2: fe ff.
#[test]
fn request_and_response(rt: HostRuntime) -> Result<(), Fail> {
    let mut memory = [0u8; 8192];
    let slot: [u8; 8] = [1, 2, 9, 9, 8, 9, 10, 11];
    assert!(rt; frame::write_part(&mut memory, 1, 72, &slot).is_ok());
    let Ok(Request::OfReceive(request)) = copy_request(&memory, 1, Kind::Receive, 257) else {
        return Err(Fail::new("no receive request was read"));
    };
    assert_eq!(rt; request.id, 0x0201);
    assert_eq!(rt; request.reference, 0x0b0a_0908);
    let reply = Reply {
        id: 0x0201,
        operation: 0,
        status: -2,
    };
    assert!(rt; write_response(&mut memory, 1, Kind::Receive, 257, reply).is_ok());
    let mut response = [9u8; 10];
    assert!(rt; frame::read_part(&memory, 1, 71, &mut response).is_ok());
    assert_eq!(rt; response, [0, 1, 2, 0, 0, 0, 0, 254, 255, 0]);
    Ok(())
}

// Of 32 slots 3 hold unanswered requests, so at most 29 may be ahead.
#[test]
fn producer(rt: HostRuntime) {
    let passes = [
        ahead(Kind::Block, 3, 0, 32).is_ok(),
        ahead(Kind::Block, 3, 0, 33).is_ok(),
        ahead(Kind::Block, 1, 4_294_967_294, 30).is_ok(),
        ahead(Kind::Block, 1, 4_294_967_294, 31).is_ok(),
    ];
    assert_eq!(rt; passes, [true, false, true, false]);
}

// Nothing was consumed: as many requests as slots are ahead, and one more is refused with -42.
#[test]
fn full_ring(rt: HostRuntime) {
    assert_eq!(rt; ahead(Kind::Block, 0, 0, 32).ok(), Some(32));
    let refused = ahead(Kind::Block, 0, 0, 33).err();
    assert_eq!(rt; refused.map(|fault| fault.number()), Some(-42));
}
