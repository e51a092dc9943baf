// Ring pages without a refusal: memory of two frames, so that frame 2 is not there.
use ring::{Word, put_fresh_header, put_word, word_or_zero};

// A page past the memory takes no write and reads as zeros; one inside it holds what was written.
#[test]
fn page_past_the_memory(rt: HostRuntime) {
    let mut memory = [7u8; 8192];
    put_fresh_header(&mut memory, 1);
    assert_eq!(rt; word_or_zero(&memory, 1, Word::RspEvent), 1);
    put_word(&mut memory, 1, Word::RspProd, 0x0102_0304);
    assert_eq!(rt; word_or_zero(&memory, 1, Word::RspProd), 0x0102_0304);
    put_word(&mut memory, 2, Word::ReqProd, 5);
    assert_eq!(rt; word_or_zero(&memory, 2, Word::ReqProd), 0);
    assert_eq!(rt; memory.get(4095).copied(), Some(7));
}
