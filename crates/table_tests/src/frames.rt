// Owners and the bytes of frames.
use frame::{Domain, FrameFault, Frames, NoDomain, read_part, write_part, zero_frame};
use std::test::Fail;

// The number of a refusal, or 0.
fn number(r: Result<(), FrameFault>) -> i32 {
    r.err().map_or(0, |fault| fault.number())
}

// Two frames. Domain 1 owns frame 0; frame 2 is past the end.
#[test]
fn verdicts(rt: HostRuntime) -> Result<(), Fail> {
    let one = Domain::try_from(1)?;
    let two = Domain::try_from(2)?;
    assert_eq!(rt; Domain::try_from(8), Err(NoDomain));
    let mut frames = Frames::new(2);
    let takes = [frames.may_take(2), frames.may_take(0)];
    assert_eq!(rt; takes.map(number), [-9, 0]);
    frames.settle(one, 0);
    let owned = [
        frames.may_take(0),
        frames.may_give(0, two, 0),
        frames.may_give(1, one, 0),
        frames.may_give(0, one, 0),
    ];
    assert_eq!(rt; owned.map(number), [-41, -9, -41, 0]);
    // 4,096 bytes at 0 lie in the frame, 4,095 at 2 do not; domain 2 reaches it only by a mapping
    let accesses = [
        frames.may_access(false, one, 0, 0, 4096),
        frames.may_access(false, one, 0, 2, 4095),
        frames.may_access(false, two, 0, 0, 1),
        frames.may_access(true, two, 0, 0, 1),
        frames.may_access(true, two, 2, 0, 1),
    ];
    assert_eq!(rt; accesses.map(number), [0, -5, -8, 0, -9]);
    frames.release(0);
    assert_eq!(rt; number(frames.may_take(0)), 0);
    Ok(())
}

// Frame 1 of a memory of two frames has the bytes 4,096 to 8,191.
#[test]
fn bytes(rt: HostRuntime) {
    let mut memory = [7u8; 8192];
    assert_eq!(rt; number(write_part(&mut memory, 1, 3, &[1, 2])), 0);
    let written = [memory[4098], memory[4099], memory[4100], memory[4101]];
    assert_eq!(rt; written, [7, 1, 2, 7]);
    let mut part = [0u8; 3];
    assert_eq!(rt; number(read_part(&memory, 1, 2, &mut part)), 0);
    assert_eq!(rt; part, [7, 1, 2]);
    assert_eq!(rt; number(read_part(&memory, 2, 0, &mut part)), -9);
    assert_eq!(rt; number(write_part(&mut memory, 0, 4095, &[1, 2])), -5);
    assert_eq!(rt; number(zero_frame(&mut memory, 0)), 0);
    assert_eq!(rt; [memory[4095], memory[4096]], [0, 7]);
}
