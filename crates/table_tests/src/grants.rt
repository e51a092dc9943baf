// Maps and unmaps of one frame: domain 1 owns frame 3 and grants it to domain 2.
use abi::GrantEntry;
use frame::{Domain, Frames};
use grant::{GrantFault, Grants, Mode, Reference};
use std::test::Fail;

fn entry(flags: u16, domid: u16, frame: u32) -> GrantEntry {
    GrantEntry {
        flags,
        domid,
        frame,
    }
}

// The frames of a host, of which domain 1 owns frame 3.
fn owned_by(one: Domain) -> Frames {
    let mut frames = Frames::new(8);
    frames.settle(one, 3);
    frames
}

// The number of the refusal of domain 2's map of an entry of domain 1, or 0 where it may.
fn verdict(grants: &Grants, frames: &Frames, two: Domain, reference: u32, mode: u32) -> i32 {
    grants
        .may_map(frames, two, 1, reference, mode)
        .err()
        .map_or(0, |fault| fault.number())
}

// Domain 2 maps entry 0 of domain 1, and gets this handle.
fn map(grants: &mut Grants, frames: &Frames, two: Domain, mode: u32) -> Result<u8, GrantFault> {
    let granted = grants.may_map(frames, two, 1, 0, mode)?;
    grants.pin(two, granted);
    Ok(granted.handle)
}

#[test]
fn numbers(rt: HostRuntime) -> Result<(), Fail> {
    assert_eq!(rt; Reference::try_from(31)?.number, 31);
    assert_eq!(rt; Reference::try_from(32), Err(GrantFault::NoReference));
    let modes = [Mode::try_from(0), Mode::try_from(1), Mode::try_from(2)];
    assert_eq!(rt;
        modes,
        [Ok(Mode::Read), Ok(Mode::Write), Err(GrantFault::BadMode)]
    );
    Ok(())
}

#[test]
fn refusals(rt: HostRuntime) -> Result<(), Fail> {
    let one = Domain::try_from(1)?;
    let two = Domain::try_from(2)?;
    let frames = owned_by(one);
    let mut grants = Grants::new();
    let reference = Grants::may_write(5)?;
    assert!(rt; Grants::may_write(32).is_err());
    let nothing = verdict(&grants, &frames, two, 5, 0);
    grants.write_entry(one, reference, entry(1, 3, 3));
    let to_another = verdict(&grants, &frames, two, 5, 0);
    grants.write_entry(one, reference, entry(1, 2, 4));
    let of_another = verdict(&grants, &frames, two, 5, 0);
    assert_eq!(rt; [nothing, to_another, of_another], [-1, -1, -9]);
    // granted for reading only
    grants.write_entry(one, reference, entry(5, 2, 3));
    let answers = [
        verdict(&grants, &frames, two, 5, 0),
        verdict(&grants, &frames, two, 5, 1),
        verdict(&grants, &frames, two, 32, 1),
        verdict(&grants, &frames, two, 5, 2),
        verdict(&grants, &frames, one, 5, 0),
    ];
    assert_eq!(rt; answers, [0, -8, -3, -22, -2]);
    Ok(())
}

// A read map and a write map: flags 1, then 9, then 25. The owner rewrites its entry and withdraws it: the pins stay, and
// go one by one; 16 goes with the writer.
#[test]
fn pins_outlive_the_entry(rt: HostRuntime) -> Result<(), Fail> {
    let one = Domain::try_from(1)?;
    let two = Domain::try_from(2)?;
    let frames = owned_by(one);
    let mut grants = Grants::new();
    let reference = Grants::may_write(0)?;
    grants.write_entry(one, reference, entry(1, 2, 3));
    let read = map(&mut grants, &frames, two, 0)?;
    let reading = grants.entry(one, reference).flags;
    let write = map(&mut grants, &frames, two, 1)?;
    let writing = grants.entry(one, reference).flags;
    assert_eq!(rt; [read, write], [0, 1]);
    assert_eq!(rt; [reading, writing], [9, 25]);
    let ends = grants.may_end(one, 0).is_ok();
    let both = (grants.pins(3), grants.writes_frame(two, 3));
    grants.write_entry(one, reference, entry(0, 0, 0));
    let withdrawn = (grants.pins(3), grants.writes_frame(two, 3));
    grants.unpin(two, 1);
    let read_only = (grants.pins(3), grants.writes_frame(two, 3));
    assert_eq!(rt;
        [both, withdrawn, read_only],
        [(2, true), (2, true), (1, false)]
    );
    let maps = grants.maps_frame(two, 3);
    grants.unpin(two, 0);
    assert_eq!(rt; grants.pins(3), 0);
    let unmaps = grants.may_unmap(two, 0).is_ok();
    assert_eq!(rt; [ends, maps, unmaps], [false, true, false]);
    Ok(())
}

// Two read maps: flags 1, then 9, and two pins. One unmapped leaves flags 9 and a pin; both unmapped, flags 1 and none.
#[test]
fn two_readers(rt: HostRuntime) -> Result<(), Fail> {
    let one = Domain::try_from(1)?;
    let two = Domain::try_from(2)?;
    let frames = owned_by(one);
    let mut grants = Grants::new();
    let reference = Grants::may_write(0)?;
    grants.write_entry(one, reference, entry(1, 2, 3));
    let first = map(&mut grants, &frames, two, 0)?;
    let second = map(&mut grants, &frames, two, 0)?;
    let both = (grants.entry(one, reference).flags, grants.pins(3));
    grants.unpin(two, u32::from(first));
    let one_left = (grants.entry(one, reference).flags, grants.pins(3));
    grants.unpin(two, u32::from(second));
    let none = (grants.entry(one, reference).flags, grants.pins(3));
    assert_eq!(rt; [both, one_left, none], [(9, 2), (9, 1), (1, 0)]);
    Ok(())
}
