// Indices, slots and numbers, by hand.
use abi::{Errno, GrantEntry, GrantStatus, HouseStatus, Kind, advance, distance};

// From, to, and the steps between: within a turn, none, and across the wrap of 4,294,967,296 indices.
const DISTANCES: [(u32, u32, u32); 6] = [
    (2, 5, 3),
    (7, 7, 0),
    (4_294_967_295, 2, 3),
    (4_294_967_280, 16, 32),
    (0, 4_294_967_295, 4_294_967_295),
    (1, 0, 4_294_967_295),
];

#[test]
fn distances(rt: HostRuntime) {
    for (from, to, steps) in DISTANCES {
        assert_eq!(rt; distance(from, to), steps);
        assert_eq!(rt; advance(from, steps), to);
    }
}

// 64 + slot * size: 64 + 31 * 112 = 3536, 64 + 255 * 12 = 3124, 64 + 255 * 8 = 2104; index 32 of a block ring is slot 0 again.
const STARTS: [(Kind, u32, u32, usize); 7] = [
    (Kind::Block, 0, 0, 64),
    (Kind::Block, 31, 31, 3536),
    (Kind::Block, 32, 0, 64),
    (Kind::Block, 4_294_967_295, 31, 3536),
    (Kind::Send, 255, 255, 3124),
    (Kind::Send, 4_294_967_294, 254, 3112),
    (Kind::Receive, 511, 255, 2104),
];

#[test]
fn starts(rt: HostRuntime) {
    for (kind, index, slot, start) in STARTS {
        assert_eq!(rt; kind.slot(index), slot);
        assert_eq!(rt; kind.slot_start(index), start);
    }
}

// Flags and what they say: permits access, read only, reading, writing.
const FLAGS: [(u16, bool, bool, bool, bool); 7] = [
    (0, false, false, false, false),
    (1, true, false, false, false),
    (2, false, false, false, false),
    (5, true, true, false, false),
    (9, true, false, true, false),
    (25, true, false, true, true),
    (65_535, false, true, true, true),
];

#[test]
fn flags(rt: HostRuntime) {
    for (flags, permits, read_only, reading, writing) in FLAGS {
        let e = GrantEntry {
            flags,
            ..GrantEntry::default()
        };
        assert_eq!(rt; e.permits_access(), permits, "{}", flags);
        assert_eq!(rt; e.is_read_only(), read_only, "{}", flags);
        assert_eq!(rt; e.is_reading(), reading, "{}", flags);
        assert_eq!(rt; e.is_writing(), writing, "{}", flags);
    }
}

// The numbers as grant_table.h and errno.h write them, and our own two.
#[test]
fn numbers(rt: HostRuntime) {
    assert_eq!(rt; GrantStatus::GeneralError.number(), -1);
    assert_eq!(rt; GrantStatus::BadDomain.number(), -2);
    assert_eq!(rt; GrantStatus::BadGntref.number(), -3);
    assert_eq!(rt; GrantStatus::BadHandle.number(), -4);
    assert_eq!(rt; GrantStatus::BadVirtAddr.number(), -5);
    assert_eq!(rt; GrantStatus::BadDevAddr.number(), -6);
    assert_eq!(rt; GrantStatus::NoDeviceSpace.number(), -7);
    assert_eq!(rt; GrantStatus::PermissionDenied.number(), -8);
    assert_eq!(rt; GrantStatus::BadPage.number(), -9);
    assert_eq!(rt; Errno::Einval.number(), -22);
    assert_eq!(rt; Errno::Enospc.number(), -28);
    assert_eq!(rt; HouseStatus::Busy.number(), -41);
    assert_eq!(rt; HouseStatus::BadRingIndex.number(), -42);
}
