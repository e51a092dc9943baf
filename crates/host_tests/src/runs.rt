// Runs given as tables of calls.
use answer::parts_of;
use device::Order;
use disk::Disk;
use host::{Call, run};
use std::test::Fail;
use wire::{Packet, Wire};

// A block request: operation 0 reads; one segment; id 7; sector 0; reference 1, sectors 0 to 0 of its frame.
const READ: [u8; 32] = [
    0, 1, 0, 0, 0, 0, 0, 0, 7, 0, 0, 0, 0, 0, 0, 0, 0, 0, 0, 0, 0, 0, 0, 0, 1, 0, 0, 0, 0, 0, 0, 0,
];

// Guest 1 lends its ring page, frame 0, and frame 1 to domain 0, and has a read of sector 0 into frame 1 in hand. Then
// it withdraws the entry, and tries to give the frame away.
fn story() -> [Call<'static>; 10] {
    [
        Call::Take {
            caller: 1,
            frame: 0,
        },
        Call::Take {
            caller: 1,
            frame: 1,
        },
        Call::Entry {
            caller: 1,
            reference: 0,
            flags: 1,
            domid: 0,
            frame: 0,
        },
        Call::Entry {
            caller: 1,
            reference: 1,
            flags: 1,
            domid: 0,
            frame: 1,
        },
        Call::Connect {
            caller: 1,
            kind: 0,
            reference: 0,
        },
        Call::Store {
            caller: 1,
            frame: 0,
            offset: 64,
            bytes: &READ,
        },
        Call::Store {
            caller: 1,
            frame: 0,
            offset: 0,
            bytes: &[1, 0, 0, 0],
        },
        Call::Serve { connection: 0 },
        Call::Entry {
            caller: 1,
            reference: 1,
            flags: 0,
            domid: 0,
            frame: 0,
        },
        Call::Give {
            caller: 1,
            frame: 1,
        },
    ]
}

// The read is in hand, so the frame has a pin and stays the guest's: the give of the story was refused, and so is
// another with -41. The bytes of the sector, 83 67 65 78, land in it; the response in slot 0 has the id 7; and after
// that the frame can be given away.
#[test]
fn withdrawn_while_in_hand(rt: HostRuntime) -> Result<(), Fail> {
    let mut sectors = [0u8; 1024];
    sectors[0] = 83;
    sectors[1] = 67;
    sectors[2] = 65;
    sectors[3] = 78;
    let mut slots = [Order::default(); 4];
    let mut disk = Disk::new(&mut sectors, &mut slots);
    let mut packets = [Packet::new(); 8];
    let mut wire = Wire::new(&mut packets);
    let mut memory = [0u8; 8192];
    let started = run(2, &mut memory, &mut disk, &mut wire, &story());
    let mut host = started.map_err(|_| Fail::new("start was refused"))?;
    let pinned = parts_of(host.give(&memory, &disk, &wire, 1, 1));
    assert_eq!(rt; pinned.answer, -41);
    let completed = parts_of(host.complete(&mut memory, &mut disk, &mut wire, 0));
    assert_eq!(rt; completed.answer, 1);
    let places: [(usize, u8); 6] = [
        (64, 7),
        (4095, 0),
        (4096, 83),
        (4098, 65),
        (4099, 78),
        (4100, 0),
    ];
    for (place, byte) in places {
        assert_eq!(rt; memory.get(place).copied(), Some(byte), "{}", place);
    }
    let given = parts_of(host.give(&memory, &disk, &wire, 1, 1));
    assert_eq!(rt; given.answer, 0);
    Ok(())
}
