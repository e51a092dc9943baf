// Parts of a memory, handed to a disk.
use device::{Device, Direction, Order, Part, drain_parts, fill_parts};
use disk::Disk;

// A disk of two sectors whose bytes are 1 up to byte 511 and 2 from byte 512 on.
fn fill_sectors(memory: &mut [u8; 1024]) {
    memory[..512].fill(1);
    memory[512..].fill(2);
}

// An order of 1,024 bytes inward. Three bytes of the order go to byte 5 of the memory, the next 510 to bytes 10 to 519:
// these are the order's bytes 3 to 512, so that the last of them is the second sector's first.
#[test]
fn filled_in_turn(rt: HostRuntime) {
    let mut sectors = [0u8; 1024];
    fill_sectors(&mut sectors);
    let mut slots = [Order::default(); 4];
    let mut disk = Disk::new(&mut sectors, &mut slots);
    assert!(rt;
        disk.accept(Order {
            ticket: 3,
            direction: Direction::Inward,
            place: 0,
            length: 1024,
        })
        .is_ok()
    );
    let mut memory = [9u8; 600];
    let parts = [
        Part {
            start: 5,
            length: 3,
        },
        Part {
            start: 10,
            length: 510,
        },
    ];
    assert!(rt; fill_parts(&mut disk, 3, 0, &mut memory, &parts).is_ok());
    let places: [(usize, u8); 8] = [
        (4, 9),
        (5, 1),
        (7, 1),
        (8, 9),
        (9, 9),
        (10, 1),
        (518, 1),
        (519, 2),
    ];
    for (place, byte) in places {
        assert_eq!(rt; memory.get(place).copied(), Some(byte), "{}", place);
    }
    assert_eq!(rt; memory.get(520).copied(), Some(9));
}

// The second part passes the order's end, 512 bytes: it is refused with -6, and the first stays filled.
#[test]
fn fault_in_the_middle(rt: HostRuntime) {
    let mut sectors = [0u8; 1024];
    fill_sectors(&mut sectors);
    let mut slots = [Order::default(); 4];
    let mut disk = Disk::new(&mut sectors, &mut slots);
    assert!(rt;
        disk.accept(Order {
            ticket: 3,
            direction: Direction::Inward,
            place: 1,
            length: 512,
        })
        .is_ok()
    );
    let mut memory = [9u8; 600];
    let parts = [
        Part {
            start: 0,
            length: 2,
        },
        Part {
            start: 2,
            length: 511,
        },
        Part {
            start: 4,
            length: 1,
        },
    ];
    let filled = fill_parts(&mut disk, 3, 0, &mut memory, &parts);
    assert_eq!(rt; filled.map_err(|fault| fault.number()), Err(-6));
    assert_eq!(rt; memory.get(0).copied(), Some(2));
    assert_eq!(rt; memory.get(1).copied(), Some(2));
    assert_eq!(rt; memory.get(2).copied(), Some(9));
    assert_eq!(rt; memory.get(4).copied(), Some(9));
}

// A part that does not lie inside the memory is refused with -6 before the disk is asked; what was drained stays.
#[test]
fn drained_in_turn(rt: HostRuntime) {
    let mut sectors = [0u8; 512];
    let mut slots = [Order::default(); 4];
    let mut disk = Disk::new(&mut sectors, &mut slots);
    assert!(rt;
        disk.accept(Order {
            ticket: 0,
            direction: Direction::Outward,
            place: 0,
            length: 512,
        })
        .is_ok()
    );
    let memory = [10u8, 11, 12, 13];
    let parts = [
        Part {
            start: 2,
            length: 2,
        },
        Part {
            start: 3,
            length: 2,
        },
    ];
    let drained = drain_parts(&mut disk, 0, 0, &memory, &parts);
    assert_eq!(rt; drained.map_err(|fault| fault.number()), Err(-6));
    assert!(rt; disk.done(0).is_ok());
    assert!(rt;
        disk.accept(Order {
            ticket: 0,
            direction: Direction::Inward,
            place: 0,
            length: 512,
        })
        .is_ok()
    );
    let mut back = [9u8; 4];
    assert!(rt; disk.fill(0, 0, &mut back).is_ok());
    assert_eq!(rt; back, [12, 13, 0, 0]);
}
