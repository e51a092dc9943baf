// The wire.
use device::{Device, Direction, Order};
use wire::{Packet, Wire};

fn order(ticket: u8, direction: Direction) -> Order {
    let length = match direction {
        Direction::Inward => 4096,
        Direction::Outward => 4,
    };
    Order {
        ticket,
        direction,
        place: 0,
        length,
    }
}

// An inward order and an outward one wait in turn. Nothing waits at first, so the outward order is ready, though it came
// second; once it is done a packet waits, and the inward order is ready. The packet 1 2 3 4 is shorter than the 4,096
// bytes of its order: zeros follow it, and the status is its length.
#[test]
fn both_directions_in_turn(rt: HostRuntime) {
    let mut slots = [Packet::new(); 8];
    let mut wire = Wire::new(&mut slots);
    assert!(rt; wire.accept(order(1, Direction::Inward)).is_ok());
    assert!(rt; wire.accept(order(2, Direction::Outward)).is_ok());
    assert_eq!(rt; wire.ready(), Some(2));
    assert!(rt; wire.drain(2, 0, &[1, 2, 3, 4]).is_ok());
    assert_eq!(rt; wire.done(2), Ok(0));
    assert_eq!(rt; wire.ready(), Some(1));
    let mut part = [9u8; 6];
    assert!(rt; wire.fill(1, 0, &mut part).is_ok());
    assert_eq!(rt; part, [1, 2, 3, 4, 0, 0]);
    assert_eq!(rt; wire.done(1), Ok(4));
    assert_eq!(rt; wire.ready(), None);
}

// Eight packets are all that wait: the ninth outward order is in hand and not ready until one is taken.
#[test]
fn eight_packets_wait(rt: HostRuntime) {
    let mut slots = [Packet::new(); 8];
    let mut wire = Wire::new(&mut slots);
    for ticket in 0..8u8 {
        assert!(rt; wire.accept(order(ticket, Direction::Outward)).is_ok());
        assert!(rt; wire.done(ticket).is_ok());
    }
    assert!(rt; wire.accept(order(8, Direction::Outward)).is_ok());
    assert_eq!(rt; wire.ready(), None);
    assert!(rt; wire.accept(order(9, Direction::Inward)).is_ok());
    assert_eq!(rt; wire.ready(), Some(9));
    assert!(rt; wire.done(9).is_ok());
    assert_eq!(rt; wire.ready(), Some(8));
}
