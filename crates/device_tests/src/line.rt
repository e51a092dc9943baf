// The line over lent slots.
use queue::Queue;

// Three slots. 1, 2, 3 fill them; a fourth is refused. 1 and 2 leave, so 4 and 5 take their slots: the slots then hold
// 4, 5, 3, and the line from the oldest on 3, 4, 5.
#[test]
fn wraps(rt: HostRuntime) {
    let mut slots = [0u32; 3];
    let mut line = Queue::new(&mut slots);
    assert!(rt; line.push(1).is_ok());
    assert!(rt; line.push(2).is_ok());
    assert!(rt; line.push(3).is_ok());
    assert!(rt; line.is_full());
    assert!(rt; line.push(9).is_err());
    assert_eq!(rt; line.pop(), Some(1));
    assert_eq!(rt; line.pop(), Some(2));
    assert!(rt; line.push(4).is_ok());
    assert!(rt; line.push_from(&5).is_ok());
    assert_eq!(rt; line.get(0), Some(3));
    assert_eq!(rt; line.get(1), Some(4));
    assert_eq!(rt; line.get(2), Some(5));
    assert_eq!(rt; line.get(3), None);
    assert_eq!(rt; line.front_index(), Some(2));
    assert_eq!(rt; line.pop(), Some(3));
    assert_eq!(rt; line.pop(), Some(4));
    assert_eq!(rt; line.pop(), Some(5));
    assert_eq!(rt; line.pop(), None);
}

// A line over no slots is full and empty at once.
#[test]
fn no_slots(rt: HostRuntime) {
    let mut slots = [0u8; 0];
    let mut line = Queue::new(&mut slots);
    assert!(rt; line.is_full());
    assert!(rt; line.push(1).is_err());
    assert_eq!(rt; line.front(), None);
}
