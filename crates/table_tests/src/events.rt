// Pending ports.
use event::{EventFault, Events, Port};
use frame::Domain;
use std::test::Fail;

// Ports 2 and 5 of domain 1 are marked: one of them is picked, and once both are dropped none is.
#[test]
fn picks(rt: HostRuntime) -> Result<(), Fail> {
    let one = Domain::try_from(1)?;
    let zero = Domain::try_from(0)?;
    let two = Port::try_from(2)?;
    let five = Port::try_from(5)?;
    assert_eq!(rt; Port::try_from(32), Err(EventFault::BadPort));
    let mut events = Events::new();
    let fresh = events.pick(one);
    events.mark(one, two);
    events.mark(one, five);
    events.mark(one, five);
    let elsewhere = events.pick(zero);
    let picked = events.pick(one).ok_or("two ports are pending")?;
    assert!(rt; picked == two || picked == five);
    events.drop_mark(one, two);
    let left = events.pick(one);
    events.drop_mark(one, five);
    let dropped = events.pick(one);
    assert_eq!(rt;
        [fresh, elsewhere, left, dropped],
        [None, None, Some(five), None]
    );
    Ok(())
}
