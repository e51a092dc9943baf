// What a device is asked to do.

/// Which way the bytes go.
#[derive(Clone, Copy, Debug, Default, PartialEq, Eq)]
pub enum Direction {
    /// From the device into memory.
    #[default]
    Inward,
    /// From memory to the device.
    Outward,
}

/// A piece of work that a device takes in hand.
#[derive(Clone, Copy, Debug, Default, PartialEq, Eq)]
pub struct Order {
    /// The name under which the caller speaks of the order.
    pub ticket: u8,
    pub direction: Direction,
    /// Where on the device, in units of its own.
    pub place: u64,
    /// How many bytes.
    pub length: u32,
}
