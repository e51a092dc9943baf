// One packet.
ghost use Rattle.std.specs.Prelude.{◌≡◌, ◌≤◌, length};
ghost use Rattle.wire.specs.Packet.{longest, packet_bytes, blank};

/// The longest packet, in bytes.
pub const LONGEST: usize = 1514;

/// A packet: the first `length` of its bytes. Plain and `Copy`, as it is kept in slots that the caller lends.
#[derive(Clone, Copy)]
pub struct Packet {
    pub length: u16,
    pub bytes: [u8; LONGEST],
}

impl Packet {
    /// A packet of no bytes, for a slot that nothing was put in.
    pub fn new() -> Packet
        ensures { result ≡ blank }
    {
        Packet {
            length: 0,
            bytes: [0; LONGEST],
        }
    }

    /// The packet's bytes.
    pub(crate) fn bytes(&self) -> &[u8]
        ensures is { result.now ≡ packet_bytes self.now }
        ensures bound { length result.now ≤ longest }
    {
        let len = (self.length as usize).min(LONGEST);
        &self.bytes[..len]
    }
}
