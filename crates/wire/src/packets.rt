// The packets that wait, and the one that is being put together.
ghost use Rattle.std.specs.Prelude.{◌≡◌, ◌+◌, ◌<◌, ◌≤◌, [], ◌∷◌, ◌++◌, length, take, drop};
ghost use Rattle.std.proofs.lemmas.List.Edits.{sets};
ghost use Rattle.wire.specs.Packet.{longest, oldest, zeros};
ghost use Rattle.wire.specs.Waiting.{waiting_of, holding_of, room_of, contents_of};

use crate::packet::{LONGEST, Packet};
use queue::Queue;

/// A line of packets, and the holding area.
#[derive(Drop)]
pub struct Packets<'a> {
    line: Queue<'a, Packet>,
    holding: Packet,
}

impl<'a> Packets<'a> {
    pub(crate) fn new(slots: &'a mut [Packet]) -> Packets<'a>
        ensures { contents_of result ≡ record { waiting = []; holding = zeros; room = length slots.old } }
    {
        let line = Queue::new(slots);
        let holding = Packet::new();
        Packets { line, holding }
    }

    /// How many packets wait.
    pub(crate) fn waiting(&self) -> usize
        ensures { result ≡ length (waiting_of self.now) }
    {
        self.line.len()
    }

    /// How many packets may wait.
    pub(crate) fn room(&self) -> usize
        ensures { result ≡ room_of self.now }
    {
        self.line.capacity()
    }

    /// The oldest packet's bytes, none where no packet waits.
    pub(crate) fn oldest(&self) -> &[u8]
        ensures is { result.now ≡ oldest (waiting_of self.now) }
        ensures bound { length result.now ≤ longest }
    {
        match self.line.front_index() {
            Some(i) => self.line.slots()[i].bytes(),
            None => &[],
        }
    }

    /// Lets the oldest packet go.
    pub(crate) fn drop_oldest(&mut self)
        ensures { contents_of self.new ≡ record (contents_of self.old) { waiting = drop 1 (waiting_of self.old) } }
    {
        self.line.discard();
    }

    /// Copies the part into the holding area, from `at` on.
    #[tactic(auto, using(device::proofs::Rows::row_written))]
    pub(crate) fn hold(&mut self, at: usize, part: &[u8])
        requires { at + length part.now ≤ longest }
        ensures { contents_of self.new ≡ record (contents_of self.old) { holding = sets (holding_of self.old) at part.now } }
    {
        let end = at + part.len();
        self.holding.bytes[at..end].copy_from_slice(part);
    }

    /// Makes a packet of the first bytes that are held, and holds zeros again.
    pub(crate) fn send(&mut self, size: u16)
        requires { length (waiting_of self.old) < room_of self.old }
        ensures { contents_of self.new ≡ record (contents_of self.old) { waiting = waiting_of self.old ++ take size (holding_of self.old) ∷ []; holding = zeros } }
    {
        self.holding.length = size;
        let _ = self.line.push_from(&self.holding);
        self.holding.bytes = [0; LONGEST];
    }
}
