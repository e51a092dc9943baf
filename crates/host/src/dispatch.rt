// Any call, by its value.
ghost use Rattle.event.specs.Pending.{pick};
ghost use Rattle.law.specs.Run.{Kept};
ghost use Rattle.host.specs.Calls.{call_of, reply_of, fills, Filled};
ghost use Rattle.host.specs.View.{seen};

use crate::call::Call;
use crate::state::Host;
use answer::{Answer, HostFault};
use device::Device;
use frame::FRAME_SIZE;

impl Host {
    /// Makes one call. A load fills the front of the buffer; nothing else of it is touched.
    pub fn call<B: Device, N: Device>(
        &mut self,
        memory: &mut [u8],
        block: &mut B,
        net: &mut N,
        call: &Call,
        buffer: &mut [u8; FRAME_SIZE],
    ) -> Result<Answer, HostFault>
        ensures step { Kept B.Device.rules N.Device.rules pick
            (seen self.old memory.old (B.Device.meaning block.old) (N.Device.meaning net.old))
            (call_of call.now) (reply_of call.now result buffer.new)
            (seen self.new memory.new (B.Device.meaning block.new) (N.Device.meaning net.new)) }
        ensures filled { Filled (fills call.now) result buffer.old buffer.new }
    {
        match *call {
            Call::Take { caller, frame } => self.take(memory, block, net, caller, frame),
            Call::Give { caller, frame } => self.give(memory, block, net, caller, frame),
            Call::Load {
                caller,
                frame,
                offset,
                length,
            } => {
                if length as usize > FRAME_SIZE {
                    // More than a frame is refused, and alike at any length: one byte more stands for all.
                    let past = &mut [0u8; FRAME_SIZE + 1];
                    return self.load(memory, block, net, caller, frame, offset, past);
                }
                let front = &mut buffer[0..length as usize];
                self.load(memory, block, net, caller, frame, offset, front)
            }
            Call::Store {
                caller,
                frame,
                offset,
                bytes,
            } => self.store(memory, block, net, caller, frame, offset, bytes),
            Call::Entry {
                caller,
                reference,
                flags,
                domid,
                frame,
            } => self.entry(memory, block, net, caller, reference, flags, domid, frame),
            Call::End { caller, reference } => self.end(memory, block, net, caller, reference),
            Call::Map {
                caller,
                owner,
                reference,
                mode,
            } => self.map(memory, block, net, caller, owner, reference, mode),
            Call::Unmap { caller, handle } => self.unmap(memory, block, net, caller, handle),
            Call::Send { caller, port } => self.send(memory, block, net, caller, port),
            Call::Next { caller } => self.next(memory, block, net, caller),
            Call::Connect {
                caller,
                kind,
                reference,
            } => self.connect(memory, block, net, caller, kind, reference),
            Call::Serve { connection } => self.serve(memory, block, net, connection),
            Call::Complete { bay } => self.complete(memory, block, net, bay),
            Call::Disconnect { connection } => self.disconnect(memory, block, net, connection),
        }
    }
}
