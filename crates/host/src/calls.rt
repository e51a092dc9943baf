// The calls on the tables. The whole machine is lent to each: the memory, the block device and the network device.
// Three arguments and not one struct, since each call asks for no more than it needs: a struct would ask for all of
// them exclusively.
ghost use Rattle.std.specs.Prelude.{length};
ghost use Rattle.event.specs.Pending.{pick};
ghost use Rattle.law.specs.Call.{Take, Give, Load, Store, Entry, End, Map, Unmap, Send, Next, Connect, Disconnect};
ghost use Rattle.law.specs.Run.{Kept};
ghost use Rattle.law.specs.Step.{told};
ghost use Rattle.table_calls.specs.Parts.{Untouched};
ghost use Rattle.host.specs.View.{seen, told_with};

use crate::state::Host;
use abi::GrantEntry;
use answer::{Answer, HostFault};
use device::Device;
use table_calls::{connections, events, frames, grants};

impl Host {
    /// A guest takes a frame that nobody owns; its bytes become 0.
    pub fn take<B: Device, N: Device>(
        &mut self,
        memory: &mut [u8],
        block: &B,
        net: &N,
        caller: u32,
        frame: u32,
    ) -> Result<Answer, HostFault>
        ensures { Kept B.Device.rules N.Device.rules pick
            (seen self.old memory.old (B.Device.meaning block.now) (N.Device.meaning net.now))
            (Take caller frame) (told result)
            (seen self.new memory.new (B.Device.meaning block.now) (N.Device.meaning net.now)) }
    {
        frames::take(&mut self.tables, memory, caller, frame)
    }

    /// A guest gives back a frame that it owns and nobody has mapped.
    pub fn give<B: Device, N: Device>(
        &mut self,
        memory: &[u8],
        block: &B,
        net: &N,
        caller: u32,
        frame: u32,
    ) -> Result<Answer, HostFault>
        ensures { Kept B.Device.rules N.Device.rules pick
            (seen self.old memory.now (B.Device.meaning block.now) (N.Device.meaning net.now))
            (Give caller frame) (told result)
            (seen self.new memory.now (B.Device.meaning block.now) (N.Device.meaning net.now)) }
    {
        frames::give(&mut self.tables, memory, caller, frame)
    }

    /// A guest copies a part of a frame that it owns or has mapped into the buffer; a refusal leaves that as it was.
    pub fn load<B: Device, N: Device>(
        &self,
        memory: &[u8],
        block: &B,
        net: &N,
        caller: u32,
        frame: u32,
        offset: u32,
        buffer: &mut [u8],
    ) -> Result<Answer, HostFault>
        ensures step { Kept B.Device.rules N.Device.rules pick
            (seen self.now memory.now (B.Device.meaning block.now) (N.Device.meaning net.now))
            (Load caller frame offset (length buffer.old)) (told_with result buffer.new)
            (seen self.now memory.now (B.Device.meaning block.now) (N.Device.meaning net.now)) }
        ensures untouched { Untouched result buffer.old buffer.new }
    {
        frames::load(&self.tables, memory, caller, frame, offset, buffer)
    }

    /// A guest copies bytes into a part of a frame that it owns or has mapped for writing.
    pub fn store<B: Device, N: Device>(
        &self,
        memory: &mut [u8],
        block: &B,
        net: &N,
        caller: u32,
        frame: u32,
        offset: u32,
        bytes: &[u8],
    ) -> Result<Answer, HostFault>
        ensures { Kept B.Device.rules N.Device.rules pick
            (seen self.now memory.old (B.Device.meaning block.now) (N.Device.meaning net.now))
            (Store caller frame offset bytes.now) (told result)
            (seen self.now memory.new (B.Device.meaning block.now) (N.Device.meaning net.now)) }
    {
        frames::store(&self.tables, memory, caller, frame, offset, bytes)
    }

    /// A guest writes its entry: what it grants, to whom.
    pub fn entry<B: Device, N: Device>(
        &mut self,
        memory: &[u8],
        block: &B,
        net: &N,
        caller: u32,
        reference: u32,
        flags: u16,
        domid: u16,
        frame: u32,
    ) -> Result<Answer, HostFault>
        ensures { Kept B.Device.rules N.Device.rules pick
            (seen self.old memory.now (B.Device.meaning block.now) (N.Device.meaning net.now))
            (Entry caller reference flags domid frame) (told result)
            (seen self.new memory.now (B.Device.meaning block.now) (N.Device.meaning net.now)) }
    {
        let entry = GrantEntry {
            flags,
            domid,
            frame,
        };
        grants::entry(&mut self.tables, memory, caller, reference, entry)
    }

    /// A guest ends its entry, if nobody uses that.
    pub fn end<B: Device, N: Device>(
        &mut self,
        memory: &[u8],
        block: &B,
        net: &N,
        caller: u32,
        reference: u32,
    ) -> Result<Answer, HostFault>
        ensures { Kept B.Device.rules N.Device.rules pick
            (seen self.old memory.now (B.Device.meaning block.now) (N.Device.meaning net.now))
            (End caller reference) (told result)
            (seen self.new memory.now (B.Device.meaning block.now) (N.Device.meaning net.now)) }
    {
        grants::end(&mut self.tables, memory, caller, reference)
    }

    /// A guest maps what the owner's entry grants it: mode 0 reads, mode 1 writes.
    pub fn map<B: Device, N: Device>(
        &mut self,
        memory: &[u8],
        block: &B,
        net: &N,
        caller: u32,
        owner: u32,
        reference: u32,
        mode: u32,
    ) -> Result<Answer, HostFault>
        ensures { Kept B.Device.rules N.Device.rules pick
            (seen self.old memory.now (B.Device.meaning block.now) (N.Device.meaning net.now))
            (Map caller owner reference mode) (told result)
            (seen self.new memory.now (B.Device.meaning block.now) (N.Device.meaning net.now)) }
    {
        grants::map(&mut self.tables, memory, caller, owner, reference, mode)
    }

    /// A guest ends its mapping under a handle.
    pub fn unmap<B: Device, N: Device>(
        &mut self,
        memory: &[u8],
        block: &B,
        net: &N,
        caller: u32,
        handle: u32,
    ) -> Result<Answer, HostFault>
        ensures { Kept B.Device.rules N.Device.rules pick
            (seen self.old memory.now (B.Device.meaning block.now) (N.Device.meaning net.now))
            (Unmap caller handle) (told result)
            (seen self.new memory.now (B.Device.meaning block.now) (N.Device.meaning net.now)) }
    {
        grants::unmap(&mut self.tables, memory, caller, handle)
    }

    /// A guest marks a port of its own pending at domain 0.
    pub fn send<B: Device, N: Device>(
        &mut self,
        memory: &[u8],
        block: &B,
        net: &N,
        caller: u32,
        port: u32,
    ) -> Result<Answer, HostFault>
        ensures { Kept B.Device.rules N.Device.rules pick
            (seen self.old memory.now (B.Device.meaning block.now) (N.Device.meaning net.now))
            (Send caller port) (told result)
            (seen self.new memory.now (B.Device.meaning block.now) (N.Device.meaning net.now)) }
    {
        events::send(&mut self.tables, memory, caller, port)
    }

    /// A domain takes up a pending port, or learns that there is none.
    pub fn next<B: Device, N: Device>(
        &mut self,
        memory: &[u8],
        block: &B,
        net: &N,
        caller: u32,
    ) -> Result<Answer, HostFault>
        ensures { Kept B.Device.rules N.Device.rules pick
            (seen self.old memory.now (B.Device.meaning block.now) (N.Device.meaning net.now))
            (Next caller) (told result)
            (seen self.new memory.now (B.Device.meaning block.now) (N.Device.meaning net.now)) }
    {
        events::next(&mut self.tables, memory, caller)
    }

    /// A guest offers a ring page: domain 0 maps it, and a connection is live on it.
    pub fn connect<B: Device, N: Device>(
        &mut self,
        memory: &mut [u8],
        block: &B,
        net: &N,
        caller: u32,
        kind: u32,
        reference: u32,
    ) -> Result<Answer, HostFault>
        ensures { Kept B.Device.rules N.Device.rules pick
            (seen self.old memory.old (B.Device.meaning block.now) (N.Device.meaning net.now))
            (Connect caller kind reference) (told result)
            (seen self.new memory.new (B.Device.meaning block.now) (N.Device.meaning net.now)) }
    {
        connections::connect(&mut self.tables, memory, caller, kind, reference)
    }

    /// Domain 0 ends a connection that has no jobs.
    pub fn disconnect<B: Device, N: Device>(
        &mut self,
        memory: &[u8],
        block: &B,
        net: &N,
        connection: u32,
    ) -> Result<Answer, HostFault>
        ensures { Kept B.Device.rules N.Device.rules pick
            (seen self.old memory.now (B.Device.meaning block.now) (N.Device.meaning net.now))
            (Disconnect connection) (told result)
            (seen self.new memory.now (B.Device.meaning block.now) (N.Device.meaning net.now)) }
    {
        connections::disconnect(&mut self.tables, memory, connection)
    }
}
