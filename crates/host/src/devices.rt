// The calls that a device has part in. The whole machine is lent to each.
ghost use Rattle.std.specs.Prelude.{◌≡◌};
ghost use Rattle.rules.specs.Refusal.{passed};
ghost use Rattle.event.specs.Pending.{pick};
ghost use Rattle.connection.specs.Tables.{connection_at};
ghost use Rattle.answer.specs.declared.fault.HostFault.TheVariants.{OfRing};
ghost use Rattle.law.specs.Call.{Serve, Complete};
ghost use Rattle.law.specs.Run.{Kept};
ghost use Rattle.law.specs.Step.{told, serving_bay};
ghost use Rattle.host.specs.View.{seen};

use crate::state::Host;
use answer::{Answer, HostFault};
use connection::{Bay, Rings, bay_of};
use device::Device;
use ring::RingFault;
use table_calls::callers::fitting;

// A back end's answer, as the host passes it up.
fn passed_up(answer: Result<Answer, RingFault>) -> Result<Answer, HostFault>
    ensures { result ≡ passed OfRing answer }
{
    Ok(answer?)
}

// The bay whose device serves the connection. Where none is live, serve refuses whatever the bay.
fn serving_bay(rings: &Rings, number: u32) -> Bay
    ensures { result ≡ serving_bay (connection_at rings.now number) }
{
    let connection = rings.connection(number);
    connection.map_or(Bay::BlockBay, |connection| bay_of(connection.kind))
}

impl Host {
    /// Domain 0 takes a request off the connection's ring, if there is one, and hands it to the device or answers it.
    pub fn serve<B: Device, N: Device>(
        &mut self,
        memory: &mut [u8],
        block: &mut B,
        net: &mut N,
        connection: u32,
    ) -> Result<Answer, HostFault>
        ensures { Kept B.Device.rules N.Device.rules pick
            (seen self.old memory.old (B.Device.meaning block.old) (N.Device.meaning net.old))
            (Serve connection) (told result)
            (seen self.new memory.new (B.Device.meaning block.new) (N.Device.meaning net.new)) }
    {
        fitting(&self.tables, memory)?;
        match serving_bay(&self.tables.rings, connection) {
            Bay::BlockBay => {
                passed_up(driver::serve(&mut self.tables, memory, block, connection))
            }
            Bay::NetBay => passed_up(driver::serve(&mut self.tables, memory, net, connection)),
        }
    }

    /// Domain 0 completes the first ready job of a bay's device: bay 0 has the block device, bay 1 the network device.
    pub fn complete<B: Device, N: Device>(
        &mut self,
        memory: &mut [u8],
        block: &mut B,
        net: &mut N,
        bay: u32,
    ) -> Result<Answer, HostFault>
        ensures { Kept B.Device.rules N.Device.rules pick
            (seen self.old memory.old (B.Device.meaning block.old) (N.Device.meaning net.old))
            (Complete bay) (told result)
            (seen self.new memory.new (B.Device.meaning block.new) (N.Device.meaning net.new)) }
    {
        fitting(&self.tables, memory)?;
        match Bay::try_from(bay).map_err(|_| RingFault::BadBay)? {
            Bay::BlockBay => {
                passed_up(driver::complete(&mut self.tables, memory, block, Bay::BlockBay))
            }
            Bay::NetBay => passed_up(driver::complete(&mut self.tables, memory, net, Bay::NetBay)),
        }
    }
}
