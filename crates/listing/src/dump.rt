// The listing of a page, printed.
ghost use Rattle.std.specs.Prelude.{◌≡◌};
ghost use Rattle.listing.specs.declared.dump.DumpFault.TheVariants.{Output, Refused};
ghost use Rattle.ringpage.specs.Header.{header_of};
ghost use Rattle.ringpage.specs.Outstanding.{outstanding_on};
ghost use Rattle.listing.specs.Dump.{Ended};

use crate::lines::{HeaderLine, RequestLines};
use abi::{Kind, PAGE_SIZE};
use ringpage::{Overrun, Request, header_of, outstanding_on};
use std::io;

/// Why a page was not listed to its end.
#[derive(Drop)]
pub enum DumpFault {
    Output(io::Error),
    Refused(Overrun),
}

impl From<io::Error> for DumpFault {
    ghost from_gives = { λ e r. r ≡ Output e };

    fn from(e: io::Error) -> DumpFault {
        DumpFault::Output(e)
    }
}

impl From<Overrun> for DumpFault {
    ghost from_gives = { λ e r. r ≡ Refused e };

    fn from(e: Overrun) -> DumpFault {
        DumpFault::Refused(e)
    }
}

/// Prints the header of a page and every request on it that is not yet answered.
pub fn dump_page(rt: &impl Print, kind: Kind, page: &[u8; PAGE_SIZE]) -> Result<(), DumpFault>
    ensures { Ended (outstanding_on kind (header_of page.now)) result }
{
    let header = header_of(page);
    println!(rt; "{}", HeaderLine { kind, header })?;
    let outstanding = outstanding_on(kind, header)?;
    for index in (0..outstanding.count).map(|k| outstanding.index(k)) {
        let lines = RequestLines {
            index,
            slot: kind.slot(index),
            request: Request::copy_from(page, kind, index),
        };
        println!(rt; "{lines}")?;
    }
    Ok(())
}
