// Lists the pages under data/ by ringdump's own code, since the gate runs a program only once.
#![tactic(auto)]

use abi::{Kind, PAGE_SIZE};
use anyhow::Context;
use listing::{DumpFault, dump_page};
use std::fs;

fn list(rt: &HostRuntime, kind: Kind, path: &str) -> anyhow::Result<()> {
    let bytes = fs::read(rt, path)?;
    let page = <&[u8; PAGE_SIZE]>::try_from(bytes.as_slice())
        .ok()
        .context("not a page")?;
    match dump_page(rt, kind, page) {
        Ok(()) => Ok(()),
        Err(DumpFault::Output(error)) => Err(error.into()),
        // A page that is refused is a case too: after its header stands the refusal.
        Err(DumpFault::Refused(overrun)) => Ok(println!(rt; "refused: {overrun}")?),
    }
}

fn main(rt: HostRuntime) -> anyhow::Result<()> {
    list(&rt, Kind::Block, "block.page")?;
    list(&rt, Kind::Block, "block-full.page")?;
    list(&rt, Kind::Send, "send.page")?;
    list(&rt, Kind::Receive, "receive.page")?;
    // Its header claims 33 requests from index 7 on, one more than a block ring holds.
    list(&rt, Kind::Block, "overrun.page")
}
