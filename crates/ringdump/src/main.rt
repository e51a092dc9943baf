// ringdump KIND FILE: prints the header of a ring page and every request that is not yet answered.
#![tactic(auto)]

mod arguments;
mod failure;

use abi::{Kind, PAGE_SIZE};
use arguments::{Command, parse};
use failure::Failure;
use listing::dump_page;
use std::process::ExitCode;
use std::{env, fs};

const USAGE: &str = "usage: ringdump KIND FILE
Prints the header of a ring page and every request on it that is not yet answered.
KIND is block, send or receive; FILE holds one page of 4096 bytes.";

fn list(rt: &HostRuntime, kind: Kind, path: &str) -> Result<(), Failure> {
    let bytes = fs::read(rt, path).try_map_err(|error| {
        let path = String::from_str(rt.alloc(), path)?;
        Ok(Failure::Unreadable(path, error))
    })?;
    let page = <&[u8; PAGE_SIZE]>::try_from(bytes.as_slice()).try_map_err(|_| {
        let path = String::from_str(rt.alloc(), path)?;
        Ok(Failure::NotAPage(path, bytes.len()))
    })?;
    Ok(dump_page(rt, kind, page)?)
}

fn run(rt: &HostRuntime) -> Result<(), Failure> {
    let words: Vec<String> = env::args(rt)?.skip(1).collect(rt.alloc())?;
    match parse(words.as_slice())? {
        Command::Help => Ok(println!(rt; "{USAGE}")?),
        Command::List(kind, path) => list(rt, kind, path),
    }
}

fn main(rt: HostRuntime) -> ExitCode {
    match run(&rt) {
        Ok(()) => ExitCode::SUCCESS,
        Err(failure) => {
            let _ = eprintln!(rt; "ringdump: {failure}");
            ExitCode::FAILURE
        }
    }
}
