// scanhost: runs a host with a disk in bay 0 and the wire in bay 1 by a script on standard input, and prints each
// line with its answer.
#![tactic(auto)]

mod failure;
mod input;
mod running;
mod setup;

use console::wants_usage;
use failure::Failure;
use input::Script;
use std::env;
use std::process::ExitCode;

const USAGE: &str = "usage: scanhost < SCRIPT
Runs a host with a disk in bay 0 and the wire in bay 1 by the lines of a script, and prints each line with the four
parts of its answer: answer, layer (none, host, frame, grant, event, device or ring), detail and place. The bytes of a
load follow in hexadecimal.
  disk SECTORS     1 to 128, and 128 where the line is absent; comes before start
  start FRAMES     1 to 256; comes before any call
  take CALLER FRAME
  give CALLER FRAME
  load CALLER FRAME OFFSET LENGTH
  store CALLER FRAME OFFSET [BYTES]
  entry CALLER REFERENCE FLAGS DOMID FRAME
  end CALLER REFERENCE
  map CALLER OWNER REFERENCE MODE
  unmap CALLER HANDLE
  send CALLER PORT
  next CALLER
  connect CALLER KIND REFERENCE
  serve CONNECTION
  complete BAY
  disconnect CONNECTION
Numbers are decimal, bytes hexadecimal; a # begins a comment.";

// Prints the usage, or runs the script; `line` is then the number of the line that came last.
fn run(rt: HostRuntime, line: &mut u64) -> Result<(), Failure> {
    let mut words = env::args(&rt)?;
    let (first, second) = (words.nth(1), words.next());
    if wants_usage(first.as_deref(), second.as_deref())? {
        return Ok(println!(rt; "{USAGE}")?);
    }
    let mut script = Script::new(rt)?;
    let ran = setup::start(&mut script);
    *line = script.came;
    ran
}

fn main(rt: HostRuntime) -> ExitCode {
    let mut line = 0;
    match run(rt, &mut line) {
        Ok(()) => ExitCode::SUCCESS,
        Err(failure) => {
            let _ = match (&failure, line) {
                (Failure::System(_), _) | (_, 0) => eprintln!(rt; "scanhost: {failure}"),
                (_, n) => eprintln!(rt; "line {n}: {failure}"),
            };
            ExitCode::FAILURE
        }
    }
}
