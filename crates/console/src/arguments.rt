// The command line: a script comes on standard input, so that only the usage can be asked for.
ghost use Rattle.console.specs.Usage.{UsageWanted};

use thiserror::Error;

/// Arguments that are not --help alone.
#[derive(Clone, Copy, Debug, Error)]
#[error("expected no arguments, or --help; the script is read from standard input")]
pub struct Arguments;

/// Whether the usage is asked for, by --help alone; no arguments ask for a run.
pub fn wants_usage(first: Option<&str>, second: Option<&str>) -> Result<bool, Arguments>
    ensures { UsageWanted first.entry second.entry result }
{
    match (first, second) {
        (None, _) => Ok(false),
        (Some("--help"), None) => Ok(true),
        (Some(_), _) => Err(Arguments),
    }
}
