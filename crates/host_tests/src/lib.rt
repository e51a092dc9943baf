// Whole runs of the host, worked out by hand.
#![tactic(auto)]

#[cfg(test)]
mod runs;
