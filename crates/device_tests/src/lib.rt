// Examples of the line, the disk, the wire and handing on parts, worked out by hand.
#![tactic(auto)]

#[cfg(test)]
mod line;
#[cfg(test)]
mod parts;
#[cfg(test)]
mod wires;
