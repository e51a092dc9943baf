// Tests of the formats against a decoder built apart: byte arithmetic of its own, over tables of fields written down from
// the layouts in docs/FORMATS.md, and none of the codecs' own helpers.
#![tactic(auto)]

#[cfg(test)]
mod apart;
#[cfg(test)]
mod messages;
#[cfg(test)]
mod numbers;
