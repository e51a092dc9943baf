// Examples of ring pages that are read and written without a refusal, and of back ends, worked out by hand.
#![tactic(auto)]

#[cfg(test)]
mod backends;
#[cfg(test)]
mod pages;
