// Examples of frames, grants, events, rings and requests, worked out by hand.
#![tactic(auto)]

#[cfg(test)]
mod events;
#[cfg(test)]
mod frames;
#[cfg(test)]
mod grants;
#[cfg(test)]
mod requests;
#[cfg(test)]
mod rings;
