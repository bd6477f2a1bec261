//! Tests of the crates at the edge of the host: streams, the queues and the board of calls, and the words of the command. Nothing stands on this crate.
#![tactic(auto)]

#[cfg(test)]
mod ends;
#[cfg(test)]
mod queues;
#[cfg(test)]
mod texts;
#[cfg(test)]
mod words;
