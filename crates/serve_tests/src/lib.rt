//! Tests of whole runs that are no rows of `run_cases`: sources and sinks that fail or have small pieces, gates that count or hold calls,
//! and files that a function makes. Nothing stands on this crate.
#![tactic(auto)]

#[cfg(test)]
mod ends;
#[cfg(test)]
mod gates;
#[cfg(test)]
mod harness;
#[cfg(test)]
mod large;
#[cfg(test)]
mod meetings;
