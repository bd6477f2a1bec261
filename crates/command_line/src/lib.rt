//! The command line of `poolhost`: its words as a command, read by `clap`. It is `run`, with eleven
//! numbers and a flag, or `make`, with two numbers.
//!
//! Words are refused exactly where `clap` finds a fault in them, a call for help among them, or
//! where there are several workers and a total of 1. Signs and leading zeros are as `clap` reads
//! them.
#![tactic(auto)]

mod numbers;
mod syntax;
mod words;

pub use words::{Command, WordsFault, read_command};
