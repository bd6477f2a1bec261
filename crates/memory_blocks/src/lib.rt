//! A memory's blocks, each with a mark, and what stays outside the marked ones.
#![tactic(auto)]

pub mod laws;
mod marks;
mod searching;

pub use marks::Marks;
