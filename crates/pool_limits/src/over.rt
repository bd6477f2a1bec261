//! What a module asks for past a limit.
use thiserror::Error;

/// The most globals that a module may have.
pub const MOST_GLOBALS: u32 = 1_024;

/// What a module asks for: pages of memory, elements of a table, globals, or the frame of a function by its index.
#[derive(Clone, Copy, Debug, PartialEq, Eq)]
pub enum Measure {
    Pages,
    Elements,
    Globals,
    Frame(usize),
}

/// A module asks for more than the limit allows. Pages have 65,536 bytes; a frame's entries are operands, locals and labels.
#[derive(Clone, Copy, Debug, PartialEq, Eq, Error)]
#[error("{which:?}: {value} is past the limit of {limit}")]
pub struct Over {
    pub which: Measure,
    pub value: u64,
    pub limit: u64,
}
