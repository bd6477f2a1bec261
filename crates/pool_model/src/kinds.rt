//! The kinds of slots.

/// A kind of slot. Each has a pool of its own.
#[derive(Clone, Copy, Debug, PartialEq, Eq)]
pub enum Kind {
    /// What every instance has: its globals, and the stacks of its run.
    Instance,
    Memory,
    Table,
}
