//! Slots of each kind.

/// So many slots of each kind.
#[derive(Clone, Copy, Debug, PartialEq, Eq)]
pub struct Share {
    pub instances: u32,
    pub memories: u32,
    pub tables: u32,
}
