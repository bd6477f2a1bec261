//! What a take answers.
use crate::rows::AllHeld;
use slot_words::Lease;
use thiserror::Error;

/// A slot that was taken, and whether its take flushed before it won it.
#[derive(Drop)]
pub struct Taken<V> {
    pub lease: Lease<V>,
    pub flushed: bool,
}

/// Each slot of the pool is held.
#[derive(Debug, Drop, Error)]
#[error("each slot is held")]
pub struct Full;

impl From<AllHeld> for Full {
    fn from(_held: AllHeld) -> Full {
        Full
    }
}
