//! The registrar of a store.
use crate::naming::Naming;
use std::marker::{Model, PhantomData};

/// How many modules any desk registers at most.
pub const MOST_MODULES: u32 = 1_048_576;

/// How many modules a desk has registered, and how many it registers at most.
#[derive(Clone, Copy, Debug)]
pub struct DeskCounts {
    pub registered: u32,
    pub most: u32,
}

/// The one registrar of a store. Contracts see its counts.
#[derive(Drop)]
pub struct Desk<N: Naming> {
    pub(crate) counts: DeskCounts,
    pub(crate) of: PhantomData<N>,
}

impl<N: Naming> Model for Desk<N> {
    ghost use Rattle.std.specs.Prelude.{◌≡◌, ◌≤◌};
    ghost use Rattle.module_store.specs.declared.desk.DeskCounts.{DeskCounts};

    ghost Value = { DeskCounts };

    ghost view = { λ d. d.counts };

    ghost invariant = { λ d. (d.counts.registered ≤ d.counts.most) × (d.counts.most ≡ N.most) };
}
