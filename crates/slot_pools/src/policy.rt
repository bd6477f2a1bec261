//! How the slots of a pool are taken.

/// How a slot is taken: by what it reads first, and by what it does before the last claims.
#[derive(Clone, Copy, Debug, PartialEq, Eq)]
pub enum Policy {
    /// For the module of this tag, out of slots that may await their decommit: by a look, and in the end after a flush.
    Batched(u32),
    /// For the module of this tag, out of slots of which none awaits: by a look.
    Affine(u32),
    /// For any module: by a scan.
    Any,
}

impl Policy {
    ghost use Rattle.std.specs.Prelude.{◌≡◌};
    ghost use Rattle.slot_pools.specs.Wins.{flushes_last};

    // Whether slots may await, so that a flush comes before the last claims.
    pub(crate) fn flushes_last(self) -> bool
        ensures { result ≡ flushes_last self }
    {
        match self {
            Policy::Batched(_) => true,
            Policy::Affine(_) | Policy::Any => false,
        }
    }
}
