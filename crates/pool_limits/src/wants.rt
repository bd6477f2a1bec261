//! What tenants want of the slots that are not the lane's.
ghost use Rattle.std.specs.Prelude.{◌≡◌};
ghost use Rattle.pool_limits.specs.Plans.{amount, empty_part};

use thiserror::Error;

/// The most tenants that may want a share. Tenant 0, which has the rest, is one more.
pub const MOST_TENANTS: usize = 15;

/// So many slots of each kind, and so many slots of the memories, and of the tables, that may be warm while no call has them.
#[derive(Clone, Copy, Debug, PartialEq, Eq)]
pub struct Want {
    pub instances: u32,
    pub memories: u32,
    pub tables: u32,
    pub warm: u32,
}

/// One of the numbers of a share.
#[derive(Clone, Copy, Debug, PartialEq, Eq)]
pub enum Part {
    Instance,
    Memory,
    Table,
    Warm,
}

/// Why tenants can't have what they want.
#[derive(Clone, Copy, Debug, PartialEq, Eq, Error)]
pub enum PlanFault {
    /// There are more than [`MOST_TENANTS`].
    #[error("{count} tenants are too many")]
    TooManyTenants { count: usize },
    /// A tenant, of 1, 2, .., wants no slot of a kind.
    #[error("tenant {tenant} wants no slot: {kind:?}")]
    BadShare { tenant: usize, kind: Part },
    /// They want so much together that less than two slots of a kind are left, or more warm slots than the configuration has.
    #[error("{kind:?}: {sum} is too much of {total}")]
    Over { kind: Part, sum: u64, total: u32 },
    /// Memory was refused.
    #[error("out of memory")]
    NoMemory,
}

impl Want {
    /// How much it has of a part. Takes no memory.
    pub fn amount(&self, part: Part) -> u32
        ensures { result ≡ amount part self.now }
    {
        match part {
            Part::Instance => self.instances,
            Part::Memory => self.memories,
            Part::Table => self.tables,
            Part::Warm => self.warm,
        }
    }

    // The first kind of slot of which it has none.
    pub(crate) fn empty_part(&self) -> Option<Part>
        ensures { result ≡ empty_part self.now }
    {
        if self.instances == 0 {
            Some(Part::Instance)
        } else if self.memories == 0 {
            Some(Part::Memory)
        } else if self.tables == 0 {
            Some(Part::Table)
        } else {
            None
        }
    }
}
