//! Memories as calls left them.
ghost use Rattle.std.specs.Prelude.{◌≡◌, ◌<◌, true, is_some};
ghost use Rattle.pool_core.specs.declared.limits.TheConstants.{TAG_LIMIT};
ghost use Rattle.pool_model.specs.declared.kinds.Kind.TheVariants as kind;
ghost use Rattle.pool_model.specs.OwnTags.{own_tag};
ghost use Rattle.memory_slots.specs.Left.{lease_in, lease_left};

use crate::slot::MemSlot;
use module_store::Naming;
use slot_words::Lease;

/// A memory as a call left it, until it is given back. No call writes to it.
#[derive(Drop)]
pub struct LeftMemory<N: Naming> {
    lease: Lease<MemSlot<N>>,
}

impl<N: Naming> LeftMemory<N> {
    /// The memory of a call that is over. Takes no memory.
    pub fn of(lease: Lease<MemSlot<N>>) -> LeftMemory<N>
        ensures { lease_in result ≡ lease }
    {
        LeftMemory { lease }
    }

    /// That of a call whose module has one or none. Takes no memory.
    pub fn of_call(lease: Option<Lease<MemSlot<N>>>) -> Option<LeftMemory<N>>
        ensures { lease_left result ≡ lease }
    {
        match lease {
            Some(lease) => Some(LeftMemory::of(lease)),
            None => None,
        }
    }

    /// The tag of the module that it belongs to.
    pub fn module_tag(&self) -> u32
        requires { is_some (lease_in self.now).value.holds ≡ true }
        ensures is { result ≡ own_tag kind.Memory (lease_in self.now).value }
        ensures small { result < TAG_LIMIT }
    {
        self.lease.value.module_tag()
    }

    // Its lease, to be given back.
    pub(crate) fn lease(self) -> Lease<MemSlot<N>>
        ensures { result ≡ lease_in self }
    {
        self.lease
    }
}
