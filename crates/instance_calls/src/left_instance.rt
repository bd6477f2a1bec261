//! Instances as their calls left them.
ghost use Rattle.std.specs.Prelude.{◌≡◌};
ghost use Rattle.instance_calls.specs.Instances.{left_by};

use crate::instance::Instance;
use instance_slots::Ticket;
use memory_slots::LeftMemory;
use module_store::Naming;
use slot_words::Lease;
use table_slots::TableSlot;

/// An instance whose call is over, until its slots are given back. Nothing writes to its memory.
#[derive(Drop)]
pub struct LeftInstance<N: Naming> {
    pub ticket: Lease<Ticket<N>>,
    pub memory: Option<LeftMemory<N>>,
    pub table: Option<Lease<TableSlot<N>>>,
}

impl<N: Naming> LeftInstance<N> {
    /// This instance, as it is. Takes no memory.
    pub fn of(instance: Instance<N>) -> LeftInstance<N>
        ensures { left_by result ≡ instance }
    {
        let Instance {
            ticket,
            memory,
            table,
        } = instance;
        LeftInstance {
            ticket,
            memory: LeftMemory::of_call(memory),
            table,
        }
    }
}
