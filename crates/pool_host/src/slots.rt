//! The slots of a call: a ticket, and a memory and a table where its module has them. They are given back in the reverse order of their
//! takes: the table, then the memory, then the ticket.
ghost use Rattle.std.specs.Prelude.{◌≡◌, ◌<◌, false, IfErr, IfOk, OnErr};
ghost use Rattle.slot_words.specs.Leases.{lease_number};
ghost use Rattle.slot_words.specs.Owned.{IsPassOf, slots_of};
ghost use Rattle.slot_words.specs.Parts.{Grew};
ghost use Rattle.slot_words.specs.Passes.{Holds, IsIdle, IsSamePass, trail};
ghost use Rattle.pool_model.specs.Contents.{Named};
ghost use Rattle.pool_model.specs.declared.kinds.Kind.TheVariants as kind;
ghost use Rattle.pool_model.specs.declared.kinds.Kind.TheVariants.{Memory, Table};
ghost use Rattle.instance_calls.specs.Instances.{HasFreshMemory, IsFreshInstance, IsFreshTable};
ghost use Rattle.instance_calls.specs.Parts.{BelongsTo, memory_slot, table_slot};
ghost use Rattle.memory_slots.specs.Left.{lease_left};
ghost use Rattle.memory_counts.specs.Counted.{IsCounted};
ghost use Rattle.pool_host.specs.Counting.{KeepsCounts};
ghost use Rattle.pool_host.specs.Hosts.{AreIdle, ArePassesOf, AreSamePasses};
ghost use Rattle.pool_host.specs.Kinds.{GaveSlot, IsGiveOf, IsTurnedAwayFrom, TookSlot};
ghost use Rattle.pool_host.specs.Leases.{HoldsSlot};
ghost use Rattle.pool_host.specs.Taking.{HaveSlots, TookSlots};
ghost use Rattle.pool_host.specs.Trails.{AddsTrails, HasCause};

use crate::answers::Answer;
use crate::host::Host;
use crate::passes::Passes;
use instance_calls::{Instance, needs_memory, needs_table};
use instance_slots::Ticket;
use memory_counts::MemoryTally;
use memory_slots::{LeftMemory, MemSlot, MemoryPool};
use module_store::{LoadedModule, ModuleStore, Naming};
use pool_model::Kind;
use slot_pools::Full;
use slot_words::{Lease, Pass};
use table_slots::{TablePool, TableSlot};

// Takes a memory for the module, if it has one, and counts that.
pub(crate) fn take_memory<N: Naming>(
    pool: &MemoryPool<N>,
    pass: &mut Pass<MemSlot<N>>,
    tally: &mut MemoryTally,
    loaded: &LoadedModule<'_, N>,
) -> Result<Option<Lease<MemSlot<N>>>, Full>
    requires own { IsPassOf pool.now pass.old }
    requires idle { IsIdle pass.old }
    ensures same { IsSamePass pass.old pass.new }
    ensures has { IfOk result (λ o. HoldsSlot (slots_of pool.now) pass.new (memory_slot o)) }
    ensures belongs { IfOk result (λ o. BelongsTo loaded.now.module.now (memory_slot o)) }
    ensures fresh { IfOk result (HasFreshMemory N.config loaded.now.module.now.tree) }
    ensures took { IfOk result (λ o. TookSlot Memory pool.now loaded.now.module.now pass.old pass.new (memory_slot o)) }
    ensures idle { OnErr result (IsIdle pass.new) }
    ensures full { OnErr result (IsTurnedAwayFrom Memory pool.now loaded.now.module.now pass.old pass.new) }
    ensures counted { IsCounted N.config.batch pass.old tally.old → IsCounted N.config.batch pass.new tally.new }
{
    if !needs_memory(loaded) {
        return Ok(None);
    }
    let lease = tally.take_for(pool, pass, loaded)?;
    Ok(Some(lease))
}

// Takes a table for the module, if it has one.
pub(crate) fn take_table<N: Naming>(
    pool: &TablePool<N>,
    pass: &mut Pass<TableSlot<N>>,
    loaded: &LoadedModule<'_, N>,
) -> Result<Option<Lease<TableSlot<N>>>, Full>
    requires own { IsPassOf pool.now pass.old }
    requires idle { IsIdle pass.old }
    ensures same { IsSamePass pass.old pass.new }
    ensures has { IfOk result (λ o. HoldsSlot (slots_of pool.now) pass.new (table_slot o)) }
    ensures belongs { IfOk result (λ o. BelongsTo loaded.now.module.now (table_slot o)) }
    ensures fresh { IfOk result (IsFreshTable loaded.now.module.now.tree) }
    ensures took { IfOk result (λ o. TookSlot Table pool.now loaded.now.module.now pass.old pass.new (table_slot o)) }
    ensures idle { OnErr result (IsIdle pass.new) }
    ensures full { OnErr result (IsTurnedAwayFrom Table pool.now loaded.now.module.now pass.old pass.new) }
{
    if !needs_table(loaded) {
        return Ok(None);
    }
    let lease = pool.take_for(pass, loaded)?;
    Ok(Some(lease))
}

// Gives back a table that belongs to a module, if there is one.
pub(crate) fn give_table<N: Naming>(
    host: &Host<N>,
    passes: &mut Passes<N>,
    store: &ModuleStore<N>,
    table: Option<Lease<TableSlot<N>>>,
)
    requires own { ArePassesOf host.now passes.old }
    requires has { HoldsSlot (slots_of host.now.tables) passes.old.table (table_slot table) }
    requires belongs { (m : Named) × BelongsTo m (table_slot table) }
    ensures same { AreSamePasses passes.old passes.new }
    ensures others { passes.new ≡ record passes.old { table = passes.new.table } }
    ensures idle { IsIdle passes.new.table }
    ensures gave { (m : Named) → BelongsTo m (table_slot table)
        → GaveSlot Table host.now.tables m N.config.batch passes.old.table passes.new.table (table_slot table) }
    ensures counted { KeepsCounts N.config.batch passes.old passes.new }
{
    if let Some(lease) = table {
        host.tables.give(&mut passes.table, lease, store);
    }
}

// Gives back a memory that belongs to a module, if there is one. The table is back.
pub(crate) fn give_memory<N: Naming>(
    host: &Host<N>,
    passes: &mut Passes<N>,
    store: &ModuleStore<N>,
    memory: Option<LeftMemory<N>>,
)
    requires own { ArePassesOf host.now passes.old }
    requires has { HoldsSlot (slots_of host.now.memories) passes.old.memory (memory_slot (lease_left memory)) }
    requires belongs { (m : Named) × BelongsTo m (memory_slot (lease_left memory)) }
    requires table { IsIdle passes.old.table }
    ensures same { AreSamePasses passes.old passes.new }
    ensures others { passes.new ≡ record passes.old { memory = passes.new.memory; tally = passes.new.tally } }
    ensures idle { IsIdle passes.new.memory }
    ensures gave { (m : Named) → BelongsTo m (memory_slot (lease_left memory))
        → GaveSlot Memory host.now.memories m N.config.batch passes.old.memory passes.new.memory (memory_slot (lease_left memory)) }
    ensures counted { KeepsCounts N.config.batch passes.old passes.new }
{
    if let Some(left) = memory {
        passes
            .tally
            .give(&host.memories, &mut passes.memory, left, store);
    }
}

// Gives back a ticket. The table and the memory are back.
pub(crate) fn give_ticket<N: Naming>(
    host: &Host<N>,
    passes: &mut Passes<N>,
    store: &ModuleStore<N>,
    ticket: Lease<Ticket<N>>,
)
    requires own { ArePassesOf host.now passes.old }
    requires holds { Holds passes.old.ticket (lease_number ticket) false false false }
    requires number { lease_number ticket < slots_of host.now.tickets }
    requires memory { IsIdle passes.old.memory }
    requires table { IsIdle passes.old.table }
    ensures same { AreSamePasses passes.old passes.new }
    ensures others { passes.new ≡ record passes.old { ticket = passes.new.ticket } }
    ensures idle { IsIdle passes.new.ticket }
    ensures gave { (m : Named) → Grew (IsGiveOf kind.Instance host.now.tickets m N.config.batch (lease_number ticket))
        (trail passes.old.ticket) (trail passes.new.ticket) }
    ensures counted { KeepsCounts N.config.batch passes.old passes.new }
{
    host.tickets.give(&mut passes.ticket, ticket, store);
}

// Takes a ticket, and a memory and a table where the module has them, in this order, as a fresh instance of the module. Where a
// kind is full, what was taken is given back.
pub(crate) fn take_slots<N: Naming>(
    host: &Host<N>,
    passes: &mut Passes<N>,
    loaded: &LoadedModule<'_, N>,
) -> Result<Instance<N>, Kind>
    requires own { ArePassesOf host.now passes.old }
    requires idle { AreIdle passes.old }
    ensures same { AreSamePasses passes.old passes.new }
    ensures have { IfOk result (HaveSlots host.now loaded.now.module.now passes.new) }
    ensures fresh { IfOk result (IsFreshInstance N.config loaded.now.module.now.tree) }
    ensures took { IfOk result (TookSlots N.config host.now loaded.now.module.now passes.old passes.new) }
    ensures idle { OnErr result (AreIdle passes.new) }
    ensures trails { IfErr result (λ kind. AddsTrails N.config host.now loaded.now.module.now (Answer.Full kind) passes.old passes.new) }
    ensures full { IfErr result (HasCause N.config host.now loaded.now.module.now passes.old passes.new) }
    ensures counted { KeepsCounts N.config.batch passes.old passes.new }
{
    let Ok(ticket) = host.tickets.take_for(&mut passes.ticket, loaded) else {
        return Err(Kind::Instance);
    };
    let Ok(memory) = take_memory(
        &host.memories,
        &mut passes.memory,
        &mut passes.tally,
        loaded,
    ) else {
        give_ticket(host, passes, loaded.store, ticket);
        return Err(Kind::Memory);
    };
    let Ok(table) = take_table(&host.tables, &mut passes.table, loaded) else {
        give_memory(host, passes, loaded.store, LeftMemory::of_call(memory));
        give_ticket(host, passes, loaded.store, ticket);
        return Err(Kind::Table);
    };
    Ok(Instance {
        ticket,
        memory,
        table,
    })
}
