//! A pool of tickets.
ghost use Rattle.std.specs.Prelude.{◌≡◌, ◌+◌, ◌++◌, ◌<◌, ◌≤◌, false, length, take, IfOk, OnErr};
ghost use Rattle.std.specs.List.{All};
ghost use Rattle.pool_core.specs.declared.limits.TheConstants.{MOST_SLOTS};
ghost use Rattle.slot_words.specs.Closing.{ClosesAs, CountsLeft};
ghost use Rattle.slot_words.specs.Leases.{lease_number};
ghost use Rattle.slot_words.specs.Owned.{IsNewPassOf, IsPassOf, limit_of, passes_of, slots_of};
ghost use Rattle.slot_words.specs.Passes.{Holds, IsIdle, IsSamePass, joined_trails, operations, seat_number, share_of, trail, trails};
ghost use Rattle.slot_pools.specs.Gives.{GivesCold};
ghost use Rattle.slot_pools.specs.declared.policy.Policy.TheVariants.{Any};
ghost use Rattle.slot_pools.specs.Takes.{Takes, MeetsFull};
ghost use Rattle.wasm_spec.specs.Store.{fresh_store};
ghost use Rattle.pool_model.specs.declared.kinds.Kind.TheVariants as kind;

use crate::ticket::Ticket;
use module_store::{LoadedModule, ModuleRef, ModuleStore, Naming};
use slot_pools::{Full, Policy, give_cold};
use slot_words::{KindCounts, Lease, Pass, Words};
use std::alloc::Global;
use std::marker::Model;
use wasm_values::NoMemory;

/// Tickets that threads share by `&`: each takes and gives by a pass of its own. Contracts see the pool's words.
pub struct TicketPool<N: Naming> {
    words: Words<Ticket<N>>,
}

impl<N: Naming> Model for TicketPool<N> {
    ghost use Rattle.slot_words.specs.declared.words.Words.{Words};
    ghost use Rattle.pool_limits.specs.declared.numbers.Numbers.{Numbers};
    ghost use Rattle.instance_slots.specs.Tickets.{TicketView};

    ghost Value = { Words TicketView Numbers };

    ghost view = { λ p. p.words };
}

impl<N: Naming> Drop for TicketPool<N> {
    fn drop(self) {
        let TicketPool { words: _ } = self;
    }
}

impl<N: Naming> TicketPool<N> {
    /// A pool of so many cold tickets, and as many passes as are asked for. At most `warm` of them are warm while no pass has them. There are
    /// no other passes of this pool.
    ///
    /// # Errors
    ///
    /// `NoMemory` where memory is refused.
    pub fn open(
        alloc: Global,
        store: &ModuleStore<N>,
        count: u32,
        warm: u32,
        passes: u32,
    ) -> Result<(TicketPool<N>, Vec<Pass<Ticket<N>>>), NoMemory>
        requires count { (1 ≤ count) × (count ≤ MOST_SLOTS) }
        requires passes { 1 ≤ passes }
        ensures slots { IfOk result (λ o. slots_of o.0 ≡ count) }
        ensures limit { IfOk result (λ o. limit_of o.0 ≡ warm) }
        ensures count { IfOk result (λ o. passes_of o.0 ≡ passes) }
        ensures passes { IfOk result (λ o. (length o.1.items ≡ passes) × All (IsNewPassOf o.0) o.1.items) }
    {
        let Ok((words, all)) = slot_pools::open(alloc, store, count, warm, passes) else {
            return Err(NoMemory);
        };
        Ok((TicketPool { words }, all))
    }

    /// Takes a ticket and writes the module's globals: the first that it wins of those that nobody had, by rising number, or else
    /// any. It allocates nothing.
    ///
    /// # Errors
    ///
    /// [`Full`] exactly where no claim was won: other passes held the tickets. The pass holds nothing then. One that stands for
    /// all passes never meets it.
    pub fn take<'a>(
        &self,
        pass: &mut Pass<Ticket<N>>,
        store: &'a ModuleStore<N>,
        module: &'a ModuleRef<N>,
    ) -> Result<Lease<Ticket<N>>, Full>
        requires own { IsPassOf self.now pass.old }
        requires idle { IsIdle pass.old }
        ensures same { IsSamePass pass.old pass.new }

        // the pass has the slot of the lease, whose first globals are the module's
        ensures number { IfOk result (λ l. lease_number l < slots_of self.now) }
        ensures holds { IfOk result (λ l. Holds pass.new (lease_number l) false false false) }
        ensures globals { IfOk result (λ l. take (length «module».now.tree.globals) l.value.globals ≡ (fresh_store «module».now.tree).globals) }
        ensures trail { IfOk result (Takes self.now Any pass.old pass.new) }

        // it won nothing
        ensures full { OnErr result (MeetsFull self.now Any pass.old pass.new) }
        ensures another { OnErr result (share_of pass.old < passes_of self.now) }
    {
        let found = store.find(module);
        let loaded = LoadedModule {
            store,
            module,
            found,
        };
        self.take_for(pass, &loaded)
    }

    /// Takes a ticket as [`TicketPool::take`] does, for a module that was looked up.
    ///
    /// # Errors
    ///
    /// [`Full`] as above.
    pub fn take_for(
        &self,
        pass: &mut Pass<Ticket<N>>,
        loaded: &LoadedModule<'_, N>,
    ) -> Result<Lease<Ticket<N>>, Full>
        requires own { IsPassOf self.now pass.old }
        requires idle { IsIdle pass.old }
        ensures same { IsSamePass pass.old pass.new }
        ensures number { IfOk result (λ l. lease_number l < slots_of self.now) }
        ensures holds { IfOk result (λ l. Holds pass.new (lease_number l) false false false) }
        ensures globals { IfOk result (λ l. take (length loaded.now.module.now.tree.globals) l.value.globals
            ≡ (fresh_store loaded.now.module.now.tree).globals) }
        ensures trail { IfOk result (Takes self.now Any pass.old pass.new) }
        ensures full { OnErr result (MeetsFull self.now Any pass.old pass.new) }
        ensures another { OnErr result (share_of pass.old < passes_of self.now) }
    {
        let mut lease = slot_pools::take(&self.words, pass, loaded.store, Policy::Any)?;
        lease.value.prepare(loaded);
        Ok(lease)
    }

    /// Gives a ticket back, cold. The store is not read: it stands here so that the three kinds are given alike. It allocates nothing.
    pub fn give(&self, pass: &mut Pass<Ticket<N>>, lease: Lease<Ticket<N>>, _store: &ModuleStore<N>)
        requires own { IsPassOf self.now pass.old }
        requires number { lease_number lease < slots_of self.now }
        requires holds { Holds pass.old (lease_number lease) false false false }
        ensures same { IsSamePass pass.old pass.new }
        ensures idle { IsIdle pass.new }
        ensures trail { GivesCold lease pass.old pass.new }
    {
        give_cold(&self.words, pass, lease);
    }

    /// Joins another pass of this pool into this one, which then stands for both. Takes no memory.
    pub fn join_pass(&self, pass: &mut Pass<Ticket<N>>, other: Pass<Ticket<N>>)
        requires own { IsPassOf self.now pass.old }
        requires idle { IsIdle pass.old }
        requires other { IsPassOf self.now other × IsIdle other }
        ensures own { IsPassOf self.now pass.new }
        ensures idle { IsIdle pass.new }
        ensures share { share_of pass.new ≡ share_of pass.old + share_of other }
        ensures number { seat_number pass.new ≡ seat_number pass.old }
        ensures trail { trail pass.new ≡ trail pass.old }
        ensures joined { joined_trails pass.new ≡ joined_trails pass.old ++ trails other }
    {
        self.words.join_pass(pass, other);
    }

    /// Ends all passes and counts the tickets as they stand: of those held, each pass that wasn't joined into this one kept at most one. Takes
    /// no memory.
    pub fn close(self, pass: Pass<Ticket<N>>) -> KindCounts
        requires own { IsPassOf self pass }
        requires idle { IsIdle pass }
        ensures counts { ClosesAs (slots_of self) (limit_of self) (passes_of self) (share_of pass) (trails pass) result }
        ensures joined { share_of pass ≡ passes_of self → CountsLeft (slots_of self) (operations pass) result }
        ensures held { result.held + share_of pass ≤ passes_of self }
    {
        let TicketPool { words } = self;
        words.close(pass)
    }

    /// The words that its passes share. Takes no memory.
    pub fn words(&self) -> &Words<Ticket<N>>
        ensures { result.now ≡ self.now }
    {
        &self.words
    }
}
