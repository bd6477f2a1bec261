//! A pool of tables.
ghost use Rattle.std.specs.Prelude.{◌≡◌, ◌+◌, ◌++◌, ◌<◌, ◌≤◌, true, false, is_some, length, IfOk, OnErr};
ghost use Rattle.std.specs.List.{All};
ghost use Rattle.pool_core.specs.declared.limits.TheConstants.{MOST_SLOTS};
ghost use Rattle.slot_words.specs.Closing.{ClosesAs, CountsLeft};
ghost use Rattle.slot_words.specs.Leases.{lease_number};
ghost use Rattle.slot_words.specs.Owned.{IsNewPassOf, IsPassOf, limit_of, passes_of, slots_of};
ghost use Rattle.slot_words.specs.Passes.{Holds, IsIdle, IsSamePass, joined_trails, operations, seat_number, share_of, trail, trails};
ghost use Rattle.slot_pools.specs.Gives.{GivesWarm};
ghost use Rattle.slot_pools.specs.declared.policy.Policy.TheVariants.{Affine};
ghost use Rattle.slot_pools.specs.Takes.{Takes, MeetsFull};
ghost use Rattle.pool_model.specs.Contents.{IsTableOf};
ghost use Rattle.pool_model.specs.declared.kinds.Kind.TheVariants.{Table};
ghost use Rattle.pool_model.specs.OwnTags.{own_tag};

use crate::slot::TableSlot;
use module_store::{LoadedModule, ModuleRef, ModuleStore, Naming};
use slot_pools::{Full, Policy, give_warm};
use slot_words::{KindCounts, Lease, Pass, Words};
use std::alloc::Global;
use std::marker::Model;
use wasm_values::NoMemory;

/// Tables that threads share by `&`: each takes and gives by a pass of its own. Contracts see the pool's words.
pub struct TablePool<N: Naming> {
    words: Words<TableSlot<N>>,
}

impl<N: Naming> Model for TablePool<N> {
    ghost use Rattle.slot_words.specs.declared.words.Words.{Words};
    ghost use Rattle.pool_limits.specs.declared.numbers.Numbers.{Numbers};
    ghost use Rattle.pool_model.specs.Contents.{TableContents};

    ghost Value = { Words TableContents Numbers };

    ghost view = { λ p. p.words };
}

impl<N: Naming> Drop for TablePool<N> {
    fn drop(self) {
        let TablePool { words: _ } = self;
    }
}

impl<N: Naming> TablePool<N> {
    /// A pool of so many cold tables, and as many passes as are asked for. At most `warm` of them are warm while no pass has them. There are
    /// no other passes of this pool.
    ///
    /// # Errors
    ///
    /// `NoMemory` where memory is refused.
    pub fn open(
        alloc: Global,
        store: &ModuleStore<N>,
        count: u32,
        warm: u32,
        passes: u32,
    ) -> Result<(TablePool<N>, Vec<Pass<TableSlot<N>>>), NoMemory>
        requires count { (1 ≤ count) × (count ≤ MOST_SLOTS) }
        requires passes { 1 ≤ passes }
        ensures slots { IfOk result (λ o. slots_of o.0 ≡ count) }
        ensures limit { IfOk result (λ o. limit_of o.0 ≡ warm) }
        ensures count { IfOk result (λ o. passes_of o.0 ≡ passes) }
        ensures passes { IfOk result (λ o. (length o.1.items ≡ passes) × All (IsNewPassOf o.0) o.1.items) }
    {
        let Ok((words, all)) = slot_pools::open(alloc, store, count, warm, passes) else {
            return Err(NoMemory);
        };
        Ok((TablePool { words }, all))
    }

    /// Takes a table and makes it the module's fresh one: the first along the order of the module's tag that it wins, or else
    /// any. It allocates nothing.
    ///
    /// # Errors
    ///
    /// [`Full`] exactly where no claim was won: other passes held the tables. The pass holds nothing then. One that stands for
    /// all passes never meets it.
    pub fn take<'a>(
        &self,
        pass: &mut Pass<TableSlot<N>>,
        store: &'a ModuleStore<N>,
        module: &'a ModuleRef<N>,
    ) -> Result<Lease<TableSlot<N>>, Full>
        requires own { IsPassOf self.now pass.old }
        requires idle { IsIdle pass.old }
        ensures same { IsSamePass pass.old pass.new }

        // the pass has the slot of the lease, whose value is the module's fresh table
        ensures number { IfOk result (λ l. lease_number l < slots_of self.now) }
        ensures holds { IfOk result (λ l. Holds pass.new (lease_number l) false false false) }
        ensures table { IfOk result (λ l. IsTableOf l.value «module».now) }
        ensures trail { IfOk result (Takes self.now (Affine «module».now.tag) pass.old pass.new) }

        // it won nothing
        ensures full { OnErr result (MeetsFull self.now (Affine «module».now.tag) pass.old pass.new) }
        ensures another { OnErr result (share_of pass.old < passes_of self.now) }
    {
        let found = store.find(module);
        let loaded = LoadedModule {
            store,
            module,
            found,
        };
        self.take_for(pass, &loaded)
    }

    /// Takes a table as [`TablePool::take`] does, for a module that was looked up.
    ///
    /// # Errors
    ///
    /// [`Full`] as above.
    pub fn take_for(
        &self,
        pass: &mut Pass<TableSlot<N>>,
        loaded: &LoadedModule<'_, N>,
    ) -> Result<Lease<TableSlot<N>>, Full>
        requires own { IsPassOf self.now pass.old }
        requires idle { IsIdle pass.old }
        ensures same { IsSamePass pass.old pass.new }
        ensures number { IfOk result (λ l. lease_number l < slots_of self.now) }
        ensures holds { IfOk result (λ l. Holds pass.new (lease_number l) false false false) }
        ensures table { IfOk result (λ l. IsTableOf l.value loaded.now.module.now) }
        ensures trail { IfOk result (Takes self.now (Affine loaded.now.module.now.tag) pass.old pass.new) }
        ensures full { OnErr result (MeetsFull self.now (Affine loaded.now.module.now.tag) pass.old pass.new) }
        ensures another { OnErr result (share_of pass.old < passes_of self.now) }
    {
        let policy = Policy::Affine(loaded.module.tag());
        let mut lease = slot_pools::take(&self.words, pass, loaded.store, policy)?;
        lease.value.prepare(loaded);
        Ok(lease)
    }

    /// Gives a table that belongs to a module back: warm for its tag where there is a permit, and else cold. It allocates nothing.
    pub fn give(
        &self,
        pass: &mut Pass<TableSlot<N>>,
        lease: Lease<TableSlot<N>>,
        store: &ModuleStore<N>,
    )
        requires own { IsPassOf self.now pass.old }
        requires number { lease_number lease < slots_of self.now }
        requires holds { Holds pass.old (lease_number lease) false false false }
        requires belongs { is_some lease.value.holds ≡ true }
        ensures same { IsSamePass pass.old pass.new }
        ensures idle { IsIdle pass.new }
        ensures trail { GivesWarm self.now (own_tag Table lease.value) lease pass.old pass.new }
    {
        lease.value.is_its_modules();
        give_warm(&self.words, pass, lease, store);
    }

    /// Joins another pass of this pool into this one, which then stands for both. Takes no memory.
    pub fn join_pass(&self, pass: &mut Pass<TableSlot<N>>, other: Pass<TableSlot<N>>)
        requires own { IsPassOf self.now pass.old }
        requires idle { IsIdle pass.old }
        requires other { IsPassOf self.now other × IsIdle other }
        ensures own { IsPassOf self.now pass.new }
        ensures idle { IsIdle pass.new }
        ensures share { share_of pass.new ≡ share_of pass.old + share_of other }
        ensures number { seat_number pass.new ≡ seat_number pass.old }
        ensures trail { trail pass.new ≡ trail pass.old }
        ensures joined { joined_trails pass.new ≡ joined_trails pass.old ++ trails other }
    {
        self.words.join_pass(pass, other);
    }

    /// Ends all passes and counts the tables as they stand: of those held, each pass that wasn't joined into this one kept at most one. Takes
    /// no memory.
    pub fn close(self, pass: Pass<TableSlot<N>>) -> KindCounts
        requires own { IsPassOf self pass }
        requires idle { IsIdle pass }
        ensures counts { ClosesAs (slots_of self) (limit_of self) (passes_of self) (share_of pass) (trails pass) result }
        ensures joined { share_of pass ≡ passes_of self → CountsLeft (slots_of self) (operations pass) result }
        ensures held { result.held + share_of pass ≤ passes_of self }
    {
        let TablePool { words } = self;
        words.close(pass)
    }

    /// The words that its passes share. Takes no memory.
    pub fn words(&self) -> &Words<TableSlot<N>>
        ensures { result.now ≡ self.now }
    {
        &self.words
    }
}
