//! A pool of memories.
ghost use Rattle.std.specs.Prelude.{◌≡◌, ◌+◌, ◌++◌, ◌<◌, ◌≤◌, true, false, is_some, length, IfOk, OnErr};
ghost use Rattle.std.specs.List.{All};
ghost use Rattle.pool_core.specs.declared.limits.TheConstants.{MOST_SLOTS};
ghost use Rattle.pool_core.specs.declared.words.StateWord.{StateWord};
ghost use Rattle.pool_core.specs.StateWords.{bit, IsWordOf};
ghost use Rattle.slot_words.specs.Closing.{ClosesAs, CountsLeft};
ghost use Rattle.slot_words.specs.Leases.{lease_number, lease_word};
ghost use Rattle.slot_words.specs.Owned.{IsNewPassOf, IsPassOf, limit_of, passes_of, slots_of};
ghost use Rattle.slot_words.specs.Passes.{Holds, IsIdle, IsSamePass, joined_trails, operations, seat_number, share_of, trail, trails};
ghost use Rattle.decommit_batch.specs.Counts.{flushes_in};
ghost use Rattle.decommit_batch.specs.HandIn.{HandsIn};
ghost use Rattle.slot_pools.specs.declared.policy.Policy.TheVariants.{Batched};
ghost use Rattle.slot_pools.specs.Takes.{FlushedAs, Takes, MeetsFull};
ghost use Rattle.wasm_spec.specs.Instances.{room_for};
ghost use Rattle.wasm_spec.specs.Store.{fresh_store};
ghost use Rattle.pool_model.specs.declared.kinds.Kind.TheVariants as kind;
ghost use Rattle.pool_model.specs.Contents.{shown_memory, IsFreshMemory};
ghost use Rattle.pool_model.specs.OwnTags.{own_tag};
ghost use Rattle.memory_slots.specs.Left.{lease_in};
ghost use Rattle.memory_slots.specs.Lent.{IsReady};

use crate::left::LeftMemory;
use crate::slot::MemSlot;
use decommit_batch::hand_in;
use module_store::{LoadedModule, ModuleRef, ModuleStore, Naming};
use slot_pools::{Full, Policy, Taken};
use slot_words::{KindCounts, Lease, Pass, Words};
use std::alloc::Global;
use std::marker::Model;
use wasm_values::NoMemory;

/// Memories that threads share by `&`: each takes and gives by a pass of its own. Contracts see the pool's words.
pub struct MemoryPool<N: Naming> {
    words: Words<MemSlot<N>>,
}

impl<N: Naming> Model for MemoryPool<N> {
    ghost use Rattle.slot_words.specs.declared.words.Words.{Words};
    ghost use Rattle.pool_limits.specs.declared.numbers.Numbers.{Numbers};
    ghost use Rattle.pool_model.specs.Contents.{MemoryContents};

    ghost Value = { Words MemoryContents Numbers };

    ghost view = { λ p. p.words };
}

impl<N: Naming> Drop for MemoryPool<N> {
    fn drop(self) {
        let MemoryPool { words: _ } = self;
    }
}

impl<N: Naming> MemoryPool<N> {
    /// A pool of so many cold memories, and as many passes as are asked for. At most `warm` of them are warm while no pass has them. There are
    /// no other passes of this pool.
    ///
    /// # Errors
    ///
    /// `NoMemory` where memory is refused.
    pub fn open(
        alloc: Global,
        store: &ModuleStore<N>,
        count: u32,
        warm: u32,
        passes: u32,
    ) -> Result<(MemoryPool<N>, Vec<Pass<MemSlot<N>>>), NoMemory>
        requires count { (1 ≤ count) × (count ≤ MOST_SLOTS) }
        requires passes { 1 ≤ passes }
        ensures slots { IfOk result (λ o. slots_of o.0 ≡ count) }
        ensures limit { IfOk result (λ o. limit_of o.0 ≡ warm) }
        ensures count { IfOk result (λ o. passes_of o.0 ≡ passes) }
        ensures passes { IfOk result (λ o. (length o.1.items ≡ passes) × All (IsNewPassOf o.0) o.1.items) }
    {
        let Ok((words, all)) = slot_pools::open(alloc, store, count, warm, passes) else {
            return Err(NoMemory);
        };
        Ok((MemoryPool { words }, all))
    }

    /// Takes a memory and makes it the module's fresh one: the first along the order of the module's tag that it wins, or else,
    /// after a flush, any. It allocates nothing.
    ///
    /// # Errors
    ///
    /// [`Full`] exactly where no claim was won, but for those of its flush: other passes held the memories. The pass holds nothing
    /// then. One that stands for all passes never meets it.
    pub fn take<'a>(
        &self,
        pass: &mut Pass<MemSlot<N>>,
        store: &'a ModuleStore<N>,
        module: &'a ModuleRef<N>,
    ) -> Result<Lease<MemSlot<N>>, Full>
        requires own { IsPassOf self.now pass.old }
        requires idle { IsIdle pass.old }
        ensures same { IsSamePass pass.old pass.new }

        // the pass has the slot of the lease, whose value is the module's fresh memory
        ensures number { IfOk result (λ l. lease_number l < slots_of self.now) }
        ensures holds { IfOk result (λ l. Holds pass.new (lease_number l) false false false) }
        ensures fresh { IfOk result (λ l. IsFreshMemory N.config.pages l.value «module».now) }
        ensures shown { IfOk result (λ l. shown_memory true l.value ≡ (fresh_store «module».now.tree).memory) }
        ensures ready { IfOk result (λ l. IsReady (room_for «module».now.tree.memories N.config.pages) l.value) }
        ensures trail { IfOk result (Takes self.now (Batched «module».now.tag) pass.old pass.new) }

        // it won nothing
        ensures full { OnErr result (MeetsFull self.now (Batched «module».now.tag) pass.old pass.new) }
        ensures another { OnErr result (share_of pass.old < passes_of self.now) }
    {
        let found = store.find(module);
        let loaded = LoadedModule {
            store,
            module,
            found,
        };
        let Taken { lease, .. } = self.take_for(pass, &loaded)?;
        Ok(lease)
    }

    /// The same for a module that was looked up. It also tells whether it flushed before it won the memory.
    ///
    /// # Errors
    ///
    /// [`Full`] as above: it flushed then.
    pub fn take_for(
        &self,
        pass: &mut Pass<MemSlot<N>>,
        loaded: &LoadedModule<'_, N>,
    ) -> Result<Taken<MemSlot<N>>, Full>
        requires own { IsPassOf self.now pass.old }
        requires idle { IsIdle pass.old }
        ensures same { IsSamePass pass.old pass.new }
        ensures number { IfOk result (λ t. lease_number t.lease < slots_of self.now) }
        ensures holds { IfOk result (λ t. Holds pass.new (lease_number t.lease) false false false) }
        ensures fresh { IfOk result (λ t. IsFreshMemory N.config.pages t.lease.value loaded.now.module.now) }
        ensures shown { IfOk result (λ t. shown_memory true t.lease.value ≡ (fresh_store loaded.now.module.now.tree).memory) }
        ensures ready { IfOk result (λ t. IsReady (room_for loaded.now.module.now.tree.memories N.config.pages) t.lease.value) }
        ensures trail { IfOk result (λ t. Takes self.now (Batched loaded.now.module.now.tag) pass.old pass.new t.lease) }
        ensures word { IfOk result (λ t. (w : StateWord) × IsWordOf (lease_word t.lease) w) }
        ensures told { IfOk result (λ t. FlushedAs t.flushed pass.old pass.new) }
        ensures full { OnErr result (MeetsFull self.now (Batched loaded.now.module.now.tag) pass.old pass.new) }
        ensures another { OnErr result (share_of pass.old < passes_of self.now) }
    {
        let policy = Policy::Batched(loaded.module.tag());
        let mut taken = slot_pools::take_telling(&self.words, pass, loaded.store, policy)?;
        taken.lease.value.prepare_for(loaded);
        Ok(taken)
    }

    /// Gives a memory that belongs to a module back, to await its decommit. With the configured batch of them awaiting, a flush
    /// follows, and the answer is true. It allocates nothing.
    pub fn give(
        &self,
        pass: &mut Pass<MemSlot<N>>,
        lease: Lease<MemSlot<N>>,
        store: &ModuleStore<N>,
    ) -> bool
        requires own { IsPassOf self.now pass.old }
        requires number { lease_number lease < slots_of self.now }
        requires holds { Holds pass.old (lease_number lease) false false false }
        requires belongs { is_some lease.value.holds ≡ true }
        ensures same { IsSamePass pass.old pass.new }
        ensures idle { IsIdle pass.new }
        ensures trail { HandsIn self.now (own_tag kind.Memory lease.value) N.config.batch lease pass.old pass.new }
        ensures told { flushes_in N.config.batch (trail pass.new) ≡ flushes_in N.config.batch (trail pass.old) + bit result }
    {
        lease.value.is_used();
        let batch = store.config().numbers().batch;
        hand_in(&self.words, pass, lease, store, batch)
    }

    /// Gives a memory back that a call left, as [`MemoryPool::give`] does. Nothing has written to it since.
    pub fn give_left(
        &self,
        pass: &mut Pass<MemSlot<N>>,
        left: LeftMemory<N>,
        store: &ModuleStore<N>,
    ) -> bool
        requires own { IsPassOf self.now pass.old }
        requires number { lease_number (lease_in left) < slots_of self.now }
        requires holds { Holds pass.old (lease_number (lease_in left)) false false false }
        requires belongs { is_some (lease_in left).value.holds ≡ true }
        ensures same { IsSamePass pass.old pass.new }
        ensures idle { IsIdle pass.new }
        ensures trail { HandsIn self.now (own_tag kind.Memory (lease_in left).value) N.config.batch (lease_in left) pass.old pass.new }
        ensures told { flushes_in N.config.batch (trail pass.new) ≡ flushes_in N.config.batch (trail pass.old) + bit result }
    {
        let lease = left.lease();
        self.give(pass, lease, store)
    }

    /// Joins another pass of this pool into this one, which then stands for both. Takes no memory.
    pub fn join_pass(&self, pass: &mut Pass<MemSlot<N>>, other: Pass<MemSlot<N>>)
        requires own { IsPassOf self.now pass.old }
        requires idle { IsIdle pass.old }
        requires other { IsPassOf self.now other × IsIdle other }
        ensures own { IsPassOf self.now pass.new }
        ensures idle { IsIdle pass.new }
        ensures share { share_of pass.new ≡ share_of pass.old + share_of other }
        ensures number { seat_number pass.new ≡ seat_number pass.old }
        ensures trail { trail pass.new ≡ trail pass.old }
        ensures joined { joined_trails pass.new ≡ joined_trails pass.old ++ trails other }
    {
        self.words.join_pass(pass, other);
    }

    /// Ends all passes and counts the memories as they stand: of those held, each pass that wasn't joined into this one kept at most one. Takes
    /// no memory.
    pub fn close(self, pass: Pass<MemSlot<N>>) -> KindCounts
        requires own { IsPassOf self pass }
        requires idle { IsIdle pass }
        ensures counts { ClosesAs (slots_of self) (limit_of self) (passes_of self) (share_of pass) (trails pass) result }
        ensures joined { share_of pass ≡ passes_of self → CountsLeft (slots_of self) (operations pass) result }
        ensures held { result.held + share_of pass ≤ passes_of self }
    {
        let MemoryPool { words } = self;
        words.close(pass)
    }

    /// The words that its passes share. Takes no memory.
    pub fn words(&self) -> &Words<MemSlot<N>>
        ensures { result.now ≡ self.now }
    {
        &self.words
    }
}
