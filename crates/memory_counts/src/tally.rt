//! Takes and gives of memories that are counted.
ghost use Rattle.std.specs.Prelude.{◌≡◌, ◌+◌, ◌<◌, ◌%◌, ◌^◌, false, true, not, is_some, IfOk, OnErr};
ghost use Rattle.pool_core.specs.StateWords.{bit, unpacked};
ghost use Rattle.slot_words.specs.Leases.{lease_number};
ghost use Rattle.slot_words.specs.Owned.{IsPassOf, passes_of, slots_of};
ghost use Rattle.slot_words.specs.Passes.{Holds, IsIdle, IsSamePass, share_of};
ghost use Rattle.decommit_batch.specs.HandIn.{HandsIn};
ghost use Rattle.slot_pools.specs.declared.policy.Policy.TheVariants.{Batched};
ghost use Rattle.slot_pools.specs.Takes.{MeetsFull, Takes};
ghost use Rattle.wasm_spec.specs.Instances.{room_for};
ghost use Rattle.wasm_spec.specs.Store.{fresh_store};
ghost use Rattle.pool_model.specs.Contents.{IsFreshMemory, shown_memory};
ghost use Rattle.pool_model.specs.declared.kinds.Kind.TheVariants as kind;
ghost use Rattle.pool_model.specs.OwnTags.{own_tag};
ghost use Rattle.memory_slots.specs.Left.{lease_in};
ghost use Rattle.memory_slots.specs.Lent.{IsReady};

use crate::counting::{is_own_warm, one_more};
use memory_slots::{Full, LeftMemory, MemSlot, MemoryPool, Taken};
use module_store::{LoadedModule, ModuleStore, Naming};
use pool_core::{Target, unpack};
use slot_words::{Lease, Pass};

/// What the takes of memories by one pass came to since it was handed out, each modulo 2^64. A memory counts once it is given back.
#[derive(Clone, Copy, Debug, PartialEq, Eq)]
pub struct TakeCounts {
    /// Memories that were won warm for the module that had them.
    pub warm: u64,
    /// Memories that were won cold, awaiting, or warm for another module.
    pub cold: u64,
    /// Flushes: before the last claims of a take, and after a give that completed a batch.
    pub flushes: u64,
    /// Takes that found each memory held.
    pub full: u64,
}

/// The counts of one pass, between its calls and while it has a memory.
#[derive(Clone, Copy, Debug)]
pub struct MemoryTally {
    pub(crate) counts: TakeCounts,
    // How the memory that it has was left, as its claim read it; without one cold.
    pub(crate) claimed: Target,
}

impl MemoryTally {
    ghost use Rattle.memory_counts.specs.Counted.{IsCounted};

    /// That of a pass as it is handed out.
    pub const NEW: MemoryTally = MemoryTally {
        counts: TakeCounts {
            warm: 0,
            cold: 0,
            flushes: 0,
            full: 0,
        },
        claimed: Target::COLD,
    };

    /// The counts so far.
    pub fn counts(&self) -> TakeCounts
        ensures { result ≡ self.now.counts }
    {
        self.counts
    }

    // A memory was won that had been left like this, after a flush or without one.
    fn note_won(&mut self, left: Target, flushed: bool)
        ensures claimed { self.new.claimed ≡ left }
        ensures flushes { self.new.counts.flushes ≡ (self.old.counts.flushes + bit flushed) % 2 ^ 64 }
        ensures warm { self.new.counts.warm ≡ self.old.counts.warm }
        ensures cold { self.new.counts.cold ≡ self.old.counts.cold }
        ensures full { self.new.counts.full ≡ self.old.counts.full }
    {
        self.claimed = left;
        self.counts.flushes = one_more(self.counts.flushes, flushed);
    }

    // Each memory was held, also after a flush.
    fn note_full(&mut self)
        ensures claimed { self.new.claimed ≡ self.old.claimed }
        ensures flushes { self.new.counts.flushes ≡ (self.old.counts.flushes + bit true) % 2 ^ 64 }
        ensures warm { self.new.counts.warm ≡ self.old.counts.warm }
        ensures cold { self.new.counts.cold ≡ self.old.counts.cold }
        ensures full { self.new.counts.full ≡ (self.old.counts.full + bit true) % 2 ^ 64 }
    {
        self.counts.flushes = one_more(self.counts.flushes, true);
        self.counts.full = one_more(self.counts.full, true);
    }

    // A memory was given back, which had been won warm for its module or not. A flush followed, or none.
    fn note_given(&mut self, own: bool, flushed: bool)
        ensures claimed { self.new.claimed ≡ (unpacked 0).target }
        ensures flushes { self.new.counts.flushes ≡ (self.old.counts.flushes + bit flushed) % 2 ^ 64 }
        ensures warm { self.new.counts.warm ≡ (self.old.counts.warm + bit own) % 2 ^ 64 }
        ensures cold { self.new.counts.cold ≡ (self.old.counts.cold + bit (not own)) % 2 ^ 64 }
        ensures full { self.new.counts.full ≡ self.old.counts.full }
    {
        self.claimed = Target::COLD;
        self.counts.flushes = one_more(self.counts.flushes, flushed);
        self.counts.warm = one_more(self.counts.warm, own);
        self.counts.cold = one_more(self.counts.cold, !own);
    }

    /// Takes a memory as [`MemoryPool::take_for`] does, and counts it.
    ///
    /// # Errors
    ///
    /// [`Full`] as there.
    pub fn take_for<N: Naming>(
        &mut self,
        pool: &MemoryPool<N>,
        pass: &mut Pass<MemSlot<N>>,
        loaded: &LoadedModule<'_, N>,
    ) -> Result<Lease<MemSlot<N>>, Full>
        requires own { IsPassOf pool.now pass.old }
        requires idle { IsIdle pass.old }
        ensures same { IsSamePass pass.old pass.new }
        ensures number { IfOk result (λ l. lease_number l < slots_of pool.now) }
        ensures holds { IfOk result (λ l. Holds pass.new (lease_number l) false false false) }
        ensures fresh { IfOk result (λ l. IsFreshMemory N.config.pages l.value loaded.now.module.now) }
        ensures shown { IfOk result (λ l. shown_memory true l.value ≡ (fresh_store loaded.now.module.now.tree).memory) }
        ensures ready { IfOk result (λ l. IsReady (room_for loaded.now.module.now.tree.memories N.config.pages) l.value) }
        ensures trail { IfOk result (Takes pool.now (Batched loaded.now.module.now.tag) pass.old pass.new) }
        ensures full { OnErr result (MeetsFull pool.now (Batched loaded.now.module.now.tag) pass.old pass.new) }
        ensures another { OnErr result (share_of pass.old < passes_of pool.now) }
        ensures counted { IsCounted N.config.batch pass.old self.old → IsCounted N.config.batch pass.new self.new }
    {
        match pool.take_for(pass, loaded) {
            Ok(taken) => {
                let Taken { lease, flushed } = taken;
                let (left, _) = unpack(lease.word());
                self.note_won(left, flushed);
                Ok(lease)
            }
            Err(full) => {
                self.note_full();
                Err(full)
            }
        }
    }

    /// Gives a memory back that a call left, as [`MemoryPool::give_left`] does, and counts it.
    pub fn give<N: Naming>(
        &mut self,
        pool: &MemoryPool<N>,
        pass: &mut Pass<MemSlot<N>>,
        left: LeftMemory<N>,
        store: &ModuleStore<N>,
    )
        requires own { IsPassOf pool.now pass.old }
        requires number { lease_number (lease_in left) < slots_of pool.now }
        requires holds { Holds pass.old (lease_number (lease_in left)) false false false }
        requires belongs { is_some (lease_in left).value.holds ≡ true }
        ensures same { IsSamePass pass.old pass.new }
        ensures idle { IsIdle pass.new }
        ensures trail { HandsIn pool.now (own_tag kind.Memory (lease_in left).value) N.config.batch (lease_in left) pass.old pass.new }
        ensures counted { IsCounted N.config.batch pass.old self.old → IsCounted N.config.batch pass.new self.new }
    {
        let tag = left.module_tag();
        let own = is_own_warm(self.claimed, tag);
        let flushed = pool.give_left(pass, left, store);
        self.note_given(own, flushed);
    }
}
