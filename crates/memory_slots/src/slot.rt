//! Memories in slots, and the modules that they belong to.
ghost use Rattle.std.specs.Prelude.{◌≡◌, ℕ, ◌+◌, ◌-◌, ◌*◌, ◌<◌, ◌≤◌, true, false, Some, None, Option, is_some, length, map, IfOk, IfSome};
ghost use Rattle.pool_core.specs.declared.limits.TheConstants.{TAG_LIMIT};
ghost use Rattle.pool_core.specs.declared.words.State.TheVariants.{Awaiting};
ghost use Rattle.wasm_types.specs.Tree.{module_tree};
ghost use Rattle.wasm_spec.specs.Instances.{room_for};
ghost use Rattle.wasm_spec.specs.Store.{Store, fresh_store};
ghost use Rattle.wasm_spec.specs.Execution.{terms_of};
ghost use Rattle.wasm_spec.specs.Result.{CallResult};
ghost use Rattle.wasm_spec.specs.Bulk.{HasFewMarks};
ghost use Rattle.memory_blocks.specs.Blocks.{KeepsUnmarked};
ghost use Rattle.wasm_machine.specs.Calls.{IsCall, FitsFrame, IsDone};
ghost use Rattle.wasm_machine.specs.Lent.{others, run_terms};
ghost use Rattle.wasm_machine.specs.TypedConfiguration.{IsTypedStore};
ghost use Rattle.pool_model.specs.declared.kinds.Kind.TheVariants as kind;
ghost use Rattle.pool_model.specs.Contents.{Named, belongs_to, filled, prepared, restored, shown_memory, IsCold, IsFreshMemory, Matches};
ghost use Rattle.pool_model.specs.Runs.{LeavesFrom};
ghost use Rattle.paused_call.specs.Fuel.{LeavesFuel, fuel_left};
ghost use Rattle.paused_call.specs.Standing.{HasTurned, upto, whole};
ghost use Rattle.pool_model.specs.OwnTags.{own_tag, fits-own_tag};
ghost use Rattle.memory_slots.specs.Lent.{CanResumeOn, IsReady, StandsOn, dirty_blocks, end_on, lent, parts, result_on, store_in};
ghost use Rattle.memory_slots.specs.Written.{WritesAtMost};

use crate::images::{restore_memory, write_memory};
use block_restore::{Steps, write_all};
use call_payload::AnswerBuf;
use linear_memory::Memory;
use memory_blocks::Marks;
use module_store::{LoadedModule, ModuleRef, ModuleStore, Naming};
use paused_call::{PausedCall, SliceEnd};
use slot_pools::OpenSlot;
use slot_words::{NoMemory as Refused, Pooled};
use std::alloc::Global;
use std::marker::{Brand, Model};
use std::sync::ledger::{Blank, Ledger};
use wasm_machine::{RunEnd, RunInputs, Stacks, run};
use wasm_types::RunLimits;
use wasm_validate::Valid;
use wasm_values::{NoMemory, Val};

/// A memory that lies in a slot, with bytes for the configured pages. Each byte outside its marked blocks is that of its own
/// module's image, so it lends no `&mut` of its memory. Contracts see its contents.
pub struct MemSlot<N: Naming> {
    pub(crate) memory: Memory,
    holds: Option<ModuleRef<N>>,
    // For each block, whether a byte of its module's image may not be zero there.
    written: Marks,
}

impl<N: Naming> Model for MemSlot<N> {
    ghost use Rattle.pool_model.specs.Contents.{MemoryContents};
    ghost use Rattle.pool_model.specs.Codes.{coded_memory};
    ghost use Rattle.memory_slots.specs.Kept.{IsInSlot, contents_of};

    ghost Value = { MemoryContents };

    ghost coded = { coded_memory };

    ghost view = { λ s. contents_of s.memory s.holds };

    ghost invariant = { λ s. IsInSlot N.config s.written.items s.memory s.holds };
}

impl<N: Naming> Drop for MemSlot<N> {
    fn drop(self) {
        let MemSlot {
            memory: _,
            holds: _,
            written: _,
        } = self;
    }
}

impl<N: Naming> MemSlot<N> {
    /// A cold memory.
    ///
    /// # Errors
    ///
    /// `NoMemory` where memory is refused.
    pub fn open(alloc: Global, store: &ModuleStore<N>) -> Result<MemSlot<N>, NoMemory>
        ensures { IfOk result (IsCold N.config.pages kind.Memory) }
    {
        let pages = store.config().numbers().pages;
        let memory = Memory::zeroed(alloc, pages)?;
        let blocks = memory.marks.as_slice().len();
        let Ok(written) = Marks::unmarked(alloc, blocks) else {
            return Err(NoMemory);
        };
        Ok(MemSlot {
            memory,
            holds: None,
            written,
        })
    }

    /// Makes it the module's fresh memory. Where it belongs to that module already, the marked blocks alone are written. Takes
    /// no memory.
    pub fn prepare<'a>(&mut self, store: &'a ModuleStore<N>, module: &'a ModuleRef<N>)
        ensures prepared { self.new ≡ prepared N.config.pages «module».now kind.Memory self.old }
        ensures fresh { IsFreshMemory N.config.pages self.new «module».now }
        ensures shown { shown_memory true self.new ≡ (fresh_store «module».now.tree).memory }
        ensures ready { IsReady (room_for «module».now.tree.memories N.config.pages) self.new }
    {
        let found = store.find(module);
        self.prepare_for(&LoadedModule {
            store,
            module,
            found,
        });
    }

    /// Makes it the fresh memory of a module that was looked up, as [`MemSlot::prepare`] does.
    pub fn prepare_for(&mut self, loaded: &LoadedModule<'_, N>)
        ensures prepared { self.new ≡ prepared N.config.pages loaded.now.module.now kind.Memory self.old }
        ensures fresh { IsFreshMemory N.config.pages self.new loaded.now.module.now }
        ensures shown { shown_memory true self.new ≡ (fresh_store loaded.now.module.now.tree).memory }
        ensures ready { IsReady (room_for loaded.now.module.now.tree.memories N.config.pages) self.new }
    {
        // A module of the store has no larger memory than the configuration allows.
        let _valid = loaded.valid();
        self.prepare_uncounted::<Brand>(loaded, Blank::new(1));
    }

    fn prepare_uncounted<L: Ledger>(&mut self, loaded: &LoadedModule<'_, N>, blank: Blank)
        requires name { (blank.name ≡ L.name) × (blank.parts ≡ L.parts) × (0 < blank.parts) }
        ensures prepared { self.new ≡ prepared N.config.pages loaded.now.module.now kind.Memory self.old }
        ensures fresh { IsFreshMemory N.config.pages self.new loaded.now.module.now }
    {
        let mut steps = Steps::<L>::new(blank);
        self.prepare_counted(loaded, &mut steps);
    }

    /// [`MemSlot::prepare_for`] with one step for each block that is written. Where it belongs to that module already, they are as many
    /// as are marked. Else they are at most those that are marked or in which the old module or the new one has data. Zeros that no
    /// module had before in this slot are written without a step: each of its bytes is so once.
    pub fn prepare_counted<L: Ledger>(&mut self, loaded: &LoadedModule<'_, N>, steps: &mut Steps<L>)
        ensures prepared { self.new ≡ prepared N.config.pages loaded.now.module.now kind.Memory self.old }
        ensures fresh { IsFreshMemory N.config.pages self.new loaded.now.module.now }
        ensures own { belongs_to loaded.now.module.now self.old.holds ≡ true → steps.new ≡ steps.old + dirty_blocks self.old }
        ensures steps { WritesAtMost self.old (Some loaded.now.module.now) steps.old steps.new }
    {
        if let Some(own) = &self.holds {
            if loaded.store.same(own, loaded.module) {
                self.restore_counted(loaded.store, steps);
                return;
            }
        }
        self.write(loaded, steps);
    }

    // Writes the module's memory over what is there.
    fn write<L: Ledger>(&mut self, loaded: &LoadedModule<'_, N>, steps: &mut Steps<L>)
        ensures fresh { IsFreshMemory N.config.pages self.new loaded.now.module.now }
        ensures marks { self.new.marks ≡ map (λ marked. false) self.old.marks }
        ensures steps { WritesAtMost self.old (Some loaded.now.module.now) steps.old steps.new }
    {
        write_memory(&mut self.memory, &mut self.written, loaded, steps);
        self.holds = Some(loaded.module.again());
    }

    /// Makes it the fresh memory of its own module, if it has one: the marked blocks alone are written. Takes no memory.
    pub fn restore(&mut self, store: &ModuleStore<N>)
        ensures restored { self.new ≡ restored N.config.pages kind.Memory self.old }
        ensures fresh { IfSome self.old.holds (IsFreshMemory N.config.pages self.new) }
    {
        self.restore_uncounted::<Brand>(store, Blank::new(1));
    }

    fn restore_uncounted<L: Ledger>(&mut self, store: &ModuleStore<N>, blank: Blank)
        requires name { (blank.name ≡ L.name) × (blank.parts ≡ L.parts) × (0 < blank.parts) }
        ensures restored { self.new ≡ restored N.config.pages kind.Memory self.old }
        ensures fresh { IfSome self.old.holds (IsFreshMemory N.config.pages self.new) }
    {
        if self.holds.is_none() {
            return;
        }
        let mut steps = Steps::<L>::new(blank);
        self.restore_counted(store, &mut steps);
    }

    /// [`MemSlot::restore`] of a memory that has a module, with one step for each block that is written: as many as are marked.
    pub fn restore_counted<L: Ledger>(&mut self, store: &ModuleStore<N>, steps: &mut Steps<L>)
        requires { is_some self.old.holds ≡ true }
        ensures restored { self.new ≡ restored N.config.pages kind.Memory self.old }
        ensures fresh { IfSome self.old.holds (IsFreshMemory N.config.pages self.new) }
        ensures steps { steps.new ≡ steps.old + dirty_blocks self.old }
    {
        match &self.holds {
            Some(own) => {
                let found = store.find(own);
                let own = LoadedModule {
                    store,
                    module: own,
                    found,
                };
                restore_memory(&mut self.memory, &own, steps);
            }
            None => unreachable!(),
        }
    }

    /// Makes it cold. Takes no memory.
    pub fn clear(&mut self)
        ensures { IsCold N.config.pages kind.Memory self.new }
    {
        self.clear_uncounted::<Brand>(Blank::new(1));
    }

    fn clear_uncounted<L: Ledger>(&mut self, blank: Blank)
        requires name { (blank.name ≡ L.name) × (blank.parts ≡ L.parts) × (0 < blank.parts) }
        ensures { IsCold N.config.pages kind.Memory self.new }
    {
        let mut steps = Steps::<L>::new(blank);
        self.clear_counted(&mut steps);
    }

    /// [`MemSlot::clear`] with one step for each block that is written: at most those that are marked or in which its module has data.
    pub fn clear_counted<L: Ledger>(&mut self, steps: &mut Steps<L>)
        ensures cold { IsCold N.config.pages kind.Memory self.new }
        ensures steps { WritesAtMost self.old None steps.old steps.new }
    {
        write_all(
            &mut self.memory.bytes,
            &mut self.memory.marks,
            &mut self.written,
            None,
            steps,
        );
        self.memory.pages = 0;
        self.holds = None;
    }

    /// How many blocks are marked. Takes no memory.
    pub fn dirty(&self) -> u32
        ensures { result ≡ dirty_blocks self.now }
    {
        let marks = self.memory.marks.as_slice();
        marks.iter().filter(|marked| **marked).count() as u32
    }

    /// Runs a function of a module on fuel, on this memory, and on a table, globals, stacks, a request and an answer that are
    /// lent, as [`wasm_machine::run`] does. It keeps the module that it belongs to. Takes no memory.
    pub fn run(
        &mut self,
        valid: &Valid,
        function: u32,
        args: &[Val],
        fuel: u64,
        limits: RunLimits,
        table: &[Option<u32>],
        globals: &mut [Val],
        stacks: &mut Stacks,
        request: &[u8],
        answer: &mut AnswerBuf,
    ) -> RunEnd
        requires call { IsCall valid.now function args.now }
        requires depth { 0 < limits.depth }
        requires pages { limits.pages ≤ N.config.pages }
        requires ready { IsReady (room_for valid.now.memories limits.pages) self.old }
        requires store { IsTypedStore valid.now (store_in valid.now self.old table.now globals.old answer.old) }
        requires request { length request.now ≤ 65536 }
        requires frames { limits.depth ≤ stacks.old.room.depth }
        requires frame { FitsFrame valid.now stacks.old.room.frame }
        ensures result { result_on valid.now (terms_of limits request.now) function args.now (lent self.old table.now globals.old answer.old) fuel
            ≡ Some (end_on valid.now (lent self.new table.now globals.new answer.new) result) }
        ensures marked { (turns : ℕ) (r : CallResult) → turns ≤ fuel
            → result_on valid.now (terms_of limits request.now) function args.now (lent self.old table.now globals.old answer.old) turns ≡ Some r
            → KeepsUnmarked self.old.bytes (filled N.config.pages r.store.memory) self.old.marks self.new.marks }
        ensures left { result.left ≤ fuel }
        ensures ready { IsReady (room_for valid.now.memories limits.pages) self.new }
        ensures store { IsDone result.outcome → IsTypedStore valid.now (store_in valid.now self.new table.now globals.new answer.new) }
        ensures holds { self.new.holds ≡ self.old.holds }
        ensures counted { HasFewMarks (module_tree valid.now) → dirty_blocks self.new ≤ dirty_blocks self.old + 2 * (fuel - result.left) }
        ensures globals { length globals.new ≡ length globals.old }
        ensures others { others valid.now globals.new ≡ others valid.now globals.old }
        ensures stacks { stacks.new.room ≡ stacks.old.room }
    {
        run(
            valid,
            function,
            args,
            fuel,
            limits,
            &mut self.memory,
            table,
            globals,
            stacks,
            request,
            answer,
        )
    }

    /// Makes at most so many turns of a call that is paused, on this memory, and on a table, globals, stacks, a request and an answer
    /// that are lent, as [`PausedCall::resume`] does. It keeps the module that it belongs to. Takes no memory.
    pub fn resume(
        &mut self,
        call: &mut PausedCall,
        args: &[Val],
        inputs: &RunInputs<'_>,
        slice: u64,
        globals: &mut [Val],
        stacks: &mut Stacks,
        answer: &mut AnswerBuf,
    ) -> SliceEnd
        requires stands { CanResumeOn inputs.now.valid.now (run_terms inputs.now) args.now call.old stacks.old
            (lent self.old inputs.now.table.now globals.old answer.old) }
        requires pages { inputs.now.limits.pages ≤ N.config.pages }
        requires ready { IsReady (room_for inputs.now.valid.now.memories inputs.now.limits.pages) self.old }
        requires frame { FitsFrame inputs.now.valid.now stacks.old.room.frame }
        ensures turned { (begun : Store)
            → StandsOn inputs.now.valid.now (run_terms inputs.now) begun args.now call.old stacks.old
            (lent self.old inputs.now.table.now globals.old answer.old)
            → HasTurned (whole inputs.now.valid.now (run_terms inputs.now) call.old args.now begun) call.old slice
            (store_in inputs.now.valid.now self.new inputs.now.table.now globals.new answer.new) result }
        ensures stands { result ≡ SliceEnd.Again → (begun : Store)
            → StandsOn inputs.now.valid.now (run_terms inputs.now) begun args.now call.old stacks.old
            (lent self.old inputs.now.table.now globals.old answer.old)
            → StandsOn inputs.now.valid.now (run_terms inputs.now) begun args.now call.new stacks.new
            (lent self.new inputs.now.table.now globals.new answer.new) }
        ensures leaves { (begun : Store)
            → StandsOn inputs.now.valid.now (run_terms inputs.now) begun args.now call.old stacks.old
            (lent self.old inputs.now.table.now globals.old answer.old)
            → (owner : Option Named) → (r : CallResult)
            × LeavesFrom N.config.pages (module_tree inputs.now.valid.now) (whole inputs.now.valid.now (run_terms inputs.now) call.old args.now begun)
            call.old.turns (upto call.old slice) (parts self.old owner inputs.now.table.now globals.old)
            (parts self.new owner inputs.now.table.now globals.new) self.new.marks r }
        ensures ready { IsReady (room_for inputs.now.valid.now.memories inputs.now.limits.pages) self.new }
        ensures holds { self.new.holds ≡ self.old.holds }
        ensures counted { HasFewMarks (module_tree inputs.now.valid.now) → (begun : Store)
            → StandsOn inputs.now.valid.now (run_terms inputs.now) begun args.now call.old stacks.old
            (lent self.old inputs.now.table.now globals.old answer.old)
            → (r : CallResult) → whole inputs.now.valid.now (run_terms inputs.now) call.old args.now begun (upto call.old slice) ≡ Some r
            → dirty_blocks self.new ≤ dirty_blocks self.old + 2 * (upto call.old slice - call.old.turns - r.fuel) }
        ensures left { (begun : Store)
            → StandsOn inputs.now.valid.now (run_terms inputs.now) begun args.now call.old stacks.old
            (lent self.old inputs.now.table.now globals.old answer.old)
            → LeavesFuel (whole inputs.now.valid.now (run_terms inputs.now) call.old args.now begun) call.old.fuel result (fuel_left call.new) }
        ensures same { (call.new.function ≡ call.old.function) × (call.new.fuel ≡ call.old.fuel) }
        ensures turns { result ≡ SliceEnd.Again → call.new.turns ≡ call.old.turns + slice }
        ensures globals { length globals.new ≡ length globals.old }
        ensures others { others inputs.now.valid.now globals.new ≡ others inputs.now.valid.now globals.old }
        ensures stacks { stacks.new.room ≡ stacks.old.room }
    {
        let memory = &mut self.memory;
        call.resume(args, inputs, slice, memory, globals, stacks, answer)
    }

    /// The tag of the module that it belongs to.
    pub fn module_tag(&self) -> u32
        requires { is_some self.now.holds ≡ true }
        ensures is { result ≡ own_tag kind.Memory self.now }
        ensures small { result < TAG_LIMIT }
    {
        self.is_used();
        self.tag()
    }

    // Outside its marked blocks a memory that belongs to a module is that module's. This does nothing: its contract is what the
    // type keeps.
    pub(crate) fn is_used(&self)
        requires { is_some self.now.holds ≡ true }
        ensures { Matches N.config.pages kind.Memory Awaiting (own_tag kind.Memory self.now) self.now }
    {
        let _ = &self.memory;
    }
}

impl<N: Naming> Pooled for MemSlot<N> {
    type Images = ModuleStore<N>;

    ghost own_tag = { own_tag kind.Memory };

    ghost fits = { λ s tag x. Matches N.config.pages kind.Memory s tag x };

    fn clear(&mut self) {
        self.clear();
    }

    fn restore(&mut self, images: &ModuleStore<N>) {
        self.restore(images);
    }

    fn tag(&self) -> u32 {
        match &self.holds {
            Some(own) => own.tag(),
            None => 0,
        }
    }

    ghost fits_own_tag = { fits-own_tag N.config.pages kind.Memory };
}

impl<N: Naming> OpenSlot for MemSlot<N> {
    fn open(alloc: Global, images: &ModuleStore<N>) -> Result<MemSlot<N>, Refused> {
        MemSlot::open(alloc, images).map_err(|_| Refused)
    }
}
