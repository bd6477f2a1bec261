//! Tables in slots, and the modules that they belong to.
ghost use Rattle.std.specs.Prelude.{◌≡◌, ◌≤◌, true, is_some, IfOk, length, max, vec_capacity};
ghost use Rattle.pool_core.specs.declared.words.State.TheVariants.{Warm};
ghost use Rattle.pool_model.specs.Contents.{prepared, restored, IsCold, IsTableOf, Matches};
ghost use Rattle.pool_model.specs.declared.kinds.Kind.TheVariants.{Table};
ghost use Rattle.pool_model.specs.OwnTags.{own_tag, fits-own_tag};

use initial_image::{table_length, write_table};
use module_store::{LoadedModule, ModuleRef, ModuleStore, Naming};
use slot_pools::OpenSlot;
use slot_words::{NoMemory as Refused, Pooled};
use std::alloc::Global;
use std::marker::Model;
use wasm_values::NoMemory;

/// A table that lies in a slot, with room for the configured elements, of which those are written that a module had so far. No run
/// writes to a table, so its entries are those of its own module. Contracts see its contents.
pub struct TableSlot<N: Naming> {
    entries: Vec<Option<u32>>,
    // How many of the entries are the table's.
    count: usize,
    holds: Option<ModuleRef<N>>,
}

impl<N: Naming> Model for TableSlot<N> {
    ghost use Rattle.std.specs.Prelude.{◌≤◌, take, vec_capacity};
    ghost use Rattle.pool_model.specs.Contents.{TableContents};
    ghost use Rattle.pool_model.specs.Codes.{coded_table};
    ghost use Rattle.table_slots.specs.Kept.{IsKeptTable};

    ghost Value = { TableContents };

    ghost coded = { coded_table };

    ghost view = { λ s. record { entries = take s.count s.entries.items; holds = s.holds } };

    ghost invariant = { λ s. IsKeptTable N.config s.entries.items s.count s.holds × (N.config.elements ≤ vec_capacity s.entries) };
}

impl<N: Naming> Drop for TableSlot<N> {
    fn drop(self) {
        let TableSlot {
            entries: _,
            count: _,
            holds: _,
        } = self;
    }
}

// Appends empty entries up to so many, for which there is room. Where there are as many, none.
fn reach(entries: &mut Vec<Option<u32>>, count: usize)
    requires { count ≤ vec_capacity entries.old }
    ensures reached { count ≤ length entries.new.items }
    ensures within { length entries.new.items ≤ max count (length entries.old.items) }
    ensures capacity { vec_capacity entries.old ≤ vec_capacity entries.new }
{
    if count > entries.len() {
        entries.resize(count, None).unwrap();
    }
}

impl<N: Naming> TableSlot<N> {
    /// A cold table.
    ///
    /// # Errors
    ///
    /// `NoMemory` where memory is refused.
    pub fn open(alloc: Global, store: &ModuleStore<N>) -> Result<TableSlot<N>, NoMemory>
        ensures { IfOk result (IsCold N.config.pages Table) }
    {
        let room = store.config().numbers().elements as usize;
        let Ok(entries) = Vec::with_capacity(alloc, room) else {
            return Err(NoMemory);
        };
        Ok(TableSlot {
            entries,
            count: 0,
            holds: None,
        })
    }

    /// Makes it the module's fresh table. Where it belongs to that module already, nothing is written. Takes no memory.
    pub fn prepare(&mut self, loaded: &LoadedModule<'_, N>)
        ensures prepared { self.new ≡ prepared N.config.pages loaded.now.module.now Table self.old }
        ensures table { IsTableOf self.new loaded.now.module.now }
    {
        if let Some(own) = &self.holds {
            if loaded.store.same(own, loaded.module) {
                return;
            }
        }
        self.write(loaded);
    }

    // Writes the module's table over what is there.
    fn write(&mut self, loaded: &LoadedModule<'_, N>)
        ensures { IsTableOf self.new loaded.now.module.now }
    {
        // A module of the store has no larger table than the configuration allows.
        let valid = loaded.valid();
        reach(&mut self.entries, table_length(valid));
        self.count = write_table(valid, &mut self.entries);
        self.holds = Some(loaded.module.again());
    }

    /// Makes it the fresh table of its own module, if it has one: it is that already. Takes no memory.
    pub fn restore(&mut self, _store: &ModuleStore<N>)
        ensures { self.new ≡ restored N.config.pages Table self.old }
    {}

    /// Makes it cold. Takes no memory.
    pub fn clear(&mut self)
        ensures { IsCold N.config.pages Table self.new }
    {
        self.count = 0;
        self.holds = None;
    }

    /// A function's index or nothing for each element of the table. Takes no memory.
    pub fn entries(&self) -> &[Option<u32>]
        ensures { result.now ≡ self.now.entries }
    {
        &self.entries[..self.count]
    }

    // A table that belongs to a module is that module's. This does nothing: its contract is what the type keeps.
    pub(crate) fn is_its_modules(&self)
        requires { is_some self.now.holds ≡ true }
        ensures { Matches N.config.pages Table Warm (own_tag Table self.now) self.now }
    {
        let _ = &self.holds;
    }
}

impl<N: Naming> Pooled for TableSlot<N> {
    type Images = ModuleStore<N>;

    ghost own_tag = { own_tag Table };

    ghost fits = { λ s tag x. Matches N.config.pages Table s tag x };

    fn clear(&mut self) {
        self.clear();
    }

    fn restore(&mut self, images: &ModuleStore<N>) {
        self.restore(images);
    }

    fn tag(&self) -> u32 {
        match &self.holds {
            Some(own) => own.tag(),
            None => 0,
        }
    }

    ghost fits_own_tag = { fits-own_tag N.config.pages Table };
}

impl<N: Naming> OpenSlot for TableSlot<N> {
    fn open(alloc: Global, images: &ModuleStore<N>) -> Result<TableSlot<N>, Refused> {
        TableSlot::open(alloc, images).map_err(|_| Refused)
    }
}
