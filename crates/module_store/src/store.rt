//! The store of modules.
ghost use Rattle.std.specs.Prelude.{◌≡◌, ◌+◌, ◌≤◌, ◌↔◌, Ok, IfErr, IfOk, IsErrOf, IsTrue, OnErr};
ghost use Rattle.wasm_types.specs.Tree.{module_tree};
ghost use Rattle.wasm_spec.specs.Loading.{Loads};
ghost use Rattle.initial_image.specs.Image.{IsImageOf};
ghost use Rattle.pool_limits.specs.Limits.{load_limits};
ghost use Rattle.module_store.specs.Faults.{IsRefusal};
ghost use Rattle.module_store.specs.Modules.{IsLoaded};

use crate::desk::{Desk, MOST_MODULES};
use crate::fault::LoadFault;
use crate::loaded_module::Found;
use crate::loader::load;
use crate::naming::Naming;
use crate::reference::{ModuleRef, Stored};
use boxcar::Vec;
use initial_image::Image;
use pool_limits::PoolConfig;
use std::alloc::Global;
use std::marker::{Model, PhantomData};
use std::sync::Wait;
use wasm_validate::Valid;
use wasm_values::Profile;

/// Modules that threads share. Contracts see its configuration's numbers, which are those of its name.
pub struct ModuleStore<N: Naming> {
    pub(crate) modules: Vec<Box<Stored>>,
    pub(crate) config: PoolConfig,
    pub(crate) most: u32,
    pub(crate) of: PhantomData<N>,
}

impl<N: Naming> Model for ModuleStore<N> {
    ghost use Rattle.std.specs.Prelude.{◌≡◌, ◌≤◌};
    ghost use Rattle.module_store.specs.declared.desk.TheConstants.{MOST_MODULES};
    ghost use Rattle.pool_limits.specs.declared.numbers.Numbers.{Numbers};

    ghost Value = { Numbers };

    ghost view = { λ s. s.config };

    ghost invariant = { λ s. (s.modules ≡ N.shelves) × (s.config ≡ N.config) × (s.most ≡ N.most) × (s.most ≤ MOST_MODULES) };
}

impl<N: Naming> Drop for ModuleStore<N> {
    fn drop(self) {
        let ModuleStore {
            modules: _,
            config: _,
            most: _,
            of: _,
        } = self;
    }
}

// A module in a box of its own.
fn boxed(alloc: Global, stored: Stored) -> Result<Box<Stored>, LoadFault>
    ensures same { IfOk result (λ b. b.value ≡ stored) }
    ensures memory { IfErr result (λ fault. fault ≡ LoadFault.NoMemory) }
{
    Box::new(alloc, stored).map_err(|_| LoadFault::NoMemory)
}

impl<N: Naming> ModuleStore<N> {
    /// Loads the module that the bytes spell in a profile, and shows it to all threads. Other threads may look and call
    /// meanwhile.
    ///
    /// # Errors
    ///
    /// `TooMany` exactly where the desk has registered as many as it may. Then the first that applies: `Malformed`,
    /// `Unsupported`, `Invalid`, `OverLimit` and `Segment`. `NoMemory` in place of any but `TooMany`. The desk is as it was
    /// after each of them, and no module was added.
    pub fn register<R: Wait>(
        &self,
        rt: &R,
        alloc: Global,
        desk: &mut Desk<N>,
        profile: Profile,
        bytes: &[u8],
    ) -> Result<ModuleRef<N>, LoadFault>
        ensures too_many { IsErrOf result LoadFault.TooMany ↔ (desk.old.registered ≡ desk.old.most) }
        ensures loaded { IfOk result (λ r. Loads profile bytes.now (load_limits N.config) (Ok r.tree)) }
        ensures tag { IfOk result (λ r. (r.tag ≡ desk.old.registered) × (desk.new.registered ≡ desk.old.registered + 1)) }
        ensures most { desk.new.most ≡ desk.old.most }
        ensures refused { IfErr result (IsRefusal profile bytes.now (load_limits N.config)) }
        ensures desk { OnErr result (desk.new ≡ desk.old) }
    {
        if desk.counts.registered == desk.counts.most {
            return Err(LoadFault::TooMany);
        }
        let (valid, image) = load(alloc, &self.config, profile, bytes)?;
        let tag = desk.counts.registered;
        let stored = boxed(alloc, Stored { tag, valid, image })?;
        let Ok(seen) = self.modules.push_shown(rt, stored) else {
            return Err(LoadFault::NoMemory);
        };
        desk.counts.registered += 1;
        Ok(ModuleRef {
            tag,
            seen,
            of: PhantomData,
        })
    }

    /// What lies here for a reference. Takes no memory.
    pub fn find<'a>(&'a self, module: &'a ModuleRef<N>) -> Found<'a, N>
        ensures { result ≡ «module».now }
    {
        let stored: &Stored = self.modules.value(&module.seen);
        Found { module, stored }
    }

    /// The valid module of a reference. Takes no memory.
    pub fn valid(&self, module: &ModuleRef<N>) -> &Valid
        ensures code { result.now ≡ module.now.code }
        ensures tree { module_tree result.now ≡ module.now.tree }
        ensures loaded { IsLoaded N.config module.now.tree }
    {
        let loaded = self.modules.value(&module.seen);
        &loaded.valid
    }

    /// The image of a reference's module. Takes no memory.
    pub fn image(&self, module: &ModuleRef<N>) -> &Image
        ensures { IsImageOf module.now.tree result.now }
    {
        let loaded = self.modules.value(&module.seen);
        &loaded.image
    }

    /// The configuration that it was opened with. Takes no memory.
    pub fn config(&self) -> &PoolConfig
        ensures same { result.now ≡ self.now }
        ensures name { result.now ≡ N.config }
    {
        &self.config
    }

    /// How many modules it may have, by which each tag is smaller. Takes no memory.
    pub fn most(&self) -> u32
        ensures name { result ≡ N.most }
        ensures few { result ≤ MOST_MODULES }
    {
        self.most
    }

    /// Whether two references have one number. Then they show one module, under one tag. Takes no memory.
    pub fn same(&self, a: &ModuleRef<N>, b: &ModuleRef<N>) -> bool
        ensures number { IsTrue result ↔ (a.now.number ≡ b.now.number) }
        ensures module { IsTrue result → (a.now ≡ b.now) }
    {
        if a.number() != b.number() {
            return false;
        }
        self.modules.agrees(&a.seen, &b.seen);
        true
    }
}
