//! A store with its desk.
ghost use Rattle.std.specs.Prelude.{◌≡◌, ◌+◌, ◌↔◌, Ok, IfErr, IfOk, IsErrOf, OnErr};
ghost use Rattle.wasm_spec.specs.Loading.{Loads};
ghost use Rattle.pool_limits.specs.Limits.{load_limits};
ghost use Rattle.module_store.specs.Faults.{IsRefusal};
ghost use Rattle.module_store.specs.Names.{Bears};

use crate::desk::Desk;
use crate::fault::LoadFault;
use crate::naming::Naming;
use crate::opened::Opened;
use crate::reference::ModuleRef;
use crate::store::ModuleStore;
use std::alloc::Global;
use std::sync::Wait;
use wasm_values::Profile;

/// A store and its one registrar, for a caller that has both. Where other threads use the store meanwhile, its parts are lent apart.
#[derive(Drop)]
pub struct Registry<N: Naming> {
    pub store: ModuleStore<N>,
    pub desk: Desk<N>,
}

impl Opened {
    /// The store under a name, with its desk, as [`Opened::named`] gives them. Takes no memory.
    pub fn registry<N: Naming>(self) -> Registry<N>
        requires { Bears self N.shelves N.config N.most }
        ensures store { result.store ≡ N.config }
        ensures desk { result.desk.registered ≡ 0 }
        ensures most { result.desk.most ≡ N.most }
    {
        let (store, desk) = self.named::<N>();
        Registry { store, desk }
    }
}

impl<N: Naming> Registry<N> {
    /// Loads a module as [`ModuleStore::register`] does.
    ///
    /// # Errors
    ///
    /// Those of [`ModuleStore::register`]. The desk is as it was after each.
    pub fn register<R: Wait>(
        &mut self,
        rt: &R,
        alloc: Global,
        profile: Profile,
        bytes: &[u8],
    ) -> Result<ModuleRef<N>, LoadFault>
        ensures too_many { IsErrOf result LoadFault.TooMany ↔ (self.old.desk.registered ≡ self.old.desk.most) }
        ensures loaded { IfOk result (λ r. Loads profile bytes.now (load_limits N.config) (Ok r.tree)) }
        ensures tag { IfOk result (λ r. (r.tag ≡ self.old.desk.registered) × (self.new.desk.registered ≡ self.old.desk.registered + 1)) }
        ensures most { self.new.desk.most ≡ self.old.desk.most }
        ensures store { self.new.store ≡ self.old.store }
        ensures refused { IfErr result (IsRefusal profile bytes.now (load_limits N.config)) }
        ensures desk { OnErr result (self.new ≡ self.old) }
    {
        self.store
            .register(rt, alloc, &mut self.desk, profile, bytes)
    }
}
