//! Modules that were looked up in their store.
ghost use Rattle.std.specs.Prelude.{◌≡◌};
ghost use Rattle.std.specs.Coded.{Coded-set};
ghost use Rattle.wasm_types.specs.Tree.{module_tree};
ghost use Rattle.initial_image.specs.Image.{IsImageOf};
ghost use Rattle.pool_model.specs.Codes.{coded_named};
ghost use Rattle.module_store.specs.Modules.{IsLoaded};

use crate::naming::Naming;
use crate::reference::{ModuleRef, Stored};
use crate::store::ModuleStore;
use initial_image::Image;
use std::marker::Model;
use wasm_validate::Valid;

/// What lies in a store for a reference: the validated module, and its image. Contracts see the module as its reference shows it.
pub struct Found<'a, N: Naming> {
    pub(crate) module: &'a ModuleRef<N>,
    pub(crate) stored: &'a Stored,
}

impl<'a, N: Naming> Model for Found<'a, N> {
    ghost use Rattle.pool_model.specs.Contents.{Named};
    ghost use Rattle.pool_model.specs.Codes.{coded_named};

    ghost Value = { Named };

    ghost coded = { coded_named };

    ghost use Rattle.module_store.specs.Modules.{IsFound};

    ghost view = { λ f. f.module.now };

    ghost invariant = { λ f. IsFound N.config f.module.now f.stored.now };
}

impl<N: Naming> Drop for Found<'_, N> {
    fn drop(self) {
        let Found {
            module: _,
            stored: _,
        } = self;
    }
}

/// A module that was looked up once for all that a call does with it: its store, its reference, and what lies there for it.
pub struct LoadedModule<'a, N: Naming> {
    pub store: &'a ModuleStore<N>,
    pub module: &'a ModuleRef<N>,
    pub found: Found<'a, N>,
    ghost same: { found ≡ «module».now } by { Coded-set coded_named found «module».now },
}

impl<N: Naming> Drop for LoadedModule<'_, N> {
    fn drop(self) {
        let LoadedModule {
            store: _,
            module: _,
            found: _,
        } = self;
    }
}

impl<'a, N: Naming> Found<'a, N> {
    fn valid(&self) -> &'a Valid
        ensures code { result.now ≡ self.now.code }
        ensures tree { module_tree result.now ≡ self.now.tree }
        ensures loaded { IsLoaded N.config self.now.tree }
    {
        &self.stored.valid
    }

    fn image(&self) -> &'a Image
        ensures image { IsImageOf self.now.tree result.now }
        ensures loaded { IsLoaded N.config self.now.tree }
    {
        &self.stored.image
    }
}

impl<'a, N: Naming> LoadedModule<'a, N> {
    /// The valid module. Takes no memory.
    pub fn valid(&self) -> &'a Valid
        ensures code { result.now ≡ self.now.module.now.code }
        ensures tree { module_tree result.now ≡ self.now.module.now.tree }
        ensures loaded { IsLoaded N.config self.now.module.now.tree }
    {
        self.found.valid()
    }

    /// Its image. Takes no memory.
    pub fn image(&self) -> &'a Image
        ensures image { IsImageOf self.now.module.now.tree result.now }
        ensures loaded { IsLoaded N.config self.now.module.now.tree }
    {
        self.found.image()
    }
}
