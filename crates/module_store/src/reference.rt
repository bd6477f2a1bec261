//! References to modules of a store.
ghost use Rattle.std.specs.Prelude.{◌≡◌, ◌<◌};

use crate::desk::MOST_MODULES;
use crate::naming::Naming;
use boxcar::Pushed;
use initial_image::Image;
use std::marker::{Model, PhantomData};
use wasm_validate::Valid;

// A module as it lies in the store.
pub(crate) struct Stored {
    pub tag: u32,
    pub valid: Valid,
    pub image: Image,
}

impl Drop for Stored {
    fn drop(self) {
        let Stored {
            tag: _,
            valid: _,
            image: _,
        } = self;
    }
}

/// A module of the store. Contracts see its number, its tag, its tree and the code by which it is run.
pub struct ModuleRef<N: Naming> {
    pub(crate) tag: u32,
    pub(crate) seen: Pushed<Box<Stored>>,
    pub(crate) of: PhantomData<N>,
}

impl<N: Naming> Model for ModuleRef<N> {
    ghost use Rattle.pool_model.specs.Contents.{Named};
    ghost use Rattle.pool_model.specs.Codes.{coded_named};

    ghost Value = { Named };

    ghost coded = { coded_named };

    ghost use Rattle.boxcar.specs.Table.{Shows};
    ghost use Rattle.wasm_types.specs.Tree.{module_tree};
    ghost use Rattle.module_store.specs.Modules.{IsKeptModule};

    ghost view = { λ r. record { number = r.seen.index; tag = r.tag; tree = module_tree r.seen.value.value.valid; code = r.seen.value.value.valid } };

    ghost invariant = { λ r. Shows N.shelves r.seen × IsKeptModule N.config N.most r.tag r.seen.value.value };
}

impl<N: Naming> Drop for ModuleRef<N> {
    fn drop(self) {
        let ModuleRef {
            tag: _,
            seen: _,
            of: _,
        } = self;
    }
}

impl<N: Naming> ModuleRef<N> {
    /// The module's number: its place in the store. Takes no memory.
    pub fn number(&self) -> usize
        ensures { result ≡ self.now.number }
    {
        self.seen.index()
    }

    /// How many modules the desk had registered before it. Takes no memory.
    pub fn tag(&self) -> u32
        ensures tag { result ≡ self.now.tag }
        ensures within { result < N.most }
        ensures small { result < MOST_MODULES }
    {
        self.tag
    }

    /// Another reference to the same module. Takes no memory.
    pub fn again(&self) -> ModuleRef<N>
        ensures { result ≡ self.now }
    {
        ModuleRef {
            tag: self.tag,
            seen: self.seen.again(),
            of: PhantomData,
        }
    }
}
