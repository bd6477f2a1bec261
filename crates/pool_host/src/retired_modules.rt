//! The retired modules of a host: the bit of a module is read and set.
ghost use Rattle.std.specs.Prelude.{◌≡◌, ◌≤◌, IfOk, Some, length, true};
ghost use Rattle.std.specs.List.{All};
ghost use Rattle.retired_tags.specs.Passes.{IsNewTagPass, IsTagPass, passes_of, steps};
ghost use Rattle.retired_tags.specs.Steps.{Knows};
ghost use Rattle.pool_host.specs.Looks.{Looked, SetsBit};

use module_store::{ModuleRef, ModuleStore, Naming};
use retired_tags::{RetiredTags, TagPass};
use std::alloc::Global;
use std::marker::{Model, PhantomData};
use wasm_values::NoMemory;

// The bits, as contracts see them.
#[derive(Drop)]
pub(crate) struct Bits {
    pub tags: RetiredTags,
}

// A bit for the tag of each module that the store may have.
#[derive(Drop)]
pub(crate) struct RetiredModules<N: Naming> {
    pub(crate) bits: Bits,
    of: PhantomData<N>,
}

impl<N: Naming> Model for RetiredModules<N> {
    ghost use Rattle.std.specs.Prelude.{◌≤◌};
    ghost use Rattle.retired_tags.specs.Passes.{tags_of};
    ghost use Rattle.pool_host.specs.declared.retired_modules.Bits.{Bits};

    ghost Value = { Bits };

    ghost view = { λ r. r.bits };

    ghost invariant = { λ r. N.most ≤ tags_of r.bits.tags };
}

impl<N: Naming> RetiredModules<N> {
    // No module is retired, and there are as many passes as are asked for.
    pub(crate) fn open(
        alloc: Global,
        store: &ModuleStore<N>,
        passes: u32,
    ) -> Result<(RetiredModules<N>, Vec<TagPass>), NoMemory>
        requires { 1 ≤ passes }
        ensures count { IfOk result (λ o. passes_of o.0.tags ≡ passes) }
        ensures passes { IfOk result (λ o. (length o.1.items ≡ passes) × All (IsNewTagPass o.0.tags) o.1.items) }
    {
        // a bit is the least
        let many = store.most().max(1);
        let (tags, all) = RetiredTags::open(alloc, many, passes).map_err(|_| NoMemory)?;
        let retired = RetiredModules {
            bits: Bits { tags },
            of: PhantomData,
        };
        Ok((retired, all))
    }

    // Whether a module is retired, by one look.
    pub(crate) fn look(&self, pass: &mut TagPass, module: &ModuleRef<N>) -> bool
        requires { IsTagPass self.now.tags pass.old }
        ensures own { IsTagPass self.now.tags pass.new }
        ensures looked { Looked self.now.tags «module».now.tag pass.old pass.new (Some result) }
    {
        self.bits.tags.is_retired(pass, module.tag())
    }

    // Retires a module by one step, and tells whether it was retired before.
    pub(crate) fn retire(&self, pass: &mut TagPass, module: &ModuleRef<N>) -> bool
        requires { IsTagPass self.now.tags pass.old }
        ensures own { IsTagPass self.now.tags pass.new }
        ensures bit { SetsBit self.now.tags «module».now.tag pass.old pass.new result }
        ensures known { Knows «module».now.tag (steps pass.new) }
        ensures before { Knows «module».now.tag (steps pass.old) → result ≡ true }
    {
        self.bits.tags.retire(pass, module.tag())
    }
}
