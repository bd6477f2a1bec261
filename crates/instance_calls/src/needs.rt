//! Which slots an instance of a module has beside its ticket.
ghost use Rattle.std.specs.Prelude.{◌≡◌, false, None};
ghost use Rattle.pool_model.specs.Contents.{needs};
ghost use Rattle.pool_model.specs.declared.kinds.Kind.TheVariants.{Memory, Table};
ghost use Rattle.instance_calls.specs.Instances.{HasFreshMemory, IsFreshTable};

use module_store::{LoadedModule, Naming};

/// Whether the module has a memory. If not, an instance of it begins without one. Takes no memory.
pub fn needs_memory<N: Naming>(loaded: &LoadedModule<'_, N>) -> bool
    ensures is { result ≡ needs Memory loaded.now.module.now.tree }
    ensures none { result ≡ false → HasFreshMemory N.config loaded.now.module.now.tree None }
{
    !loaded.valid().module().memories.is_empty()
}

/// Whether the module has a table. If not, an instance of it begins without one. Takes no memory.
pub fn needs_table<N: Naming>(loaded: &LoadedModule<'_, N>) -> bool
    ensures is { result ≡ needs Table loaded.now.module.now.tree }
    ensures none { result ≡ false → IsFreshTable loaded.now.module.now.tree None }
{
    !loaded.valid().module().tables.is_empty()
}
