//! Modules are retired between rounds.
ghost use Rattle.std.specs.Prelude.{All};
ghost use Rattle.std.specs.List.{AllZip};
ghost use Rattle.tenant_share.specs.Retiring.{CallerKnows, RetiredForAll};
ghost use Rattle.tenant_share.specs.Tenants.{IsCaller};
ghost use Rattle.call_workers.specs.Crews.{StillKnow};

use crate::shared::Shared;
use module_store::{ModuleRef, ModuleStore, Naming};
use tenant_share::Caller;

/// Retires a module with each caller's pass of each tenant. Each of these passes knows it from then on.
pub fn retire_for_each<N: Naming>(
    shared: &Shared<N>,
    callers: &mut Vec<Caller<N>>,
    store: &ModuleStore<N>,
    module: &ModuleRef<N>,
)
    requires callers { All (IsCaller shared.now.share) callers.old.items }
    ensures callers { All (IsCaller shared.now.share) callers.new.items }
    ensures known { All (CallerKnows «module».now.tag) callers.new.items }
    ensures still { StillKnow callers.old.items callers.new.items }
    ensures retired { AllZip (RetiredForAll shared.now.share «module».now) callers.old.items callers.new.items }
{
    for caller in callers.iter_mut() {
        shared.share.retire_for_all(caller, store, module);
    }
}
