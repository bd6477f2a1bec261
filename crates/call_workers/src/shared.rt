//! What workers share.
ghost use Rattle.std.specs.Prelude.{All};
ghost use Rattle.tenant_share.specs.Tenants.{tenants_of};
ghost use Rattle.call_jobs.specs.Entries.{AreNumbered, IsOfTenants};

use call_jobs::Due;
use module_store::Naming;
use tenant_share::ShareHost;

/// What workers share in all rounds: the tenants' hosts on which they make calls, and the calls of a file, numbered from 1.
#[derive(Drop)]
pub struct Shared<N: Naming> {
    pub share: ShareHost<N>,
    pub calls: Vec<Due>,
    ghost numbered: { AreNumbered calls.items },
    ghost tenants: { All (IsOfTenants (tenants_of share)) calls.items },
}
