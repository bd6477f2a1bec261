//! The two hosts of a run: the lane's, and the one that several workers share.
ghost use Rattle.std.specs.Prelude.{[], ◌≡◌, ◌≢◌, ◌+◌, ◌^◌, ◌<◌, ◌≤◌, All, IfOk, None, length};
ghost use Rattle.call_jobs.specs.Entries.{AreNumbered, IsOfTenants};
ghost use Rattle.call_workers.specs.Crews.{IsNewCrew};
ghost use Rattle.slice_workers.specs.Crews.{IsNewSliceCrew};
ghost use Rattle.pool_host.specs.Hosts.{HasShare, IsNewHostPass, IsShare};
ghost use Rattle.pool_limits.specs.Plans.{plan_fault};
ghost use Rattle.tenant_share.specs.Shares.{shares};
ghost use Rattle.pool_limits.specs.Shares.{lane_share as lane_slots, shared_share as shared_slots};

use call_jobs::Due;
use call_workers::{Crew, open_crew};
use module_store::{ModuleStore, Naming};
use pool_host::LaneHost;
use pool_limits::laws::wants_are_met_or_one_is_at_fault;
use pool_limits::{PlanFault, Share, Want};
use slice_workers::{SliceCrew, open_slice_crew};
use std::alloc::Global;
use tenant_share::Plan;
use wasm_values::NoMemory;

// How many workers are configured.
pub(crate) fn worker_count<N: Naming>(store: &ModuleStore<N>) -> u32
    ensures { result ≡ N.config.workers }
{
    store.config().numbers().workers
}

// The lane's slots.
fn lane_share<N: Naming>(store: &ModuleStore<N>) -> Share
    ensures share { IsShare result }
    ensures slots { result ≡ lane_slots N.config }
{
    let config = store.config();
    // The numbers of a configuration are in range.
    let _numbers = config.numbers();
    config.lane_share()
}

// The slots that several workers share.
fn shared_share<N: Naming>(store: &ModuleStore<N>) -> Share
    requires { N.config.workers ≢ 1 }
    ensures share { IsShare result }
    ensures slots { result ≡ shared_slots N.config }
{
    let config = store.config();
    // The numbers of a configuration are in range.
    let _numbers = config.numbers();
    config.shared_share()
}

// The lane, on its slots.
pub(crate) fn open_lane<N: Naming>(
    alloc: Global,
    store: &ModuleStore<N>,
) -> Result<LaneHost<N>, NoMemory>
    ensures share { IfOk result (λ lane. HasShare N.config.warm (lane_slots N.config) lane.host) }
    ensures new { IfOk result (λ lane. IsNewHostPass lane.host lane.pass) }
{
    LaneHost::open(alloc, store, lane_share(store))
}

// What each tenant has of the slots that several workers share.
fn plan_for<N: Naming>(
    alloc: Global,
    store: &ModuleStore<N>,
    wants: &[Want],
) -> Result<Plan, NoMemory>
    requires { plan_fault N.config wants.now ≡ None }
    ensures { IfOk result (λ plan. plan ≡ (N.config, shares N.config wants.now)) }
{
    match Plan::new(alloc, store.config(), wants) {
        Ok(plan) => Ok(plan),
        Err(PlanFault::NoMemory) => Err(NoMemory),
        Err(_) => unreachable!(),
    }
}

// As many workers as are configured, over the hosts of tenants that want this, for these calls.
pub(crate) fn open_workers<N: Naming>(
    alloc: Global,
    store: &ModuleStore<N>,
    wants: &[Want],
    calls: Vec<Due>,
) -> Result<Crew<N>, NoMemory>
    requires several { N.config.workers ≢ 1 }
    requires plan { (plan_fault N.config [] ≡ None) → plan_fault N.config wants.now ≡ None }
    requires numbered { AreNumbered calls.items }
    requires tenants { All (IsOfTenants (1 + length wants.now)) calls.items }
    ensures crew { IfOk result (IsNewCrew (shares N.config wants.now) calls.items N.config.workers) }
    ensures some { (0 < N.config.workers) × (N.config.workers ≤ 16) }
{
    wants_are_met_or_one_is_at_fault();
    let workers = store.config().numbers().workers;
    let plan = plan_for(alloc, store, wants)?;
    open_crew(alloc, store, &plan, calls, workers)
}

// As many workers as are configured, which make these calls in slices on the host that they share.
pub(crate) fn open_slicers<N: Naming>(
    alloc: Global,
    store: &ModuleStore<N>,
    calls: Vec<Due>,
) -> Result<SliceCrew<N>, NoMemory>
    requires several { N.config.workers ≢ 1 }
    requires numbered { AreNumbered calls.items }
    requires few { length calls.items < 2 ^ 32 }
    ensures crew { IfOk result (IsNewSliceCrew N.config (shared_slots N.config) calls.items N.config.workers) }
    ensures some { (0 < N.config.workers) × (N.config.workers ≤ 16) }
{
    let workers = store.config().numbers().workers;
    open_slice_crew(alloc, store, shared_share(store), calls, workers)
}
