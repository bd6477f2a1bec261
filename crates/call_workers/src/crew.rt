//! Workers that work side by side.
ghost use Rattle.std.specs.Prelude.{◌≡◌, ◌+◌, ◌≤◌, ℕ, All, IfOk, length};
ghost use Rattle.std.specs.List.{AllZip};
ghost use Rattle.job_queue.specs.Passes.{count_of, first_of};
ghost use Rattle.call_jobs.specs.Entries.{AreNumbered, IsOfTenants};
ghost use Rattle.call_workers.specs.Crews.{DoneKnows, HasEnded, IsDone, IsNewCrew, IsNewWorker, WorkerKnows};

use crate::members::{Crew, Done, Worker};
use crate::shared::Shared;
use crate::work_loop::work;
use call_jobs::{Due, Item};
use host_edge::Gate;
use job_queue::Jobs;
use module_store::{ModuleStore, Naming};
use pool_host::MOST_PASSES;
use std::alloc::Global;
use std::sync::Wait;
use std::thread::{self, Threads};
use tenant_share::{Plan, ShareHost};
use wasm_values::NoMemory;

/// The tenants' hosts of this plan for these calls, with a caller for each of so many workers, who has a pass of each tenant.
///
/// # Errors
///
/// `NoMemory` where memory is refused.
pub fn open_crew<N: Naming>(
    alloc: Global,
    store: &ModuleStore<N>,
    plan: &Plan,
    calls: Vec<Due>,
    count: u32,
) -> Result<Crew<N>, NoMemory>
    requires plan { plan.now.0 ≡ N.config }
    requires count { (1 ≤ count) × (count ≤ MOST_PASSES) }
    requires numbered { AreNumbered calls.items }
    requires tenants { All (IsOfTenants (length plan.now.1)) calls.items }
    ensures { IfOk result (IsNewCrew plan.now.1 calls.items count) }
{
    let (share, callers) = ShareHost::open_for(alloc, store, plan, count)?;
    let shared = Shared { share, calls };
    Ok(Crew { shared, callers })
}

// The work of one worker, whose passes are given back with what it made.
fn work_one<N: Naming, R: Wait, G: Gate>(
    rt: &R,
    alloc: Global,
    store: &ModuleStore<N>,
    shared: &Shared<N>,
    jobs: &Jobs<Item<N>>,
    mut worker: Worker<N>,
    gate: &G,
) -> Done<N>
    requires worker { IsNewWorker shared.now.share jobs.now worker }
    requires numbers { first_of jobs.now + count_of jobs.now ≤ length shared.now.calls.items + 1 }
    ensures { IsDone N.config shared.now jobs.now worker result }
{
    let Worker { caller, own } = &mut worker;
    let Shared { share, calls } = shared;
    let made = work(rt, alloc, share, caller, store, jobs, own, calls, gate);
    Done { worker, made }
}

/// Each worker works in a thread of its own, where one can be had; all have ended when they are given back.
///
/// # Errors
///
/// `NoMemory` where memory is refused.
pub fn work_all<N: Naming + Send + Sync, R: Threads + Wait + Sync, G: Gate>(
    rt: &R,
    alloc: Global,
    store: &ModuleStore<N>,
    shared: &Shared<N>,
    jobs: &Jobs<Item<N>>,
    workers: Vec<Worker<N>>,
    gate: &G,
) -> Result<Vec<Done<N>>, NoMemory>
    requires workers { All (IsNewWorker shared.now.share jobs.now) workers.items }
    requires numbers { first_of jobs.now + count_of jobs.now ≤ length shared.now.calls.items + 1 }
    ensures done { IfOk result (λ done. AllZip (IsDone N.config shared.now jobs.now) workers.items done.items) }
    ensures ended { IfOk result (λ done. All (HasEnded N.config shared.now jobs.now) done.items) }
    ensures known { IfOk result (λ done. (tag : ℕ) → All (WorkerKnows tag) workers.items → All (DoneKnows tag) done.items) }
    ensures count { IfOk result (λ done. length done.items ≡ length workers.items) }
{
    let done = thread::map_vec(
        rt,
        workers,
        &|worker| -> Done<N>
            requires worker { IsNewWorker shared.now.share jobs.now worker }
            requires numbers { first_of jobs.now + count_of jobs.now ≤ length shared.now.calls.items + 1 }
            ensures { IsDone N.config shared.entry.now jobs.entry.now worker result }
        { work_one(rt, alloc, store, shared, jobs, worker, gate) },
    );
    done.map_err(|_| NoMemory)
}
