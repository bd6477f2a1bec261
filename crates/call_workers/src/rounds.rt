//! Rounds of calls, each with a queue of its own.
ghost use Rattle.std.specs.Prelude.{◌≡◌, ◌+◌, ◌^◌, ◌≤◌, ℕ, All, IfOk, length, min};
ghost use Rattle.job_queue.specs.Passes.{IsNewTakerOf};
ghost use Rattle.tenant_share.specs.Retiring.{CallerKnows};
ghost use Rattle.tenant_share.specs.Tenants.{IsCaller};
ghost use Rattle.call_workers.specs.Crews.{IsNewRound, IsNewWorker, StillKnow, WorkerKnows};

use crate::members::{Round, Worker};
use crate::shared::Shared;
use call_jobs::Item;
use job_queue::{JobPass, Jobs};
use module_store::Naming;
use pool_host::MOST_PASSES;
use std::alloc::Global;
use tenant_share::Caller;
use wasm_values::NoMemory;

// A worker for each of these passes of a round's queue, with one of the callers. The others stay.
fn staff<N: Naming>(
    alloc: Global,
    shared: &Shared<N>,
    jobs: &Jobs<Item<N>>,
    mut takers: Vec<JobPass<Item<N>>>,
    callers: &mut Vec<Caller<N>>,
) -> Result<Vec<Worker<N>>, NoMemory>
    requires takers { All (IsNewTakerOf jobs.now) takers.items }
    requires callers { All (IsCaller shared.now.share) callers.old.items }
    requires enough { length takers.items ≤ length callers.old.items }
    ensures callers { All (IsCaller shared.now.share) callers.new.items }
    ensures still { StillKnow callers.old.items callers.new.items }
    ensures known { IfOk result (λ workers. (tag : ℕ) → All (CallerKnows tag) callers.old.items → All (WorkerKnows tag) workers.items) }
    ensures workers { IfOk result (λ workers. All (IsNewWorker shared.now.share jobs.now) workers.items) }
    ensures many { IfOk result (λ workers. length workers.items ≡ length takers.items) }
    ensures rest { IfOk result (λ workers. length callers.new.items + length workers.items ≡ length callers.old.items) }
{
    let mut workers = Vec::with_capacity(alloc, takers.len()).map_err(|_| NoMemory)?;
    while let Some(own) = takers.pop() {
        let caller = callers.pop().unwrap();
        workers.push_reserved(Worker { caller, own });
    }
    Ok(workers)
}

/// A round for so many calls, which are numbered from `first` on, with as many of the callers as it has calls, if there are so many.
/// The others stay.
///
/// # Errors
///
/// `NoMemory` where memory is refused.
pub fn open_round<N: Naming>(
    alloc: Global,
    shared: &Shared<N>,
    callers: &mut Vec<Caller<N>>,
    first: u32,
    count: u32,
) -> Result<Round<N>, NoMemory>
    requires callers { All (IsCaller shared.now.share) callers.old.items }
    requires few { (1 ≤ length callers.old.items) × (length callers.old.items ≤ MOST_PASSES) }
    requires some { 1 ≤ count }
    requires first { 1 ≤ first }
    requires numbers { first + count ≤ 2 ^ 32 }
    ensures callers { All (IsCaller shared.now.share) callers.new.items }
    ensures still { StillKnow callers.old.items callers.new.items }
    ensures known { IfOk result (λ round. (tag : ℕ) → All (CallerKnows tag) callers.old.items → All (WorkerKnows tag) round.workers.items) }
    ensures round { IfOk result (IsNewRound shared.now.share first count (min count (length callers.old.items))) }
    ensures rest { IfOk result (λ round. length callers.new.items + length round.workers.items ≡ length callers.old.items) }
{
    let many = count.min(callers.len() as u32);
    let (jobs, putter, takers) = Jobs::open(alloc, first, count, many)?;
    let workers = staff(alloc, shared, &jobs, takers, callers)?;
    Ok(Round {
        jobs,
        putter,
        workers,
    })
}
