//! What all workers of a round made, once they have ended.
ghost use Rattle.std.specs.Prelude.{◌≡◌, ◌+◌, ◌<◌, ℕ, [], All, IfOk, length};
ghost use Rattle.job_queue.specs.Passes.{IsJobPass, given_to, passes_of, put_by, share_of};
ghost use Rattle.tenant_share.specs.Retiring.{CallerKnows};
ghost use Rattle.tenant_share.specs.Tenants.{IsCaller};
ghost use Rattle.call_jobs.specs.Entries.{AnswersAll, EndsAll};
ghost use Rattle.call_workers.specs.Crews.{DoneKnows, HasEnded, HasJoined, given_back};

use crate::members::{Done, Worker};
use crate::shared::Shared;
use call_jobs::{Item, Worked, put_behind};
use job_queue::{JobPass, Jobs};
use module_store::Naming;
use std::alloc::Global;
use std::sync::Wait;
use tenant_share::Caller;
use wasm_values::NoMemory;

// Joins the workers' passes of the queue into this one, puts their callers back to the others, and gives what all made.
fn join_all<N: Naming>(
    alloc: Global,
    shared: &Shared<N>,
    jobs: &Jobs<Item<N>>,
    own: &mut JobPass<Item<N>>,
    callers: &mut Vec<Caller<N>>,
    mut done: Vec<Done<N>>,
) -> Result<Vec<Worked>, NoMemory>
    requires own { IsJobPass jobs.now own.old }
    requires none { given_to own.old ≡ [] }
    requires callers { All (IsCaller shared.now.share) callers.old.items }
    requires done { All (HasEnded N.config shared.now jobs.now) done.items }
    ensures callers { All (IsCaller shared.now.share) callers.new.items }
    ensures known { IfOk result (λ _. (tag : ℕ) → All (CallerKnows tag) callers.old.items → All (DoneKnows tag) done.items
        → All (CallerKnows tag) callers.new.items) }
    ensures back { IfOk result (λ _. length callers.new.items ≡ length callers.old.items + length done.items) }
    ensures entries { IfOk result (λ entries. HasJoined N.config jobs.now shared.now.calls.items own.old own.new (length done.items) entries.items) }
    ensures given { IfOk result (λ entries. entries.items ≡ given_back done.items) }
{
    let mut entries = Vec::new(alloc);
    while let Some(one) = done.pop() {
        let Done { worker, made } = one;
        let Worker { caller, own: taker } = worker;
        jobs.join_pass(own, taker);
        put_behind(&mut entries, made?)?;
        callers.reserve(1).map_err(|_| NoMemory)?;
        callers.push_reserved(caller);
    }
    Ok(entries)
}

/// The entries of all calls of the round that were put, once every worker has ended, whose callers are put back to the others. Nothing
/// is left in the queue, since each worker was given a 0, and these were put behind all calls. `own` is the pass that put, and `done` has
/// all others.
///
/// # Errors
///
/// `NoMemory` where memory is refused, here or to a worker. Callers may then be lost.
pub fn finish<N: Naming, R: Wait>(
    rt: &R,
    alloc: Global,
    shared: &Shared<N>,
    jobs: &Jobs<Item<N>>,
    mut own: JobPass<Item<N>>,
    callers: &mut Vec<Caller<N>>,
    done: Vec<Done<N>>,
) -> Result<Vec<Worked>, NoMemory>
    requires own { IsJobPass jobs.now own }
    requires none { given_to own ≡ [] }
    requires some { 0 < length done.items }
    requires ends { EndsAll (put_by own) (length done.items) }
    requires whole { share_of own + length done.items ≡ passes_of jobs.now }
    requires done { All (HasEnded N.config shared.now jobs.now) done.items }
    requires callers { All (IsCaller shared.now.share) callers.old.items }
    ensures callers { All (IsCaller shared.now.share) callers.new.items }
    ensures known { IfOk result (λ _. (tag : ℕ) → All (CallerKnows tag) callers.old.items → All (DoneKnows tag) done.items
        → All (CallerKnows tag) callers.new.items) }
    ensures back { IfOk result (λ _. length callers.new.items ≡ length callers.old.items + length done.items) }
    ensures entries { IfOk result (λ entries. AnswersAll N.config shared.now.calls.items (put_by own) entries.items) }
    ensures given { IfOk result (λ entries. entries.items ≡ given_back done.items) }
{
    let entries = join_all(alloc, shared, jobs, &mut own, callers, done)?;
    match jobs.next(rt, &mut own) {
        None => Ok(entries),
        Some(_) => unreachable!(),
    }
}
