//! What workers that make calls in slices made, once they have ended.
ghost use Rattle.std.specs.Prelude.{◌≡◌, ◌+◌, ◌<◌, [], All, IfOk, OnOk, length};
ghost use Rattle.job_queue.specs.Passes.{IsJobPass, given_to, passes_of, put_by, share_of};
ghost use Rattle.job_queue.specs.RunPasses.{FitsWhere, HasAllRunPasses, run_capacity};
ghost use Rattle.call_jobs.specs.Entries.{AnswersAll, EndsAll};
ghost use Rattle.slice_steps.specs.Queued.{IsOfRun};
ghost use Rattle.slice_workers.specs.Crews.{HasIdle, IsSliceDone};
ghost use Rattle.slice_workers.specs.Sliced.{AreCaused, HasSlicedAll, HaveSliced, SlicedAll, WorkersHaveSliced};

use crate::crew::{SliceDone, Sliced};
use call_jobs::{Item, Worked, put_behind};
use host_edge::Gate;
use job_queue::{Admits, JobPass, RunPass, RunQueue};
use module_store::{ModuleStore, Naming};
use slice_steps::{InSlices, Queued, SliceShared, Slicer, end_call};
use std::sync::Wait;
use wasm_values::NoMemory;

// What the first worker made. The first pass of the run queue has put the idle passes of the host, and its pass is joined into that.
fn join_first<N: Naming, A: Admits<Queued<N>> + InSlices>(
    shared: &SliceShared<N>,
    queue: &RunQueue<Queued<N>, A>,
    first: &mut RunPass<Queued<N>>,
    done: SliceDone<N>,
) -> Result<Sliced<N>, NoMemory>
    requires first { HasIdle queue.now (run_capacity queue.now) first.old }
    requires done { IsSliceDone queue.now N.config shared.now A.slice done }
    ensures { IfOk result (λ sliced. HaveSliced N.config shared.now queue.now A.slice sliced.own first.new 1 sliced.entries.items) }
{
    let SliceDone { worker, made } = done;
    let Slicer { own, place, .. } = worker;
    queue.join_pass(first, place);
    let entries = made?;
    Ok(Sliced { own, entries })
}

// Joins the passes of one worker more, and puts what it made behind.
fn join_next<N: Naming, A: Admits<Queued<N>> + InSlices>(
    shared: &SliceShared<N>,
    queue: &RunQueue<Queued<N>, A>,
    first: &mut RunPass<Queued<N>>,
    sliced: &mut Sliced<N>,
    done: SliceDone<N>,
) -> Result<(), NoMemory>
    requires sliced { WorkersHaveSliced N.config shared.now queue.now A.slice sliced.old first.old }
    requires done { IsSliceDone queue.now N.config shared.now A.slice done }
    ensures sliced { OnOk result (WorkersHaveSliced N.config shared.now queue.now A.slice sliced.new first.new) }
    ensures share { OnOk result (share_of sliced.new.own ≡ share_of sliced.old.own + 1) }
{
    let SliceDone { worker, made } = done;
    let Slicer { own, place, .. } = worker;
    shared.jobs.join_pass(&mut sliced.own, own);
    queue.join_pass(first, place);
    put_behind(&mut sliced.entries, made?)
}

// Joins the passes of both queues, and what all made, those of one worker first.
pub(crate) fn join_slicers<N: Naming, A: Admits<Queued<N>> + InSlices>(
    shared: &SliceShared<N>,
    queue: &RunQueue<Queued<N>, A>,
    first: &mut RunPass<Queued<N>>,
    one: SliceDone<N>,
    mut others: Vec<SliceDone<N>>,
) -> Result<Sliced<N>, NoMemory>
    requires first { HasIdle queue.now (run_capacity queue.now) first.old }
    requires one { IsSliceDone queue.now N.config shared.now A.slice one }
    requires others { All (IsSliceDone queue.now N.config shared.now A.slice) others.items }
    ensures share { IfOk result (λ sliced. share_of sliced.own ≡ length others.items + 1) }
    ensures sliced { IfOk result (λ sliced. WorkersHaveSliced N.config shared.now queue.now A.slice sliced first.new) }
{
    let mut sliced = join_first(shared, queue, first, one)?;
    while let Some(next) = others.pop() {
        join_next(shared, queue, first, &mut sliced, next)?;
    }
    Ok(sliced)
}

// Makes the calls that still go round to their end, once all passes of the run queue are joined.
pub(crate) fn end_paused<N: Naming, A: Admits<Queued<N>> + InSlices, R: Wait, G: Gate>(
    rt: &R,
    store: &ModuleStore<N>,
    shared: &SliceShared<N>,
    queue: &RunQueue<Queued<N>, A>,
    first: &mut RunPass<Queued<N>>,
    sliced: &mut Sliced<N>,
    gate: &G,
) -> Result<(), NoMemory>
    requires whole { HasAllRunPasses queue.now first.old }
    requires sliced { WorkersHaveSliced N.config shared.now queue.now A.slice sliced.old first.old }
    requires fits { FitsWhere A.fits (IsOfRun shared.now.host shared.now.calls.items A.slice) }
    ensures all { OnOk result (SlicedAll N.config shared.now (share_of sliced.old.own) sliced.new) }
    ensures made { OnOk result (AreCaused N.Naming N.config shared.now A.slice sliced.new) }
{
    for _ in rt.forever() {
        sliced.entries.reserve(1).map_err(|_| NoMemory)?;
        match queue.next(rt, first) {
            None => return Ok(()),
            Some(Queued::Idle(_pass)) => {}
            Some(Queued::Paused(paused)) => {
                let (worked, _pass) = end_call(shared, store, paused, gate);
                sliced.entries.push_reserved(worked);
            }
        }
    }
    unreachable!()
}

/// The entries of all calls that were put, in some order, once every worker has ended. Nothing is left in the queue of calls, since each
/// worker was given a 0, and these were put behind all calls. `own` is the pass that put, and `sliced` has all others. Takes no memory.
pub fn finish_slices<N: Naming, R: Wait>(
    rt: &R,
    shared: &SliceShared<N>,
    mut own: JobPass<Item<N>>,
    sliced: Sliced<N>,
    workers: u32,
) -> Vec<Worked>
    requires own { IsJobPass shared.now.jobs own }
    requires none { given_to own ≡ [] }
    requires some { 0 < workers }
    requires ends { EndsAll (put_by own) workers }
    requires whole { share_of own + workers ≡ passes_of shared.now.jobs }
    requires sliced { HasSlicedAll N.config shared.now.jobs shared.now.calls.items sliced.own workers sliced.entries.items }
    ensures answers { AnswersAll N.config shared.now.calls.items (put_by own) result.items }
    ensures same { result.items ≡ sliced.entries.items }
{
    let Sliced {
        own: others,
        entries,
    } = sliced;
    shared.jobs.join_pass(&mut own, others);
    match shared.jobs.next(rt, &mut own) {
        None => entries,
        Some(_) => unreachable!(),
    }
}
