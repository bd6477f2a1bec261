//! Workers that make calls in slices, side by side.
ghost use Rattle.std.specs.Prelude.{◌≡◌, ◌*◌, ◌^◌, ◌<◌, ◌≤◌, false, All, IfOk, length};
ghost use Rattle.job_queue.specs.Passes.{IsNewPassOf};
ghost use Rattle.job_queue.specs.RunPasses.{FitsWhere, IsFirstRunPass, IsNewRunPass, run_capacity};
ghost use Rattle.pool_host.specs.Hosts.{IsHostPass, IsShare};
ghost use Rattle.call_jobs.specs.Entries.{AreNumbered};
ghost use Rattle.slice_steps.specs.Queued.{IsOfRun, NamesRun};
ghost use Rattle.slice_workers.specs.Crews.{HasIdle, IsNewSliceCrew, IsNewSlicer, IsSliceDone};
ghost use Rattle.slice_workers.specs.Sliced.{AreCaused, SlicedAll};

use crate::ends::{end_paused, join_slicers};
use call_jobs::{Due, Item, Worked};
use host_edge::Gate;
use job_queue::{Admits, JobPass, Jobs, RunPass, RunQueue};
use module_store::{ModuleStore, Naming};
use pool_host::{Host, HostPass, MOST_PASSES};
use pool_limits::Share;
use slice_steps::{InRun, InSlices, Queued, RunNaming, SliceShared, Slicer, work_in_slices};
use std::alloc::Global;
use std::marker::Brand;
use std::sync::Wait;
use std::thread::{self, Threads};
use wasm_values::NoMemory;

/// Workers that have not begun: what they share, the pass that puts their calls, their passes of the queue of these, and the passes of
/// the host that go round among them.
#[derive(Drop)]
pub struct SliceCrew<N: Naming> {
    pub shared: SliceShared<N>,
    pub putter: JobPass<Item<N>>,
    pub takers: Vec<JobPass<Item<N>>>,
    pub passes: Vec<HostPass<N>>,
}

/// What the workers did: their passes of the queue of calls, joined into one, and an entry for each call.
#[derive(Drop)]
pub struct Sliced<N: Naming> {
    pub own: JobPass<Item<N>>,
    pub entries: Vec<Worked>,
}

// What a worker gives back: its passes, and what it made.
#[derive(Drop)]
pub(crate) struct SliceDone<N: Naming> {
    pub worker: Slicer<N>,
    pub made: Result<Vec<Worked>, NoMemory>,
}

/// So many workers over a host with these slots, with two passes of the host for each, and a queue for these calls.
///
/// # Errors
///
/// `NoMemory` where memory is refused.
pub fn open_slice_crew<N: Naming>(
    alloc: Global,
    store: &ModuleStore<N>,
    share: Share,
    calls: Vec<Due>,
    count: u32,
) -> Result<SliceCrew<N>, NoMemory>
    requires share { IsShare share }
    requires count { (1 ≤ count) × (2 * count ≤ MOST_PASSES) }
    requires numbered { AreNumbered calls.items }
    requires few { length calls.items < 2 ^ 32 }
    ensures { IfOk result (IsNewSliceCrew N.config share calls.items count) }
{
    let (host, passes) = Host::open(alloc, store, share, 2 * count)?;
    let (jobs, putter, takers) = Jobs::open(alloc, 1, calls.len() as u32, count)?;
    let shared = SliceShared { host, jobs, calls };
    Ok(SliceCrew {
        shared,
        putter,
        takers,
        passes,
    })
}

// Puts all passes of the host to go round.
fn put_passes<N: Naming, A: Admits<Queued<N>> + InSlices, R: Wait>(
    rt: &R,
    shared: &SliceShared<N>,
    queue: &RunQueue<Queued<N>, A>,
    first: &mut RunPass<Queued<N>>,
    mut passes: Vec<HostPass<N>>,
)
    requires first { IsFirstRunPass queue.now first.old }
    requires room { length passes.items ≤ run_capacity queue.now }
    requires passes { All (IsHostPass shared.now.host) passes.items }
    requires fits { FitsWhere A.fits (IsOfRun shared.now.host shared.now.calls.items A.slice) }
    ensures { HasIdle queue.now (length passes.items) first.new }
{
    while let Some(pass) = passes.pop() {
        queue.put(rt, first, Queued::Idle(pass));
    }
}

// A worker for each pass of the queue of calls and of the run queue.
fn slicers<N: Naming, A: Admits<Queued<N>> + InSlices>(
    alloc: Global,
    shared: &SliceShared<N>,
    queue: &RunQueue<Queued<N>, A>,
    mut takers: Vec<JobPass<Item<N>>>,
    mut places: Vec<RunPass<Queued<N>>>,
    slice: u32,
    items: u32,
) -> Result<Vec<Slicer<N>>, NoMemory>
    requires takers { All (IsNewPassOf false shared.now.jobs) takers.items }
    requires places { All (IsNewRunPass queue.now) places.items }
    requires fits { FitsWhere A.fits (IsOfRun shared.now.host shared.now.calls.items A.slice) }
    requires many { length places.items ≡ length takers.items }
    requires slice { slice ≡ A.slice }
    ensures many { IfOk result (λ workers. length workers.items ≡ length takers.items) }
    ensures new { IfOk result (λ workers. All (IsNewSlicer queue.now A.fits shared.now A.slice) workers.items) }
{
    let mut workers = Vec::new(alloc);
    while let Some(place) = places.pop() {
        let own = takers.pop().unwrap();
        workers.reserve(1).map_err(|_| NoMemory)?;
        workers.push_reserved(Slicer {
            own,
            place,
            slice,
            items,
        });
    }
    Ok(workers)
}

// The work of one worker, whose passes are given back with what it made.
fn slice_one<N: Naming, A: Admits<Queued<N>> + InSlices, R: Wait, G: Gate>(
    rt: &R,
    alloc: Global,
    store: &ModuleStore<N>,
    shared: &SliceShared<N>,
    queue: &RunQueue<Queued<N>, A>,
    mut worker: Slicer<N>,
    gate: &G,
) -> SliceDone<N>
    requires worker { IsNewSlicer queue.now A.fits shared.now A.slice worker }
    ensures { IsSliceDone queue.now N.config shared.now A.slice result }
{
    let made = work_in_slices(rt, alloc, store, shared, queue, &mut worker, gate);
    SliceDone { worker, made }
}

// Each worker works in a thread of its own, where one can be had; all have ended when they are given back.
fn slice_each<
    N: Naming + Send + Sync,
    A: Admits<Queued<N>> + InSlices + Sync,
    R: Threads + Wait + Sync,
    G: Gate,
>(
    rt: &R,
    alloc: Global,
    store: &ModuleStore<N>,
    shared: &SliceShared<N>,
    queue: &RunQueue<Queued<N>, A>,
    workers: Vec<Slicer<N>>,
    gate: &G,
) -> Result<Vec<SliceDone<N>>, NoMemory>
    requires workers { All (IsNewSlicer queue.now A.fits shared.now A.slice) workers.items }
    ensures count { IfOk result (λ done. length done.items ≡ length workers.items) }
    ensures done { IfOk result (λ done. All (IsSliceDone queue.now N.config shared.now A.slice) done.items) }
{
    let done = thread::map_vec(
        rt,
        workers,
        &|worker| -> SliceDone<N>
            requires worker { IsNewSlicer queue.now A.fits shared.now A.slice worker }
            ensures { IsSliceDone queue.entry.now N.config shared.entry.now A.slice result }
        { slice_one(rt, alloc, store, shared, queue, worker, gate) },
    );
    match done {
        Ok(done) => Ok(done),
        Err(_) => Err(NoMemory),
    }
}

// The calls are made in slices, over a queue in which just these passes and calls may go round.
fn slice_in<
    N: Naming + Send + Sync,
    J: RunNaming<N> + Send + Sync,
    R: Threads + Wait + Sync,
    G: Gate,
>(
    rt: &R,
    alloc: Global,
    store: &ModuleStore<N>,
    shared: &SliceShared<N>,
    takers: Vec<JobPass<Item<N>>>,
    passes: Vec<HostPass<N>>,
    slice: u32,
    gate: &G,
) -> Result<Sliced<N>, NoMemory>
    requires takers { All (IsNewPassOf false shared.now.jobs) takers.items }
    requires workers { (1 ≤ length takers.items) × (length takers.items ≤ MOST_PASSES) }
    requires passes { All (IsHostPass shared.now.host) passes.items }
    requires items { (1 ≤ length passes.items) × (length passes.items ≤ MOST_PASSES) }
    requires run { NamesRun shared.now.host shared.now.calls.items J.slice J.idle J.paused }
    requires slice { J.slice ≡ slice }
    ensures all { IfOk result (SlicedAll N.config shared.now (length takers.items)) }
    ensures made { IfOk result (AreCaused N.Naming N.config shared.now slice) }
{
    let (count, items) = (takers.len() as u32, passes.len() as u32);
    let (queue, mut first, places) = RunQueue::<Queued<N>, InRun<N, J>>::open(alloc, items, count)?;
    put_passes(rt, shared, &queue, &mut first, passes);
    let workers = slicers(alloc, shared, &queue, takers, places, slice, items)?;
    let mut done = slice_each(rt, alloc, store, shared, &queue, workers, gate)?;
    let one = done.pop().unwrap();
    let mut sliced = join_slicers(shared, &queue, &mut first, one, done)?;
    end_paused(rt, store, shared, &queue, &mut first, &mut sliced, gate)?;
    Ok(sliced)
}

/// Each worker makes calls in slices of so many turns, in a thread of its own, where one can be had; when all have ended, the calls that
/// still go round are made to their end.
///
/// # Errors
///
/// `NoMemory` where memory is refused.
pub fn slice_all<N: Naming + Send + Sync, R: Threads + Wait + Sync, G: Gate>(
    rt: &R,
    alloc: Global,
    store: &ModuleStore<N>,
    shared: &SliceShared<N>,
    takers: Vec<JobPass<Item<N>>>,
    passes: Vec<HostPass<N>>,
    slice: u32,
    gate: &G,
) -> Result<Sliced<N>, NoMemory>
    requires takers { All (IsNewPassOf false shared.now.jobs) takers.items }
    requires workers { (1 ≤ length takers.items) × (length takers.items ≤ MOST_PASSES) }
    requires passes { All (IsHostPass shared.now.host) passes.items }
    requires items { (1 ≤ length passes.items) × (length passes.items ≤ MOST_PASSES) }
    ensures all { IfOk result (SlicedAll N.config shared.now (length takers.items)) }

    // each entry has its cause on a pass of the host, a look at the tags or a call that ended, and none is of a kind that was full
    ensures made { IfOk result (AreCaused N.Naming N.config shared.now slice) }
{
    slice_in::<N, Brand, R, G>(rt, alloc, store, shared, takers, passes, slice, gate)
}
