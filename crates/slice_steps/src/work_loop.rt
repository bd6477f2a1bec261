//! The work of one worker that makes calls in slices.
ghost use Rattle.std.specs.Prelude.{◌≡◌, [], IfOk, OnOk};
ghost use Rattle.job_queue.specs.Passes.{IsJobPass};
ghost use Rattle.job_queue.specs.RunPasses.{FitsWhere, IsRunPass, run_room};
ghost use Rattle.slice_steps.specs.Queued.{IsOfRun};
ghost use Rattle.slice_steps.specs.Slices.{HandDid, HandWorked, IsAtWork, WorkerDid};

use crate::pace::{Came, Pace};
use crate::queued::Queued;
use crate::run_names::InSlices;
use crate::slice_shared::SliceShared;
use crate::steps::{Hand, Slicer, go_on, next_step, put_kept};
use call_jobs::Worked;
use host_edge::Gate;
use job_queue::{Admits, RunQueue};
use module_store::{ModuleStore, Naming};
use std::alloc::Global;
use std::sync::Wait;
use wasm_values::NoMemory;

// Begins the calls that the queue gives, and makes slices of those that go round, until it is told to end.
fn work_until_end<N: Naming, A: Admits<Queued<N>> + InSlices, R: Wait, G: Gate>(
    rt: &R,
    store: &ModuleStore<N>,
    shared: &SliceShared<N>,
    queue: &RunQueue<Queued<N>, A>,
    worker: &mut Slicer<N>,
    hand: &mut Hand<N>,
    gate: &G,
) -> Result<(), NoMemory>
    requires at_work { IsAtWork queue.now shared.now A.slice 0 worker.old hand.old }
    requires fits { FitsWhere A.fits (IsOfRun shared.now.host shared.now.calls.items A.slice) }
    ensures at_work { IsAtWork queue.now shared.now A.slice 0 worker.new hand.new }
    ensures did { OnOk result (HandDid N.config shared.now A.slice 1 worker.old worker.new hand.old hand.new) }
{
    let mut pace = Pace::new();
    for _ in rt.forever() {
        let came = next_step(rt, store, shared, queue, worker, hand, gate)?;
        let told = came.is_end();
        if told {
            return Ok(());
        }
        pace.note(rt, came);
    }
    unreachable!()
}

// Makes slices of the calls that go round, until it has found nothing as often as there are items. The idle passes that it meets it keeps:
// no call is left to begin, and between two slices nobody has to take them.
fn help<N: Naming, A: Admits<Queued<N>> + InSlices, R: Wait, G: Gate>(
    rt: &R,
    store: &ModuleStore<N>,
    shared: &SliceShared<N>,
    queue: &RunQueue<Queued<N>, A>,
    worker: &mut Slicer<N>,
    hand: &mut Hand<N>,
    gate: &G,
) -> Result<(), NoMemory>
    requires at_work { IsAtWork queue.now shared.now A.slice 0 worker.old hand.old }
    requires fits { FitsWhere A.fits (IsOfRun shared.now.host shared.now.calls.items A.slice) }
    ensures at_work { IsAtWork queue.now shared.now A.slice 0 worker.new hand.new }
    ensures own { worker.new.own ≡ worker.old.own }
    ensures did { OnOk result (HandWorked N.config shared.now A.slice [] worker.old worker.new hand.old hand.new) }
{
    let mut idle = 0;
    for _ in rt.forever() {
        match go_on(rt, store, shared, queue, worker, hand, gate)? {
            Came::Nothing => {
                if idle >= worker.items {
                    return Ok(());
                }
                idle += 1;
            }
            _ => idle = 0,
        }
    }
    unreachable!()
}

// Makes calls until it is told to end, and then slices of those that go round while it finds some.
fn work_keeping<N: Naming, A: Admits<Queued<N>> + InSlices, R: Wait, G: Gate>(
    rt: &R,
    store: &ModuleStore<N>,
    shared: &SliceShared<N>,
    queue: &RunQueue<Queued<N>, A>,
    worker: &mut Slicer<N>,
    hand: &mut Hand<N>,
    gate: &G,
) -> Result<(), NoMemory>
    requires at_work { IsAtWork queue.now shared.now A.slice 0 worker.old hand.old }
    requires fits { FitsWhere A.fits (IsOfRun shared.now.host shared.now.calls.items A.slice) }
    ensures at_work { IsAtWork queue.now shared.now A.slice 0 worker.new hand.new }
    ensures did { OnOk result (HandDid N.config shared.now A.slice 1 worker.old worker.new hand.old hand.new) }
{
    work_until_end(rt, store, shared, queue, worker, hand, gate)?;
    help(rt, store, shared, queue, worker, hand, gate)
}

/// Makes calls in slices: those that the queue of calls gives it and those that go round, of which any worker takes the next. When it is
/// told to end it begins no call more, and makes slices of those that go round while it finds some. There is an entry for each call
/// that was answered in its hands. Its idle passes it puts back, also where memory is refused, since others end with them.
///
/// # Errors
///
/// `NoMemory` where memory is refused. The calls that were answered in its hands are spent.
pub fn work_in_slices<N: Naming, A: Admits<Queued<N>> + InSlices, R: Wait, G: Gate>(
    rt: &R,
    alloc: Global,
    store: &ModuleStore<N>,
    shared: &SliceShared<N>,
    queue: &RunQueue<Queued<N>, A>,
    worker: &mut Slicer<N>,
    gate: &G,
) -> Result<Vec<Worked>, NoMemory>
    requires own { IsJobPass shared.now.jobs worker.old.own }
    requires place { IsRunPass queue.now worker.old.place }
    requires room { run_room worker.old.place ≡ 0 }
    requires slice { worker.old.slice ≡ A.slice }
    requires fits { FitsWhere A.fits (IsOfRun shared.now.host shared.now.calls.items A.slice) }
    ensures own { IsJobPass shared.now.jobs worker.new.own }
    ensures place { IsRunPass queue.now worker.new.place }

    // also where memory is refused
    ensures room { run_room worker.new.place ≡ 0 }
    ensures did { IfOk result (λ made. WorkerDid N.config shared.now A.slice 1 worker.old worker.new made.items) }
{
    let passes = Vec::new(alloc);
    let made = Vec::new(alloc);
    let mut hand = Hand {
        alloc,
        passes,
        made,
    };
    let worked = work_keeping(rt, store, shared, queue, worker, &mut hand, gate);
    let Hand { passes, made, .. } = hand;
    put_kept(rt, shared, queue, &mut worker.place, passes);
    match worked {
        Ok(()) => Ok(made),
        Err(NoMemory) => Err(NoMemory),
    }
}
