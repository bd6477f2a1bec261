//! One step of a worker that makes calls in slices.
ghost use Rattle.std.specs.Prelude.{◌≡◌, ◌+◌, ◌<◌, ◌≤◌, ◌∷◌, [], All, IfNone, IfOk, IfSome, OnOk, false, length, vec_capacity, vec_len};
ghost use Rattle.job_queue.specs.Accounts.{with_given};
ghost use Rattle.job_queue.specs.Passes.{IsJobPass, IsNumberOf, account_of};
ghost use Rattle.job_queue.specs.RunAccounts.{with_run_put};
ghost use Rattle.job_queue.specs.RunPasses.{FitsWhere, IsRunPass, run_account_of, run_room};
ghost use Rattle.pool_host.specs.Hosts.{IsHostPass};
ghost use Rattle.slice_steps.specs.Queued.{IsOfRun, paused_pair};
ghost use Rattle.slice_steps.specs.Slices.{HandDid, HandWorked, IsAtWork, KeepsEntry, WorkedOn, begun_of, ends_of};

use crate::pace::{Came, Pace};
use crate::queued::Queued;
use crate::run_names::InSlices;
use crate::slice_shared::SliceShared;
use crate::slices::{Slice, Tried, resume, try_call};
use call_jobs::{Item, Worked};
use host_edge::Gate;
use job_queue::{Admits, JobPass, RunPass, RunQueue};
use module_store::{ModuleStore, Naming};
use pool_host::{HostPass, Paused};
use std::alloc::Global;
use std::sync::Wait;
use std::thread;
use wasm_values::NoMemory;

/// What a worker works with that makes calls in slices: its passes of the queue of calls and of the run queue, how many turns a slice
/// has, and how many items go round.
#[derive(Drop)]
pub struct Slicer<N: Naming> {
    pub own: JobPass<Item<N>>,
    pub place: RunPass<Queued<N>>,
    pub slice: u32,
    pub items: u32,
}

/// What a worker has in hand: idle passes of the host, with which it begins calls, and the entries of those that were answered.
#[derive(Drop)]
pub(crate) struct Hand<N: Naming> {
    pub alloc: Global,
    pub passes: Vec<HostPass<N>>,
    pub made: Vec<Worked>,
}

impl<N: Naming> Hand<N> {
    // Room for a pass and for an entry.
    fn make_room(&mut self) -> Result<(), NoMemory>
        ensures passes { self.new.passes.items ≡ self.old.passes.items }
        ensures made { self.new.made.items ≡ self.old.made.items }
        ensures free { OnOk result (vec_len self.new.passes < vec_capacity self.new.passes) }
        ensures free_made { OnOk result (vec_len self.new.made < vec_capacity self.new.made) }
    {
        self.passes.reserve(1).map_err(|_| NoMemory)?;
        self.made.reserve(1).map_err(|_| NoMemory)?;
        Ok(())
    }
}

// Puts back what a slice left, and keeps the entry, if there is one.
fn leave<N: Naming, A: Admits<Queued<N>>, R: Wait>(
    rt: &R,
    queue: &RunQueue<Queued<N>, A>,
    place: &mut RunPass<Queued<N>>,
    made: &mut Vec<Worked>,
    slice: Slice<N>,
) -> Result<Came, NoMemory>
    requires own { IsRunPass queue.now place.old }
    requires room { 0 < run_room place.old }
    requires fits { A.fits slice.queued }
    requires free { vec_len made.old < vec_capacity made.old }
    ensures own { IsRunPass queue.now place.new }
    ensures put { run_account_of place.new ≡ with_run_put (run_account_of place.old) (slice.queued ∷ []) }
    ensures entry { OnOk result (KeepsEntry slice.entry made.old.items made.new.items) }
    ensures never_ends { IfOk result (λ came. ends_of came ≡ 0) }
{
    let Slice { queued, entry } = slice;
    queue.put(rt, place, queued);
    match entry {
        Ok(None) => Ok(Came::Slice),
        Ok(Some(worked)) => {
            made.push_reserved(worked);
            Ok(Came::Answer)
        }
        Err(NoMemory) => Err(NoMemory),
    }
}

// Makes the next slice of a call.
fn resume_call<N: Naming, A: Admits<Queued<N>> + InSlices, R: Wait, G: Gate>(
    rt: &R,
    store: &ModuleStore<N>,
    shared: &SliceShared<N>,
    queue: &RunQueue<Queued<N>, A>,
    worker: &mut Slicer<N>,
    hand: &mut Hand<N>,
    paused: Paused<N>,
    gate: &G,
) -> Result<Came, NoMemory>
    requires at_work { IsAtWork queue.now shared.now A.slice 1 worker.old hand.old }
    requires fits { FitsWhere A.fits (IsOfRun shared.now.host shared.now.calls.items A.slice) }
    requires paused { IsOfRun shared.now.host shared.now.calls.items A.slice (Queued.Paused paused) }
    requires free { vec_len hand.old.made < vec_capacity hand.old.made }
    ensures at_work { IsAtWork queue.now shared.now A.slice 0 worker.new hand.new }
    ensures own { worker.new.own ≡ worker.old.own }
    ensures passes { hand.new.passes ≡ hand.old.passes }
    ensures never_ends { IfOk result (λ came. ends_of came ≡ 0) }
    ensures did { OnOk result (HandWorked N.config shared.now A.slice (paused_pair paused ∷ []) worker.old worker.new hand.old hand.new) }
{
    let slice = resume(shared, store, paused, worker.slice as u64, gate);
    leave(rt, queue, &mut worker.place, &mut hand.made, slice)
}

/// Makes the next slice of a call that has begun, if one comes. An idle pass that comes is kept.
///
/// # Errors
///
/// `NoMemory` where memory is refused for the pass, before anything is taken, or for an entry.
pub(crate) fn go_on<N: Naming, A: Admits<Queued<N>> + InSlices, R: Wait, G: Gate>(
    rt: &R,
    store: &ModuleStore<N>,
    shared: &SliceShared<N>,
    queue: &RunQueue<Queued<N>, A>,
    worker: &mut Slicer<N>,
    hand: &mut Hand<N>,
    gate: &G,
) -> Result<Came, NoMemory>
    requires at_work { IsAtWork queue.now shared.now A.slice 0 worker.old hand.old }
    requires fits { FitsWhere A.fits (IsOfRun shared.now.host shared.now.calls.items A.slice) }
    ensures at_work { IsAtWork queue.now shared.now A.slice 0 worker.new hand.new }
    ensures own { worker.new.own ≡ worker.old.own }
    ensures kept { length hand.old.passes.items ≤ length hand.new.passes.items }
    ensures never_ends { IfOk result (λ came. ends_of came ≡ 0) }
    ensures did { OnOk result (HandWorked N.config shared.now A.slice [] worker.old worker.new hand.old hand.new) }
{
    hand.make_room()?;
    match queue.next(rt, &mut worker.place) {
        None => {
            thread::yield_now();
            Ok(Came::Nothing)
        }
        Some(Queued::Idle(pass)) => {
            hand.passes.push_reserved(pass);
            Ok(Came::Pass)
        }
        Some(Queued::Paused(paused)) => {
            resume_call(rt, store, shared, queue, worker, hand, paused, gate)
        }
    }
}

// Begins a call that the worker has in hand, with a pass that it has. Answers whether the call found its slots.
fn begin_held<N: Naming, A: Admits<Queued<N>> + InSlices, R: Wait, G: Gate>(
    rt: &R,
    store: &ModuleStore<N>,
    shared: &SliceShared<N>,
    queue: &RunQueue<Queued<N>, A>,
    worker: &mut Slicer<N>,
    hand: &mut Hand<N>,
    call: &(u32, Item<N>),
    gate: &G,
) -> Result<bool, NoMemory>
    requires at_work { IsAtWork queue.now shared.now A.slice 0 worker.old hand.old }
    requires fits { FitsWhere A.fits (IsOfRun shared.now.host shared.now.calls.items A.slice) }
    requires some { 0 < length hand.old.passes.items }
    requires counted { 0 < call.now.0 }
    requires enough { call.now.0 ≤ length shared.now.calls.items }
    ensures at_work { IsAtWork queue.now shared.now A.slice 0 worker.new hand.new }
    ensures own { worker.new.own ≡ worker.old.own }
    ensures kept { IfOk result (λ began. (began ≡ false) → length hand.new.passes.items ≡ length hand.old.passes.items) }
    ensures did { IfOk result (λ began. HandWorked N.config shared.now A.slice (begun_of call.now began) worker.old worker.new hand.old hand.new) }
{
    hand.make_room()?;
    let pass = hand.passes.pop().unwrap();
    match try_call(hand.alloc, shared, pass, store, call.0, &call.1, gate) {
        Tried::Full(pass, _kind) => {
            hand.passes.push_reserved(pass);
            Ok(false)
        }
        Tried::Left(slice) => {
            leave(rt, queue, &mut worker.place, &mut hand.made, slice)?;
            Ok(true)
        }
    }
}

// Makes slices of calls that go round until it is time to try again: slots were given back, or nothing goes round, or there were enough.
fn make_others<N: Naming, A: Admits<Queued<N>> + InSlices, R: Wait, G: Gate>(
    rt: &R,
    store: &ModuleStore<N>,
    shared: &SliceShared<N>,
    queue: &RunQueue<Queued<N>, A>,
    worker: &mut Slicer<N>,
    hand: &mut Hand<N>,
    pace: &mut Pace,
    gate: &G,
) -> Result<(), NoMemory>
    requires at_work { IsAtWork queue.now shared.now A.slice 0 worker.old hand.old }
    requires fits { FitsWhere A.fits (IsOfRun shared.now.host shared.now.calls.items A.slice) }
    ensures at_work { IsAtWork queue.now shared.now A.slice 0 worker.new hand.new }
    ensures own { worker.new.own ≡ worker.old.own }
    ensures kept { length hand.old.passes.items ≤ length hand.new.passes.items }
    ensures did { OnOk result (HandWorked N.config shared.now A.slice [] worker.old worker.new hand.old hand.new) }
{
    for _ in 0..pace.others() {
        let came = go_on(rt, store, shared, queue, worker, hand, gate)?;
        let due = pace.note(rt, came);
        if due {
            return Ok(());
        }
    }
    Ok(())
}

// Begins a call. While a kind that it needs is full it makes slices of others, and tries again.
fn begin_when_free<N: Naming, A: Admits<Queued<N>> + InSlices, R: Wait, G: Gate>(
    rt: &R,
    store: &ModuleStore<N>,
    shared: &SliceShared<N>,
    queue: &RunQueue<Queued<N>, A>,
    worker: &mut Slicer<N>,
    hand: &mut Hand<N>,
    call: (u32, Item<N>),
    gate: &G,
) -> Result<(), NoMemory>
    requires at_work { IsAtWork queue.now shared.now A.slice 0 worker.old hand.old }
    requires fits { FitsWhere A.fits (IsOfRun shared.now.host shared.now.calls.items A.slice) }
    requires some { 0 < length hand.old.passes.items }
    requires counted { 0 < call.0 }
    requires enough { call.0 ≤ length shared.now.calls.items }
    ensures at_work { IsAtWork queue.now shared.now A.slice 0 worker.new hand.new }
    ensures own { worker.new.own ≡ worker.old.own }
    ensures did { OnOk result (HandWorked N.config shared.now A.slice (call ∷ []) worker.old worker.new hand.old hand.new) }
{
    let mut pace = Pace::new();
    for _ in rt.forever() {
        let began = begin_held(rt, store, shared, queue, worker, hand, &call, gate)?;
        if began {
            return Ok(());
        }
        make_others(rt, store, shared, queue, worker, hand, &mut pace, gate)?;
    }
    unreachable!()
}

// The next call of the queue, if there is an idle pass to begin it with.
fn next_call<N: Naming, R: Wait>(
    rt: &R,
    shared: &SliceShared<N>,
    own: &mut JobPass<Item<N>>,
    idle: usize,
) -> Option<(u32, Item<N>)>
    requires own { IsJobPass shared.now.jobs own.old }
    ensures own { IsJobPass shared.now.jobs own.new }
    ensures none { IfNone result (account_of own.new ≡ account_of own.old) }
    ensures given { IfSome result (λ call. account_of own.new ≡ with_given (account_of own.old) (call ∷ [])) }
    ensures some { IfSome result (λ call. 0 < idle) }
    ensures number { IfSome result (λ call. IsNumberOf shared.now.jobs call.0) }
{
    if idle == 0 {
        return None;
    }
    shared.jobs.next(rt, own)
}

/// Begins the next call, if the worker has an idle pass and a call is left. Else it makes the next slice of one that has begun.
///
/// # Errors
///
/// `NoMemory` where memory is refused: for what a call answered, for an entry, or for a pass.
pub(crate) fn next_step<N: Naming, A: Admits<Queued<N>> + InSlices, R: Wait, G: Gate>(
    rt: &R,
    store: &ModuleStore<N>,
    shared: &SliceShared<N>,
    queue: &RunQueue<Queued<N>, A>,
    worker: &mut Slicer<N>,
    hand: &mut Hand<N>,
    gate: &G,
) -> Result<Came, NoMemory>
    requires at_work { IsAtWork queue.now shared.now A.slice 0 worker.old hand.old }
    requires fits { FitsWhere A.fits (IsOfRun shared.now.host shared.now.calls.items A.slice) }
    ensures at_work { IsAtWork queue.now shared.now A.slice 0 worker.new hand.new }
    ensures did { IfOk result (λ came. HandDid N.config shared.now A.slice (ends_of came) worker.old worker.new hand.old hand.new) }
{
    match next_call(rt, shared, &mut worker.own, hand.passes.len()) {
        None => go_on(rt, store, shared, queue, worker, hand, gate),
        Some(call) => {
            let number = call.0;
            if number == 0 {
                return Ok(Came::End);
            }
            begin_when_free(rt, store, shared, queue, worker, hand, call, gate)?;
            Ok(Came::Slice)
        }
    }
}

/// Puts back the idle passes that were kept.
pub(crate) fn put_kept<N: Naming, A: Admits<Queued<N>> + InSlices, R: Wait>(
    rt: &R,
    shared: &SliceShared<N>,
    queue: &RunQueue<Queued<N>, A>,
    place: &mut RunPass<Queued<N>>,
    mut passes: Vec<HostPass<N>>,
)
    requires place { IsRunPass queue.now place.old }
    requires fits { FitsWhere A.fits (IsOfRun shared.now.host shared.now.calls.items A.slice) }
    requires passes { All (IsHostPass shared.now.host) passes.items }
    requires room { length passes.items ≤ run_room place.old }
    ensures place { IsRunPass queue.now place.new }
    ensures room { run_room place.new + length passes.items ≡ run_room place.old }
    ensures put { WorkedOn N.config shared.now.host shared.now.calls.items A.slice [] (run_account_of place.old) (run_account_of place.new) [] }
{
    while let Some(pass) = passes.pop() {
        queue.put(rt, place, Queued::Idle(pass));
    }
}
