//! All calls of a request file are made.
ghost use Rattle.std.specs.Prelude.{◌≡◌, ◌≢◌, ◌<◌, ◌≤◌, [], IfOk, None, false, length};
ghost use Rattle.pool_limits.specs.Plans.{plan_fault};
ghost use Rattle.pool_limits.specs.Shares.{shared_share};
ghost use Rattle.tenant_share.specs.Shares.{shares};
ghost use Rattle.call_workers.specs.Crews.{IsNewCrew};
ghost use Rattle.slice_workers.specs.Crews.{IsNewSliceCrew};
ghost use Rattle.request_text.specs.Text.{modules_of};
ghost use Rattle.run_books.specs.Due.{dues_from};
ghost use Rattle.run_books.specs.Books.{AreBooks};
ghost use Rattle.call_rounds.specs.Rounds.{AreClosedBooks, HasCrew, IsReady};
ghost use Rattle.call_rounds.specs.Runs.{HasNewCrew, IsMade, MadeInRounds, MadeInSlices, books_of};

use crate::calls::make_left;
use crate::rounds::{Run, make_rounds};
use crate::shares::{open_lane, open_slicers, open_workers, worker_count};
use crate::sliced_run::{SlicedBooks, SlicedRun, by_slicers};
use call_workers::Crew;
use host_edge::Gate;
use module_store::{Desk, ModuleStore, Naming};
use request_text::Requests;
use run_books::{Books, Span, dues};
use slice_workers::SliceCrew;
use std::alloc::Global;
use std::sync::Wait;
use std::thread::Threads;
use wasm_values::NoMemory;

// The crew of several workers, for the calls of this file.
fn open_crew_for<N: Naming>(
    alloc: Global,
    store: &ModuleStore<N>,
    requests: &Requests,
) -> Result<Crew<N>, NoMemory>
    requires several { N.config.workers ≢ 1 }
    requires plan { (plan_fault N.config [] ≡ None) → plan_fault N.config requests.now.wants ≡ None }
    ensures ready { IfOk result (IsReady N.config requests.now) }
    ensures new { IfOk result (IsNewCrew (shares N.config requests.now.wants) (dues_from 1 requests.now.directives) N.config.workers) }
{
    let calls = dues(alloc, requests.directives())?;
    open_workers(alloc, store, requests.wants(), calls)
}

// The crew for the calls of this file, where there are several workers.
fn crew_for<N: Naming>(
    alloc: Global,
    store: &ModuleStore<N>,
    requests: &Requests,
) -> Result<Option<Crew<N>>, NoMemory>
    requires plan { (plan_fault N.config [] ≡ None) → plan_fault N.config requests.now.wants ≡ None }
    ensures ready { IfOk result (HasCrew N.config requests.now) }
    ensures new { IfOk result (HasNewCrew N.config requests.now) }
{
    if worker_count(store) == 1 {
        return Ok(None);
    }
    let crew = open_crew_for(alloc, store, requests)?;
    Ok(Some(crew))
}

// Workers of the configured number, which make this file's calls in slices.
fn open_slicers_for<N: Naming>(
    alloc: Global,
    store: &ModuleStore<N>,
    requests: &Requests,
) -> Result<SliceCrew<N>, NoMemory>
    requires several { N.config.workers ≢ 1 }
    ensures crew { IfOk result (IsNewSliceCrew N.config (shared_share N.config) (dues_from 1 requests.now.directives) N.config.workers) }
    ensures some { IfOk result (λ _. (0 < N.config.workers) × (N.config.workers ≤ 16)) }
{
    let calls = dues(alloc, requests.directives())?;
    open_slicers(alloc, store, calls)
}

/// How the calls of a file were made: in rounds, or all of them in slices.
#[derive(Drop)]
pub enum Made<N: Naming> {
    InRounds(Run<N>),
    InSlices(SlicedRun<N>),
}

impl<N: Naming> Made<N> {
    /// The books of the file.
    pub fn into_books(self) -> Books<N>
        ensures { result ≡ books_of self }
    {
        match self {
            Made::InRounds(Run { books, .. }) => books,
            Made::InSlices(SlicedRun { books, .. }) => books,
        }
    }
}

// All calls are made round by round: by the lane, and by a crew where there are several workers.
fn by_rounds<N: Naming + Send + Sync, R: Threads + Wait + Sync, G: Gate>(
    rt: &R,
    alloc: Global,
    store: &ModuleStore<N>,
    requests: &Requests,
    books: Books<N>,
    gate: &G,
) -> Result<Run<N>, NoMemory>
    requires plan { (plan_fault N.config [] ≡ None) → plan_fault N.config requests.now.wants ≡ None }
    requires books { AreBooks N.config requests.now 0 0 0 books }
    ensures { IfOk result (MadeInRounds N.config requests.now) }
{
    let crew = crew_for(alloc, store, requests)?;
    let lane = open_lane(alloc, store)?;
    let run = Run {
        books,
        lane,
        crew,
        done: 0,
        calls: 0,
    };
    make_rounds(rt, alloc, store, requests, run, gate)
}

// All calls are made in slices of so many instructions, as one round, and the lane makes those that are left.
fn in_slices<N: Naming + Send + Sync, R: Threads + Wait + Sync, G: Gate>(
    rt: &R,
    alloc: Global,
    store: &ModuleStore<N>,
    requests: &Requests,
    books: Books<N>,
    slice: u32,
    gate: &G,
) -> Result<SlicedRun<N>, NoMemory>
    requires several { N.config.workers ≢ 1 }
    requires sliced { slice ≢ 0 }
    requires may { requests.now.whole ≡ false }
    requires books { AreBooks N.config requests.now 0 0 0 books }
    ensures { IfOk result (MadeInSlices N.config requests.now slice) }
{
    // Where calls need not run whole, no tenant wants a share and no module is retired.
    let _whole = requests.runs_whole();
    let crew = open_slicers_for(alloc, store, requests)?;
    let made = by_slicers(rt, alloc, store, requests, crew, books, slice, gate)?;
    let SlicedBooks { mut books, shared } = made;
    let mut lane = open_lane(alloc, store)?;
    let span = Span::of_all(requests);
    make_left(alloc, store, requests, span, &mut books, &mut lane, gate)?;
    Ok(SlicedRun {
        books,
        shared,
        lane,
    })
}

/// Registers all modules of a file and makes all its calls: the entries and the lines, with what made them. Several workers make calls
/// in slices of `slice` instructions, unless that is 0 or the file's calls run whole. `gate` is told of each call.
///
/// # Errors
///
/// `NoMemory` where memory is refused.
pub fn make_all<N: Naming + Send + Sync, R: Threads + Wait + Sync, G: Gate>(
    rt: &R,
    alloc: Global,
    store: &ModuleStore<N>,
    desk: Desk<N>,
    slice: u32,
    requests: &Requests,
    gate: &G,
) -> Result<Made<N>, NoMemory>
    requires plan { (plan_fault N.config [] ≡ None) → plan_fault N.config requests.now.wants ≡ None }
    requires desk { desk.registered ≡ 0 }
    requires room { length (modules_of requests.now.directives) ≤ desk.most }
    ensures made { IfOk result (IsMade N.config requests.now slice) }
    ensures books { IfOk result (λ made. AreClosedBooks N.config requests.now (books_of made)) }
{
    let books = Books::open(alloc, requests, desk)?;
    if worker_count(store) == 1 || slice == 0 || requests.runs_whole() {
        let run = by_rounds(rt, alloc, store, requests, books, gate)?;
        Ok(Made::InRounds(run))
    } else {
        let run = in_slices(rt, alloc, store, requests, books, slice, gate)?;
        Ok(Made::InSlices(run))
    }
}
