//! Workers make the calls in slices on a host that they share, while the modules are registered.
ghost use Rattle.std.specs.Prelude.{◌≡◌, ◌<◌, ◌≤◌, All, IfOk, false, length};
ghost use Rattle.slice_workers.specs.Crews.{IsNewSliceCrew};
ghost use Rattle.job_queue.specs.Passes.{IsNewPassOf};
ghost use Rattle.pool_host.specs.Hosts.{IsHostPass};
ghost use Rattle.pool_limits.specs.Shares.{shared_share};
ghost use Rattle.request_text.specs.Text.{call_count};
ghost use Rattle.run_books.specs.Due.{dues_from};
ghost use Rattle.run_books.specs.Put.{CanPutAll, HasPutAll};
ghost use Rattle.run_books.specs.Books.{AreBooks, HasEntered};
ghost use Rattle.slice_workers.specs.Sliced.{AreCaused, SlicedAll};
ghost use Rattle.call_rounds.specs.Worked.{AnswersFile, AreOfSlices, MadeBySlicers};

use crate::shares::worker_count;
use call_jobs::Worked;
use host_edge::Gate;
use module_store::{ModuleStore, Naming};
use pool_host::LaneHost;
use request_text::Requests;
use run_books::{Books, Put, Putter, Registry, Span, collect_all, put_all};
use slice_workers::{SliceCrew, SliceShared, Sliced, finish_slices, slice_all};
use std::alloc::Global;
use std::sync::Wait;
use std::thread::{self, Threads};
use wasm_values::NoMemory;

// What workers left: the registry, the host and the calls that they shared, and what they made of these.
#[derive(Drop)]
pub(crate) struct SlicedCalls<N: Naming> {
    pub registry: Registry<N>,
    pub shared: SliceShared<N>,
    pub worked: Vec<Worked>,
}

// What workers left, with the books in which the lines of their calls stand.
#[derive(Drop)]
pub(crate) struct SlicedBooks<N: Naming> {
    pub books: Books<N>,
    pub shared: SliceShared<N>,
}

/// A run whose calls were made in slices: what is written down of it, what the workers shared, and the lane.
#[derive(Drop)]
pub struct SlicedRun<N: Naming> {
    pub books: Books<N>,
    pub shared: SliceShared<N>,
    pub lane: LaneHost<N>,
}

// What the workers made of all calls in slices, and the registry with the modules that were entered beside them. Where no thread can be
// made the first closure runs last: then all stands in the queue before the first worker asks.
fn slice_calls<N: Naming + Send + Sync, R: Threads + Wait + Sync, G: Gate>(
    rt: &R,
    alloc: Global,
    store: &ModuleStore<N>,
    requests: &Requests,
    crew: SliceCrew<N>,
    registry: Registry<N>,
    slice: u32,
    gate: &G,
) -> Result<SlicedCalls<N>, NoMemory>
    requires entered { HasEntered N.config requests.now 0 registry }
    requires crew { IsNewSliceCrew N.config (shared_share N.config) (dues_from 1 requests.now.directives) N.config.workers crew }
    requires some { (0 < N.config.workers) × (N.config.workers ≤ 16) }
    ensures shared { IfOk result (λ r. r.shared ≡ crew.shared) }
    ensures entered { IfOk result (λ r. HasEntered N.config requests.now (length requests.now.directives) r.registry) }
    ensures answers { IfOk result (λ r. AnswersFile N.config requests.now N.config.workers r.registry r.worked.items) }
    ensures in_slices { IfOk result (λ r. AreOfSlices N.Naming N.config r.shared slice N.config.workers r.worked.items) }
{
    let SliceCrew {
        shared,
        putter,
        takers,
        passes,
    } = crew;
    let (of_calls, jobs) = (&shared, &shared.jobs);
    let span = Span::of_all(requests);
    let workers = worker_count(store);
    let putter = Putter {
        registry,
        own: putter,
    };
    let (sliced, put) = thread::join(
        rt,
        move || -> Result<Sliced<N>, NoMemory>
            requires takers { All (IsNewPassOf false of_calls.now.jobs) takers.items }
            requires workers { (1 ≤ length takers.items) × (length takers.items ≤ 32) }
            requires passes { All (IsHostPass of_calls.now.host) passes.items }
            requires items { (1 ≤ length passes.items) × (length passes.items ≤ 32) }
            ensures all { IfOk result (SlicedAll N.config of_calls.entry.now (length takers.items)) }
            ensures causes { IfOk result (AreCaused N.Naming N.config of_calls.entry.now slice) }
        { slice_all(rt, alloc, store, of_calls, takers, passes, slice, gate) },
        move || -> Put<N>
            requires { CanPutAll N.config requests.now span jobs.now workers putter }
            ensures { HasPutAll N.config requests.entry.now span jobs.entry.now workers putter result }
        { put_all(rt, alloc, store, requests, span, jobs, putter, workers) },
    );
    let Put { own, registry } = put;
    let registry = registry?;
    let worked = finish_slices(rt, of_calls, own, sliced?, workers);
    Ok(SlicedCalls {
        registry,
        shared,
        worked,
    })
}

// The modules are entered, and these workers make all calls in slices meanwhile: the whole file is one round. Those that they were
// answered Full have no line yet.
pub(crate) fn by_slicers<N: Naming + Send + Sync, R: Threads + Wait + Sync, G: Gate>(
    rt: &R,
    alloc: Global,
    store: &ModuleStore<N>,
    requests: &Requests,
    crew: SliceCrew<N>,
    books: Books<N>,
    slice: u32,
    gate: &G,
) -> Result<SlicedBooks<N>, NoMemory>
    requires books { AreBooks N.config requests.now 0 0 0 books }
    requires crew { IsNewSliceCrew N.config (shared_share N.config) (dues_from 1 requests.now.directives) N.config.workers crew }
    requires some { (0 < N.config.workers) × (N.config.workers ≤ 16) }
    ensures shared { IfOk result (λ r. r.shared ≡ crew.shared) }
    ensures books { IfOk result (λ r. AreBooks N.config requests.now (length requests.now.directives) 0 (call_count requests.now.directives) r.books) }
    ensures made { IfOk result (λ r. MadeBySlicers N.Naming N.config requests.now r.shared slice N.config.workers books r.books) }
{
    // The directives of a request file are lawful.
    let _requests = requests.directives();
    let Books {
        registry,
        mut board,
    } = books;
    let SlicedCalls {
        registry,
        shared,
        worked,
    } = slice_calls(rt, alloc, store, requests, crew, registry, slice, gate)?;
    collect_all(&mut board, &shared.calls, worked);
    let books = Books { registry, board };
    Ok(SlicedBooks { books, shared })
}
