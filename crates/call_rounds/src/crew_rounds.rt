//! Workers make the calls of a round on tenants' hosts that they share, while its modules are registered.
ghost use Rattle.std.specs.Prelude.{◌≡◌, ◌+◌, ◌<◌, ◌≤◌, ℕ, All, IfOk, Some, length};
ghost use Rattle.std.specs.List.{AllZip};
ghost use Rattle.call_workers.specs.Crews.{DoneKnows, HasEnded, IsDone, IsNewWorker, StillKnow, WorkerKnows};
ghost use Rattle.job_queue.specs.Passes.{count_of, first_of};
ghost use Rattle.run_books.specs.Entries.{AreKept};
ghost use Rattle.run_books.specs.Put.{CanPutAll, HasPutAll};
ghost use Rattle.run_books.specs.Books.{AreBooks, HasEntered, IsSpan, calls_in};
ghost use Rattle.call_rounds.specs.Rounds.{AreBooksWithin, IsReady};
ghost use Rattle.call_rounds.specs.Worked.{AnswersRound, AreOfWorkers, MadeByCrew, workers_for};

use call_jobs::Worked;
use call_workers::{Crew, Done, Round, finish, open_round, work_all};
use host_edge::Gate;
use module_store::{ModuleStore, Naming};
use request_text::Requests;
use run_books::{Books, Put, Putter, Registry, Span, calls_in, collect_all, enter_round, put_all};
use std::alloc::Global;
use std::sync::Wait;
use std::thread::{self, Threads};
use wasm_values::NoMemory;

// What the workers of a crew made of the calls of a round, and the registry with the modules that were entered beside them. Where no
// thread can be made the first closure runs last: then all stands in the queue before the first worker asks.
fn work_round<N: Naming + Send + Sync, R: Threads + Wait + Sync, G: Gate>(
    rt: &R,
    alloc: Global,
    store: &ModuleStore<N>,
    requests: &Requests,
    span: Span,
    crew: &mut Crew<N>,
    registry: Registry<N>,
    gate: &G,
) -> Result<(Registry<N>, Vec<Worked>), NoMemory>
    requires span { IsSpan requests.now.directives span }
    requires entered { HasEntered N.config requests.now span.from registry }
    requires crew { IsReady N.config requests.now crew.old }
    requires some { 0 < calls_in requests.now.directives span }
    ensures crew { IfOk result (λ _. IsReady N.config requests.now crew.new) }
    ensures still { IfOk result (λ _. StillKnow crew.old.callers.items crew.new.callers.items) }
    ensures entered { IfOk result (λ r. HasEntered N.config requests.now span.to r.0) }
    ensures kept { IfOk result (λ r. AreKept registry.entries.items r.0.entries.items) }
    ensures answers { IfOk result (λ r. AnswersRound N.config requests.now span (workers_for requests.now.directives span crew.old) r.0 r.1.items) }
    ensures work { IfOk result (λ r. AreOfWorkers N.config requests.now.directives span crew.old
        (workers_for requests.now.directives span crew.old) r.1.items) }
{
    let count = calls_in(requests, span);
    let first = span.calls + 1;
    let round = open_round(alloc, &crew.shared, &mut crew.callers, first, count)?;
    let Round {
        jobs,
        putter,
        workers,
    } = round;
    let (shared, jobs) = (&crew.shared, &jobs);
    let many = workers.len() as u32;
    let putter = Putter {
        registry,
        own: putter,
    };
    let (done, put) = thread::join(
        rt,
        move || -> Result<Vec<Done<N>>, NoMemory>
            requires workers { All (IsNewWorker shared.now.share jobs.now) workers.items }
            requires numbers { first_of jobs.now + count_of jobs.now ≤ length shared.now.calls.items + 1 }
            ensures many { IfOk result (λ done. length done.items ≡ length workers.items) }
            ensures done { IfOk result (λ done. All (HasEnded N.config shared.entry.now jobs.entry.now) done.items) }
            ensures known { IfOk result (λ done. (tag : ℕ) → All (WorkerKnows tag) workers.items → All (DoneKnows tag) done.items) }
            ensures worked { IfOk result (λ done. AllZip (IsDone N.config shared.entry.now jobs.entry.now) workers.items done.items) }
        { work_all(rt, alloc, store, shared, jobs, workers, gate) },
        move || -> Put<N>
            requires { CanPutAll N.config requests.now span jobs.now many putter }
            ensures { HasPutAll N.config requests.entry.now span jobs.entry.now many putter result }
        { put_all(rt, alloc, store, requests, span, jobs, putter, many) },
    );
    let Put { own, registry } = put;
    let registry = registry?;
    let callers = &mut crew.callers;
    let worked = finish(rt, alloc, &crew.shared, jobs, own, callers, done?)?;
    Ok((registry, worked))
}

// The modules of a round are entered, and no call is made.
pub(crate) fn enter_alone<N: Naming, R: Wait>(
    rt: &R,
    alloc: Global,
    store: &ModuleStore<N>,
    requests: &Requests,
    span: Span,
    books: Books<N>,
) -> Result<Books<N>, NoMemory>
    requires span { IsSpan requests.now.directives span }
    requires books { AreBooks N.config requests.now span.from span.calls span.calls books }
    ensures books { IfOk result (AreBooksWithin N.config requests.now span) }
    ensures kept { IfOk result (λ after. AreKept books.registry.entries.items after.registry.entries.items) }
    ensures board { IfOk result (λ after. after.board ≡ books.board) }
{
    let Books {
        mut registry,
        board,
    } = books;
    enter_round(rt, alloc, store, requests, span, &mut registry)?;
    Ok(Books { registry, board })
}

// The modules of a round are entered, and a crew makes its calls meanwhile, if it has any. Those that it was answered Full, or
// Retired before a retire line of their module, have no line yet.
pub(crate) fn by_crew<N: Naming + Send + Sync, R: Threads + Wait + Sync, G: Gate>(
    rt: &R,
    alloc: Global,
    store: &ModuleStore<N>,
    requests: &Requests,
    span: Span,
    crew: &mut Crew<N>,
    books: Books<N>,
    gate: &G,
) -> Result<Books<N>, NoMemory>
    requires span { IsSpan requests.now.directives span }
    requires crew { IsReady N.config requests.now crew.old }
    requires books { AreBooks N.config requests.now span.from span.calls span.calls books }
    ensures crew { IfOk result (λ _. IsReady N.config requests.now crew.new) }
    ensures still { IfOk result (λ _. StillKnow crew.old.callers.items crew.new.callers.items) }
    ensures books { IfOk result (AreBooksWithin N.config requests.now span) }
    ensures made { IfOk result (MadeByCrew N.config requests.now span (Some crew.old) books) }
    ensures kept { IfOk result (λ after. AreKept books.registry.entries.items after.registry.entries.items) }
{
    if calls_in(requests, span) == 0 {
        return enter_alone(rt, alloc, store, requests, span, books);
    }
    let Books {
        registry,
        mut board,
    } = books;
    let (registry, worked) = work_round(rt, alloc, store, requests, span, crew, registry, gate)?;
    collect_all(&mut board, &crew.shared.calls, worked);
    Ok(Books { registry, board })
}
