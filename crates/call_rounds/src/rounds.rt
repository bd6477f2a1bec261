//! A run, round by round: the calls before the first retire line, those between two, and those after the last.
ghost use Rattle.std.specs.Prelude.{◌≡◌, ℕ, ◌≤◌, List, IfOk, Some, length, slice_get};
ghost use Rattle.request_text.specs.declared.request.Directive.TheVariants.{Retire};
ghost use Rattle.run_books.specs.Entries.{AreKept};
ghost use Rattle.run_books.specs.Books.{AreBooks, IsSpan};
ghost use Rattle.call_rounds.specs.Rounds.{AreBooksWithin, AreOfOneRound, CrewKnows, HasCrew, IsRun};
ghost use Rattle.call_rounds.specs.Runs.{CarriedOut, IsNewRun, MadeInRounds, MadeRound};
ghost use Rattle.call_rounds.specs.Worked.{MadeByCrew};

use crate::calls::make_left;
use crate::crew_rounds::{by_crew, enter_alone};
use call_workers::{Crew, retire_for_each};
use host_edge::Gate;
use module_store::{ModuleStore, Naming};
use pool_host::LaneHost;
use request_text::{Directive, Requests};
use run_books::{Books, Span, calls_in, entry_at};
use std::alloc::Global;
use std::sync::Wait;
use std::thread::Threads;
use wasm_values::NoMemory;

/// What lives across the rounds of a run: what is written down of it, the lane, and a crew where there are several workers. So many
/// directives are behind it, and so many calls among them.
#[derive(Drop)]
pub struct Run<N: Naming> {
    pub books: Books<N>,
    pub lane: LaneHost<N>,
    pub crew: Option<Crew<N>>,
    pub done: usize,
    pub calls: u32,
}

// The modules of a round are entered, and a crew, where there is one, makes its calls meanwhile.
fn enter_and_call<N: Naming + Send + Sync, R: Threads + Wait + Sync, G: Gate>(
    rt: &R,
    alloc: Global,
    store: &ModuleStore<N>,
    requests: &Requests,
    span: Span,
    crew: &mut Option<Crew<N>>,
    books: Books<N>,
    gate: &G,
) -> Result<Books<N>, NoMemory>
    requires span { IsSpan requests.now.directives span }
    requires crew { HasCrew N.config requests.now crew.old }
    requires books { AreBooks N.config requests.now span.from span.calls span.calls books }
    ensures crew { IfOk result (λ _. HasCrew N.config requests.now crew.new) }
    ensures known { IfOk result (λ _. (tag : ℕ) → CrewKnows tag crew.old → CrewKnows tag crew.new) }
    ensures made { IfOk result (MadeByCrew N.config requests.now span crew.old books) }
    ensures books { IfOk result (AreBooksWithin N.config requests.now span) }
    ensures kept { IfOk result (λ after. AreKept books.registry.entries.items after.registry.entries.items) }
{
    match crew {
        Some(crew) => by_crew(rt, alloc, store, requests, span, crew, books, gate),
        None => enter_alone(rt, alloc, store, requests, span, books),
    }
}

// One round, up to this directive: its modules are entered, a crew makes its calls meanwhile, and the lane makes those that are left. No
// retire line may stand among its directives.
fn make_round<N: Naming + Send + Sync, R: Threads + Wait + Sync, G: Gate>(
    rt: &R,
    alloc: Global,
    store: &ModuleStore<N>,
    requests: &Requests,
    to: usize,
    run: Run<N>,
    gate: &G,
) -> Result<Run<N>, NoMemory>
    requires run { IsRun N.config requests.now run }
    requires to { (run.done ≤ to) × (to ≤ length requests.now.directives) }
    requires one_round { AreOfOneRound requests.now.directives run.done to }
    ensures run { IfOk result (IsRun N.config requests.now) }
    ensures made { IfOk result (MadeRound N.config requests.now to run) }
{
    let Run {
        books,
        mut lane,
        mut crew,
        done,
        calls,
    } = run;
    let span = Span {
        from: done,
        to,
        calls,
    };
    let count = calls_in(requests, span);
    let mut books = enter_and_call(rt, alloc, store, requests, span, &mut crew, books, gate)?;
    make_left(alloc, store, requests, span, &mut books, &mut lane, gate)?;
    Ok(Run {
        books,
        lane,
        crew,
        done: to,
        calls: calls + count,
    })
}

// Carries out the retire line at which a run stands, of the module at this place: where that was accepted it is retired on the lane, and by
// each pass of the crew.
fn retire<N: Naming>(store: &ModuleStore<N>, requests: &Requests, place: u32, run: &mut Run<N>)
    requires run { IsRun N.config requests.now run.old }
    requires line { (name : List ℕ) × (slice_get requests.now.directives run.old.done ≡ Some (Retire place name)) }
    ensures run { IsRun N.config requests.now run.new }
    ensures carried_out { CarriedOut place run.old run.new }
{
    // The directives of a request file are lawful.
    let _requests = requests.directives();
    if let Ok(module) = entry_at(&run.books.registry.entries, place) {
        run.lane.retire(store, module);
        if let Some(crew) = &mut run.crew {
            retire_for_each(&crew.shared, &mut crew.callers, store, module);
        }
    }
    run.done += 1;
}

// All rounds, and the retire lines between them.
pub(crate) fn make_rounds<N: Naming + Send + Sync, R: Threads + Wait + Sync, G: Gate>(
    rt: &R,
    alloc: Global,
    store: &ModuleStore<N>,
    requests: &Requests,
    mut run: Run<N>,
    gate: &G,
) -> Result<Run<N>, NoMemory>
    requires run { IsRun N.config requests.now run }
    requires new { IsNewRun N.config requests.now run }
    ensures { IfOk result (MadeInRounds N.config requests.now) }
{
    let directives = requests.directives();
    for at in 0..directives.len() {
        if let Directive::Retire { module, .. } = &directives[at] {
            run = make_round(rt, alloc, store, requests, at, run, gate)?;
            retire(store, requests, *module, &mut run);
        }
    }
    make_round(rt, alloc, store, requests, directives.len(), run, gate)
}
