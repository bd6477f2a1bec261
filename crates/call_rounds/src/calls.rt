//! The calls of a round, and those of them that the lane makes.
ghost use Rattle.std.specs.Prelude.{◌≡◌, ◌-◌, ◌<◌, ◌≤◌, ℕ, List, false, IfOk, IfSome, OnOk, Some, is_none, length, slice_get};
ghost use Rattle.wasm_values.specs.declared.profile.Profile.{Profile};
ghost use Rattle.retired_tags.specs.Passes.{steps};
ghost use Rattle.retired_tags.specs.Steps.{HasSet, Knows};
ghost use Rattle.pool_model.specs.Contents.{Named};
ghost use Rattle.run_books.specs.Entries.{IsEntry};
ghost use Rattle.call_rounds.specs.Left.{MadeOnLane, MadeRest};
ghost use Rattle.run_books.specs.Put.{module_of};
ghost use Rattle.run_books.specs.Collected.{answer_line};
ghost use Rattle.run_books.specs.Lines.{IsCallLine, limits_in};
ghost use Rattle.call_rounds.specs.Rounds.{AreBooksAfter, AreBooksWithin, AreRetired};
ghost use Rattle.run_books.specs.Books.{IsSpan};

use host_edge::Gate;
use job_queue::Board;
use module_store::{ModuleStore, Naming};
use pool_host::LaneHost;
use report_text::CallLine;
use request_text::{Directive, Invocation, Requests};
use run_books::{Books, Entry, Span, answer_line, collect, entry_at};
use std::alloc::Global;
use wasm_values::NoMemory;

// How a call of the entry's module goes, where it is retired before it or not. The gate is told of it by its number.
fn call_line<N: Naming, G: Gate>(
    alloc: Global,
    store: &ModuleStore<N>,
    entry: &Entry<N>,
    retired: bool,
    asked: &Invocation,
    number: u64,
    lane: &mut LaneHost<N>,
    gate: &G,
) -> Result<CallLine, NoMemory>
    requires { (m : Named) → module_of entry.now ≡ Some m → retired ≡ false → HasSet m.tag (steps lane.old.pass.retired) → ⊥ }
    ensures lane { lane.new.host ≡ lane.old.host }
    ensures tags { (tag : ℕ) → HasSet tag (steps lane.new.pass.retired) → HasSet tag (steps lane.old.pass.retired) }
    ensures known { (tag : ℕ) → Knows tag (steps lane.old.pass.retired) → Knows tag (steps lane.new.pass.retired) }
    ensures made { MadeOnLane N.config lane.old.host (module_of entry.now) lane.old.pass lane.new.pass }
    ensures line { (profile : Profile) (bytes : List ℕ) → IsEntry (limits_in profile N.config) bytes entry.now
        → IfOk result (IsCallLine (limits_in profile N.config) bytes retired asked.now) }
{
    match entry {
        Ok(module) => {
            let call = asked.call();
            let answer = lane.invoke(store, module, &call, number, gate);
            if retired {
                return Ok(CallLine::Retired);
            }
            let shown = asked.shown(alloc, lane.answer())?;
            Ok(answer_line(answer, shown))
        }
        Err(_) => Ok(CallLine::NoModule),
    }
}

// Whether the board has no line of this call.
fn is_left(board: &Board, number: u32) -> bool
    requires { (0 < number) × (number ≤ length board.now) }
    ensures { IfSome (slice_get board.now (number - 1)) (λ slot. result ≡ is_none slot) }
{
    board.lines()[number as usize - 1].is_none()
}

// Makes each call of a round of which the board has no line on the lane, in file order, and no other. The board then has the line of
// each, unless memory was refused.
pub(crate) fn make_left<N: Naming, G: Gate>(
    alloc: Global,
    store: &ModuleStore<N>,
    requests: &Requests,
    span: Span,
    books: &mut Books<N>,
    lane: &mut LaneHost<N>,
    gate: &G,
) -> Result<(), NoMemory>
    requires span { IsSpan requests.now.directives span }
    requires books { AreBooksWithin N.config requests.now span books.old }
    requires tags { AreRetired books.old.registry.entries.items requests.now.directives span.from (steps lane.old.pass.retired) }
    ensures registry { books.new.registry ≡ books.old.registry }
    ensures books { IfOk result (λ _. AreBooksAfter N.config requests.now span books.new) }
    ensures lane { lane.new.host ≡ lane.old.host }
    ensures tags { (tag : ℕ) → HasSet tag (steps lane.new.pass.retired) → HasSet tag (steps lane.old.pass.retired) }
    ensures known { (tag : ℕ) → Knows tag (steps lane.old.pass.retired) → Knows tag (steps lane.new.pass.retired) }
    ensures made { OnOk result (MadeRest N.config requests.now span books.old lane.old lane.new) }
{
    let directives = requests.directives();
    let Books { registry, board } = books;
    let mut number = span.calls;
    for at in span.from..span.to {
        if let Directive::Call {
            module,
            retired,
            invocation,
            ..
        } = &directives[at]
        {
            number += 1;
            let entry = entry_at(&registry.entries, *module);
            if is_left(board, number) {
                let line = call_line(
                    alloc,
                    store,
                    entry,
                    *retired,
                    invocation,
                    number as u64,
                    lane,
                    gate,
                )?;
                collect(board, number, line);
            }
        }
    }
    Ok(())
}
