//! The report on what a request file asks for.
ghost use Rattle.std.specs.Prelude.{◌≡◌, ◌≤◌, [], IfOk, None, Some, length, slice_get, slice_set};
ghost use Rattle.module_store.specs.Names.{Bears};
ghost use Rattle.pool_limits.specs.Plans.{plan_fault};
ghost use Rattle.request_text.specs.Text.{modules_of};
ghost use Rattle.host_report.specs.Answers.{AreAnswers, AreCollected, lines_on};
ghost use Rattle.host_report.specs.Made.{AreOfRun, WereMade, calls_shown};
ghost use Rattle.run_books.specs.Entries.{AreEntries};
ghost use Rattle.run_books.specs.Collected.{HasLine};
ghost use Rattle.host_report.specs.NextLine.{HasSource, ShowsNext, board_after, counts_after};
ghost use Rattle.host_report.specs.Report.{IsReport};
ghost use Rattle.run_books.specs.Lines.{limits_in};

use call_rounds::make_all;
use host_edge::Gate;
use module_store::{Naming, Opened};
use pool_limits::PoolConfig;
use report_text::{CallLine, ReportLine};
use request_text::{Directive, Requests};
use run_books::{Books, Entry, count_modules, entry_line};
use std::alloc::Global;
use std::marker::Brand;
use std::sync::Wait;
use std::thread::Threads;
use wasm_values::{Items, NoMemory};

// How many module lines and calls have been reported on.
#[derive(Drop)]
pub(crate) struct Counts {
    modules: usize,
    calls: u32,
}

// Takes the line of the call after so many others off the board.
fn take_line(board: &mut [Option<CallLine>], calls: u32) -> CallLine
    requires { HasLine board.old calls }
    ensures line { slice_get board.old calls ≡ Some (Some result) }
    ensures board { board.new ≡ slice_set board.old calls None }
{
    board[calls as usize].take().unwrap()
}

// The line of one directive.
fn next_line<N: Naming>(
    alloc: Global,
    directive: &Directive,
    entries: &[Entry<N>],
    board: &mut [Option<CallLine>],
    counts: &mut Counts,
) -> Result<ReportLine, NoMemory>
    requires { HasSource counts.old entries.now board.old directive.now }
    ensures line { IfOk result (ShowsNext counts.old entries.now board.old directive.now) }
    ensures board { IfOk result (λ _. board.new ≡ board_after counts.old board.old directive.now) }
    ensures counts { IfOk result (λ _. counts.new ≡ counts_after counts.old directive.now) }
{
    match directive {
        Directive::Module { name, bytes: _ } => {
            let line = entry_line(&entries[counts.modules]);
            counts.modules += 1;
            let name = name.as_slice().to_vec(alloc).map_err(|_| NoMemory)?;
            let name = Items::new(name);
            Ok(ReportLine::Module { name, line })
        }
        Directive::Call { .. } => {
            let line = take_line(board, counts.calls);
            counts.calls += 1;
            let number = counts.calls;
            Ok(ReportLine::Call { number, line })
        }
        Directive::Retire { name, module: _ } => {
            let name = name.as_slice().to_vec(alloc).map_err(|_| NoMemory)?;
            let name = Items::new(name);
            Ok(ReportLine::Retired { name })
        }
    }
}

// A line for each directive, from the entries of its modules and the lines of its calls on the board.
fn lines<N: Naming>(
    alloc: Global,
    requests: &Requests,
    entries: &[Entry<N>],
    board: &mut [Option<CallLine>],
) -> Result<Vec<ReportLine>, NoMemory>
    requires entries { AreEntries (limits_in requests.now.profile N.config) (modules_of requests.now.directives) entries.now }
    requires all { AreCollected board.old (lines_on board.old) }
    requires right { AreAnswers (limits_in requests.now.profile N.config) (modules_of requests.now.directives) requests.now.directives (lines_on board.old) }
    ensures report { IfOk result (λ lines. IsReport N.config requests.now lines.items) }
    ensures shown { IfOk result (λ lines. calls_shown lines.items ≡ lines_on board.old) }
{
    let directives = requests.directives();
    let mut counts = Counts {
        modules: 0,
        calls: 0,
    };
    let mut lines = Vec::new(alloc);
    for directive in directives {
        let line = next_line(alloc, directive, entries, board, &mut counts)?;
        lines.push(line).map_err(|_| NoMemory)?;
    }
    Ok(lines)
}

// The report under the store's configuration: the modules are loaded and the calls are made, and then there is a line for each
// directive.
fn report_in<N: Naming + Send + Sync, R: Threads + Wait + Sync, G: Gate>(
    rt: &R,
    alloc: Global,
    opened: Opened,
    slice: u32,
    requests: &Requests,
    gate: &G,
) -> Result<Vec<ReportLine>, NoMemory>
    requires name { Bears opened N.shelves N.config N.most }
    requires room { length (modules_of requests.now.directives) ≤ N.most }
    requires plan { (plan_fault N.config [] ≡ None) → plan_fault N.config requests.now.wants ≡ None }
    ensures report { IfOk result (λ lines. IsReport N.config requests.now lines.items) }
    ensures made { IfOk result (λ lines. AreOfRun N.Naming N.config requests.now slice lines.items) }
{
    let (store, desk) = opened.named::<N>();
    let made = make_all(rt, alloc, &store, desk, slice, requests, gate)?;
    let Books { registry, board } = made.into_books();
    let mut board = board.into_lines();
    lines(alloc, requests, &registry.entries, &mut board)
}

/// The report on what a request file asks for that was read under this configuration. Several workers make calls in slices of so many
/// instructions, or whole where that is 0 or the file has tenants. `gate` is told of each call.
///
/// # Errors
///
/// Memory was refused.
pub fn report<R: Threads + Wait + Sync, G: Gate>(
    rt: &R,
    alloc: Global,
    config: PoolConfig,
    slice: u32,
    requests: &Requests,
    gate: &G,
) -> Result<Vec<ReportLine>, NoMemory>
    requires plan { (plan_fault config [] ≡ None) → plan_fault config requests.now.wants ≡ None }
    ensures report { IfOk result (λ lines. IsReport config requests.now lines.items) }
    ensures made { IfOk result (λ lines. WereMade config requests.now slice lines.items) }
{
    let opened = Opened::open_for(alloc, config, count_modules(requests))?;
    report_in::<Brand, R, G>(rt, alloc, opened, slice, requests, gate)
}
