//! The board collects the lines of calls.
ghost use Rattle.std.specs.Prelude.{◌≡◌, ◌-◌, ◌<◌, ◌≤◌, Some, MatchOption, length, slice_set};
ghost use Rattle.job_queue.specs.Boards.{IsOpen};
ghost use Rattle.call_jobs.specs.Entries.{AreNumbered};
ghost use Rattle.run_books.specs.Collected.{AreToCollect, IsCollected, answer_line, line_made, line_of};
ghost use Rattle.run_books.specs.Lines.{end_line};

use call_jobs::{Due, Worked, due_at};
use job_queue::Board;
use pool_host::{Answer, LaneAnswer};
use report_text::CallLine;
use wasm_values::{Items, Outcome};

// The line of a call that ended so, where this is shown of its bytes.
fn end_line(outcome: Outcome, shown: Option<Items<u8>>) -> CallLine
    ensures { result ≡ end_line outcome shown }
{
    match (outcome, shown) {
        (Outcome::Done(value), Some(bytes)) => CallLine::Sent(value, bytes),
        (outcome, _) => CallLine::Done(outcome),
    }
}

/// The line of a call that the lane answers so, where this is shown of its bytes.
pub fn answer_line(answer: LaneAnswer, shown: Option<Items<u8>>) -> CallLine
    ensures { result ≡ answer_line answer shown }
{
    match answer {
        LaneAnswer::Done(outcome) => end_line(outcome, shown),
        LaneAnswer::NoExport => CallLine::NoExport,
        LaneAnswer::BadArgs => CallLine::BadArgs,
        LaneAnswer::Retired => CallLine::Retired,
    }
}

// The line of a call that a worker made, whose module is retired before it or not. There is none where it was answered Full, or
// Retired before a retire line of its module.
fn line_of(retired: bool, answer: Option<Answer>, shown: Option<Items<u8>>) -> Option<CallLine>
    ensures { result ≡ line_of retired answer shown }
{
    match (answer, retired) {
        (None, _) => Some(CallLine::NoModule),
        (Some(_), true) => Some(CallLine::Retired),
        (Some(Answer::Done(outcome)), false) => Some(end_line(outcome, shown)),
        (Some(Answer::NoExport), false) => Some(CallLine::NoExport),
        (Some(Answer::BadArgs), false) => Some(CallLine::BadArgs),
        (Some(Answer::Retired | Answer::Full(_)), false) => None,
    }
}

/// Collects the line of a call of which there is none.
pub fn collect(board: &mut Board, number: u32, line: CallLine)
    requires { IsOpen board.old number }
    ensures { board.new ≡ slice_set board.old (number - 1) (Some line) }
{
    board.collect(number, line).unwrap();
}

// Collects the line of a call that a worker made, if it has one.
fn collect_worked(board: &mut Board, calls: &[Due], worked: Worked)
    requires numbered { AreNumbered calls.now }
    requires there { (0 < worked.number) × (worked.number ≤ length calls.now) }
    requires open { IsOpen board.old worked.number }
    ensures { MatchOption (line_made calls.now worked) (board.new ≡ board.old) (λ line. board.new ≡ slice_set board.old (worked.number - 1) (Some line)) }
{
    let Worked {
        number,
        answer,
        bytes,
    } = worked;
    let retired = due_at(calls, number).retired;
    if let Some(line) = line_of(retired, answer, bytes) {
        collect(board, number, line);
    }
}

/// Collects the line of each of these calls that workers made, if it has one.
pub fn collect_all(board: &mut Board, calls: &[Due], worked: Vec<Worked>)
    requires numbered { AreNumbered calls.now }
    requires many { length board.old ≤ length calls.now }
    requires worked { AreToCollect board.old worked.items }
    ensures { IsCollected calls.now worked.items board.old board.new }
{
    for one in worked {
        collect_worked(board, calls, one);
    }
}
