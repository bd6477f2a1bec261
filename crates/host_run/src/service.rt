//! The host as one call.
ghost use Rattle.std.specs.Prelude.{◌≡◌, ◌⊎◌, ◌+◌, ◌≤◌, ℕ, Bool, List, Some, None, IfSome, IsErrAnd, IsOk, IsOkAnd, false, is_some, length, true};
ghost use Rattle.std.specs.Io.KnownBytes.{Appends, Consumes, IsAtEnd};
ghost use Rattle.host_edge.specs.Streams.{Rose};
ghost use Rattle.host_run.specs.Serving.{Delivers, IsDue, IsStatus, lines_text, load_of, reads_source, refused_words, texts_of};
ghost use Rattle.host_run.specs.Streams.{TakesAtMost};
ghost use Rattle.host_report.specs.Report.{IsReport};
ghost use Rattle.report_text.specs.declared.report.ReportLine.{ReportLine};
ghost use Rattle.request_text.specs.Refusal.{refusal_line};
ghost use Rattle.request_text.specs.Text.{requests_of};
ghost use Rattle.pool_limits.specs.declared.numbers.Numbers.{Numbers};
ghost use Rattle.command_line.specs.Words.{command_of};
ghost use Rattle.command_line.specs.declared.words.Command.TheVariants.{Make, Run};

use crate::due::{REFUSED_WORDS, due_text};
use crate::status::Status;
use crate::streams::{InputFault, write_text};
use host_edge::{Failed, Gate, Sink, Source};
use request_text::MOST_BYTES;
use std::alloc::Global;
use std::sync::Wait;
use std::thread::Threads;

/// Runs the host on the words of a command line, of which the first is the program's name. `run` reads a request file from
/// the source, makes its calls in the file's profile of WebAssembly, and writes the report on them, or its summary. `make`
/// writes a request file and reads nothing. The whole text is made before the first write.
///
/// Returns the program's exit status: 0 after what was asked for, 2 after the reason of a refusal, 3 if the source failed,
/// 4 if the sink failed, and 5 for want of memory. `gate` is told of each call.
pub fn serve<S: Source, K: Sink, G: Gate>(
    rt: &(impl Threads + Wait + Sync),
    alloc: Global,
    words: &[&str],
    source: &mut S,
    sink: &mut K,
    gate: &G,
) -> u8
    ensures status { IsStatus result }

    // 0, after the report on all that the source had left, or its summary, or after a load
    ensures report { (numbers : Numbers) (summary : Bool) (slice : ℕ) → command_of (texts_of words.now) ≡ Some (Run numbers summary slice)
        → result ≡ 0 → IfSome (S.left source.old) (λ bytes. IsOkAnd (requests_of numbers bytes) (λ requests.
        (lines : List ReportLine) × IsReport numbers requests lines
        × Appends (K.written sink.old) (K.written sink.new) (lines_text summary lines))) }
    ensures end { reads_source (command_of (texts_of words.now)) ≡ true → result ≡ 0 → IsAtEnd (S.left source.new) }
    ensures load { (seed count : ℕ) → command_of (texts_of words.now) ≡ Some (Make seed count)
        → Delivers (λ due. due ≡ load_of seed count) (K.written sink.old) (K.written sink.new) result }

    // 2, after the line that refuses the words, or the file that was read
    ensures refused_words { command_of (texts_of words.now) ≡ None
        → Delivers (λ due. due ≡ refused_words) (K.written sink.old) (K.written sink.new) result }
    ensures unread { reads_source (command_of (texts_of words.now)) ≡ false → source.new ≡ source.old }
    ensures refused_file { (numbers : Numbers) (summary : Bool) (slice : ℕ) → command_of (texts_of words.now) ≡ Some (Run numbers summary slice)
        → result ≡ 2 → IfSome (S.left source.old) (λ bytes. IsErrAnd (requests_of numbers bytes) (λ why.
        Appends (K.written sink.old) (K.written sink.new) (refusal_line why))) }
    ensures all_read { reads_source (command_of (texts_of words.now)) ≡ true → (result ≡ 0) ⊎ ((result ≡ 2) ⊎ (result ≡ 4))
        → IfSome (S.left source.old) (λ bytes. length bytes ≤ MOST_BYTES → IsAtEnd (S.left source.new)) }

    // 3 and 4, for a fault alone, and 5
    ensures source_failed { result ≡ 3
        → Rose (S.faults source.old) (S.faults source.new) × (sink.new ≡ sink.old) }
    ensures sink_failed { result ≡ 4 → Rose (K.faults sink.old) (K.faults sink.new) }
    ensures no_memory { result ≡ 5 → (sink.new ≡ sink.old) × (S.faults source.new ≡ S.faults source.old) }
    ensures short { (result ≡ 3) ⊎ (result ≡ 5) → TakesAtMost (S.left source.old) (S.left source.new) MOST_BYTES }
    ensures quiet { (result ≡ 0) ⊎ (result ≡ 2)
        → (S.faults source.new ≡ S.faults source.old) × (K.faults sink.new ≡ K.faults sink.old) }
    ensures later { (S.faults source.old ≤ S.faults source.new) × (K.faults sink.old ≤ K.faults sink.new) }

    // for all bytes that the source had left, and for those that were taken
    ensures due { IfSome (S.left source.old) (λ bytes.
        Delivers (IsDue (texts_of words.now) bytes) (K.written sink.old) (K.written sink.new) result) }
    ensures taken { (result ≡ 0) ⊎ ((result ≡ 2) ⊎ (result ≡ 4)) → (bytes : List ℕ)
        × Consumes (S.left source.old) (S.left source.new) bytes
        × Delivers (IsDue (texts_of words.now) bytes) (K.written sink.old) (K.written sink.new) result }

    ensures accepted { result ≡ 0 → is_some (command_of (texts_of words.now)) ≡ true }
    ensures read { result ≡ 3 → reads_source (command_of (texts_of words.now)) ≡ true }
    ensures at_most { TakesAtMost (S.left source.old) (S.left source.new) (MOST_BYTES + 1) }
    ensures complete { (numbers : Numbers) (summary : Bool) (slice : ℕ) → command_of (texts_of words.now) ≡ Some (Run numbers summary slice)
        → IfSome (S.left source.old) (λ bytes. IsOk (requests_of numbers bytes)
        → (Rose (S.faults source.old) (S.faults source.new) → ⊥) → (Rose (K.faults sink.old) (K.faults sink.new) → ⊥)
        → (result ≡ 0) ⊎ (result ≡ 5)) }
    ensures complete_load { (seed count : ℕ) → command_of (texts_of words.now) ≡ Some (Make seed count)
        → (Rose (K.faults sink.old) (K.faults sink.new) → ⊥) → (result ≡ 0) ⊎ (result ≡ 5) }
{
    match due_text(rt, alloc, words, source, gate) {
        Ok(due) => match write_text(sink, due.text.bytes()) {
            Ok(()) => due.status,
            Err(Failed) => Status::SinkFailed.code(),
        },
        Err(InputFault::Failed) => Status::SourceFailed.code(),
        Err(InputFault::NoMemory) => Status::NoMemory.code(),
    }
}

/// Refuses words that are not text: writes the line that says so. Returns the exit status: 2, or 4 if the sink failed.
pub fn refuse_words<K: Sink>(sink: &mut K) -> u8
    ensures status { (result ≡ 2) ⊎ (result ≡ 4) }
    ensures gives { Delivers (λ due. due ≡ refused_words) (K.written sink.old) (K.written sink.new) result }
    ensures sink_failed { result ≡ 4 → Rose (K.faults sink.old) (K.faults sink.new) }
    ensures quiet { result ≡ 2 → K.faults sink.new ≡ K.faults sink.old }
    ensures later { K.faults sink.old ≤ K.faults sink.new }
{
    match write_text(sink, REFUSED_WORDS) {
        Ok(()) => Status::Refused.code(),
        Err(_) => Status::SinkFailed.code(),
    }
}
