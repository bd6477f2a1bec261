//! Laws of the definitions, as contracts of functions that do nothing.
ghost use Rattle.std.specs.Prelude.{◌≡◌, ◌+◌, ℕ, Bool, List, Some, length, slice_get, take};
ghost use Rattle.request_calls.specs.declared.invocation.Invocation.{Invocation};
ghost use Rattle.pool_limits.specs.declared.numbers.Numbers.{Numbers};
ghost use Rattle.report_text.specs.declared.report.CallLine.{CallLine};
ghost use Rattle.report_text.specs.declared.report.ModuleLine.{ModuleLine};
ghost use Rattle.report_text.specs.declared.report.ReportLine.{ReportLine};
ghost use Rattle.report_text.specs.declared.report.ReportLine.TheVariants.{Call as LineOfCall};
ghost use Rattle.request_text.specs.declared.request.Directive.TheVariants.{Call};
ghost use Rattle.request_text.specs.Text.{Asked, call_count, modules_of};
ghost use Rattle.run_books.specs.Lines.{IsCallLine, Limits, limits_in};
ghost use Rattle.host_report.specs.Made.{WereMade, calls_shown};
ghost use Rattle.host_report.specs.Report.{IsModuleLine, IsReport};

use host_calls::laws::a_call_has_one_answer;
use wasm_spec::laws::{a_loaded_module_is_within_its_limits, loading_has_at_most_one_answer};

/// The line of a module is decided by the limits, its profile of WebAssembly and its bytes.
pub fn same_module_line()
    ensures { (limits : Limits) (bytes : List ℕ) (a b : ModuleLine)
        → IsModuleLine limits bytes a → IsModuleLine limits bytes b → a ≡ b }
{
    loading_has_at_most_one_answer();
}

/// The line of a call is decided by the limits, its profile of WebAssembly, the bytes of its module, whether that is retired
/// before it, its export, its fuel, its arguments and what it is sent.
pub fn a_call_has_one_line()
    ensures { (limits : Limits) (bytes : List ℕ) (retired : Bool) (invocation : Invocation) (a b : CallLine)
        → IsCallLine limits bytes retired invocation a → IsCallLine limits bytes retired invocation b → a ≡ b }
{
    loading_has_at_most_one_answer();
    a_loaded_module_is_within_its_limits();
    a_call_has_one_answer();
}

/// What a file asks for has at most one report under the numbers of a configuration.
pub fn at_most_one_report()
    ensures { (numbers : Numbers) (requests : Asked) (a b : List ReportLine)
        → IsReport numbers requests a → IsReport numbers requests b → a ≡ b }
{
    loading_has_at_most_one_answer();
    a_loaded_module_is_within_its_limits();
    a_call_has_one_answer();
}

/// In a report each call has its line, at the call's place in the file, after the call's number: one more than the calls
/// before it.
pub fn each_call_has_its_line()
    ensures { (numbers : Numbers) (requests : Asked) (lines : List ReportLine)
        (at tenant place : ℕ) (retired : Bool) (bytes : List ℕ) (invocation : Invocation)
        → IsReport numbers requests lines → slice_get requests.directives at ≡ Some (Call tenant place retired invocation)
        → slice_get (modules_of requests.directives) place ≡ Some bytes
        → (how : CallLine) × IsCallLine (limits_in requests.profile numbers) bytes retired invocation how
        × (slice_get lines at ≡ Some (LineOfCall (1 + call_count (take at requests.directives)) how)) }
{}

/// Lines that came about by a run of a file show each of its calls once.
pub fn a_run_shows_each_call()
    ensures { (numbers : Numbers) (requests : Asked) (slice : ℕ) (lines : List ReportLine)
        → WereMade numbers requests slice lines → length (calls_shown lines) ≡ call_count requests.directives }
{}
