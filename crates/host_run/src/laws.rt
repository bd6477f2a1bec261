//! Laws of the definitions, as contracts of functions that do nothing.
ghost use Rattle.std.specs.Prelude.{◌≡◌, ℕ, Bool, List};
ghost use Rattle.request_calls.specs.declared.invocation.Invocation.{Invocation};
ghost use Rattle.report_text.specs.declared.report.CallLine.{CallLine};
ghost use Rattle.report_text.specs.declared.report.ReportLine.{ReportLine};
ghost use Rattle.request_text.specs.Text.{Asked};
ghost use Rattle.pool_limits.specs.declared.numbers.Numbers.{Numbers};
ghost use Rattle.run_books.specs.Lines.{limits_in};
ghost use Rattle.host_run.specs.Tenants.{CallsAt, HasReport, TellsAt, WritesAt};
ghost use Rattle.host_run.specs.Serving.{DueAnswer, IsDue};

use host_report::laws::{a_call_has_one_line, at_most_one_report, each_call_has_its_line};

/// Two reports have the same line for the same call. The two request files have the same profile, and were reported on without
/// `--summary`, under the same pages, elements, depth and frame. The calls are of the same export of a module of the same bytes,
/// with the same fuel, arguments and request, and the module is retired before the call in both files or in neither. Then the
/// lines say the same after the call's number, whatever else the files ask for.
pub fn same_line()
    ensures { (words words' : List (List ℕ)) (numbers numbers' : Numbers) (bytes bytes' : List ℕ) (requests requests' : Asked)
        (lines lines' : List ReportLine) (at at' : ℕ) (module_bytes : List ℕ) (retired : Bool) (invocation : Invocation)
        → limits_in requests.profile numbers ≡ limits_in requests'.profile numbers'
        → HasReport words numbers bytes requests lines → HasReport words' numbers' bytes' requests' lines'
        → CallsAt requests at module_bytes retired invocation → CallsAt requests' at' module_bytes retired invocation
        → (how : CallLine) × TellsAt requests lines at how × TellsAt requests' lines' at' how }
{
    each_call_has_its_line();
    a_call_has_one_line();
}

/// Of two such files the bytes that are written for the call are the same too: its line is its number, a space, the same bytes for
/// both files, and LF. It stands behind the text of the lines before it.
pub fn same_bytes()
    ensures { (words words' : List (List ℕ)) (numbers numbers' : Numbers) (bytes bytes' : List ℕ) (requests requests' : Asked)
        (lines lines' : List ReportLine) (at at' : ℕ) (module_bytes : List ℕ) (retired : Bool) (invocation : Invocation)
        → limits_in requests.profile numbers ≡ limits_in requests'.profile numbers'
        → HasReport words numbers bytes requests lines → HasReport words' numbers' bytes' requests' lines'
        → CallsAt requests at module_bytes retired invocation → CallsAt requests' at' module_bytes retired invocation
        → (told : List ℕ) × WritesAt requests lines at told × WritesAt requests' lines' at' told }
{
    each_call_has_its_line();
    a_call_has_one_line();
}

/// At most one answer, a status and a text, is due for the words of a command line and the bytes of a source.
pub fn one_answer_is_due()
    ensures { (words : List (List ℕ)) (bytes : List ℕ) (a b : DueAnswer) → IsDue words bytes a → IsDue words bytes b → a ≡ b }
{
    at_most_one_report();
}
