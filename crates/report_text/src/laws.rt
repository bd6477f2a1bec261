//! Laws of the definitions, as contracts of functions that do nothing.
ghost use Rattle.std.specs.Prelude.{◌≡◌, ◌+◌, List, length, count_by};
ghost use Rattle.std.specs.List.{sum_by};
ghost use Rattle.report_text.specs.Summary.{count_of, is_retirement, labels};
ghost use Rattle.report_text.specs.declared.report.ReportLine.{ReportLine};

/// Each line of a report counts under one label of its summary, but for the lines of retirements: with these the six counts add to the
/// number of lines.
pub fn each_line_counts_once_or_is_a_retirement()
    ensures { (lines : List ReportLine) → sum_by (λ label. count_of lines label) labels + count_by is_retirement lines ≡ length lines }
{}
