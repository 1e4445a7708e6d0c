//! Laws of looks, of rows, and of reports as JSON. Each function does nothing: its contract is the law.
ghost use Rattle.job_view.specs.Worked.{LooksAreWorkedOut};
ghost use Rattle.job_view.specs.Laws.{RowsAreOfRuns};
ghost use Rattle.job_view.specs.JsonLaws.{EachReportIsReadBack};
ghost use Rattle.job_view.specs.WorkedJson.{ReportsAreWorkedOut};

/// What is drawn of two arrays, one with a width, one also over supersteps, and of names that no array has; widths; and how many
/// rows there are.
pub fn looks_are_worked_out()
    ensures { LooksAreWorkedOut }
{}

/// The row of a superstep is the array as a run leaves it whose limit is the number of that superstep.
pub fn rows_are_of_runs()
    ensures { RowsAreOfRuns }
{}

/// Whoever reads the object by the grammar of RFC 8259 gets the members, lists, strings and numbers that it was written from, in
/// their order.
pub fn each_report_is_read_back()
    ensures { EachReportIsReadBack }
{}

/// A report with prints, arrays and numbers of both signs, and the four ends of a job.
pub fn reports_are_worked_out()
    ensures { ReportsAreWorkedOut }
{}
