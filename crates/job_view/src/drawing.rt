//! The picture of a job.
ghost use Rattle.std.specs.Prelude.{◌≡◌, ◌≤◌, ◌++◌, OnOk, IfOk, map, length};
ghost use Rattle.text_lines.specs.Text.{words_of};
ghost use Rattle.step_core.specs.Program.{program_of};
ghost use Rattle.job_view.specs.Look.{look_value};
ghost use Rattle.job_view.specs.Drawing.{all_rows, drawing};

use crate::rows::rows_of;
use crate::views::{Look, every_of, look_picture, row_count};
use crate::words::spaced_text;
use phase_records::Report;
use std::alloc::{AllocError, Global};
use task_code::job::Job;
use text_lines::split_word;

// Returns the rows of each array of these names, of a job that takes this number of supersteps.
fn rows_by_name(
    alloc: Global,
    job: &Job,
    limit: u32,
    steps: usize,
    names: &[u8],
) -> Result<Vec<Vec<i64>>, AllocError>
    requires { 1 ≤ limit }
    ensures { IfOk result (λ rows. map (λ v. v.items) rows.items ≡ all_rows (program_of job.now) limit steps (words_of names.now)) }
{
    let every = every_of(steps);
    let count = row_count(steps);
    let mut rows = Vec::new(alloc);
    let mut rest = names;
    while let Some((name, after)) = split_word(rest) {
        rows.push(rows_of(alloc, job, limit, name, every, count)?)?;
        rest = after;
    }
    Ok(rows)
}

/// Returns the picture of what a job leaves within a limit, as it is asked for, an SVG file. `report` is what the job
/// leaves. For each array that is drawn over supersteps the job is run once more, on this thread.
pub fn draw_job(
    alloc: Global,
    job: &Job,
    limit: u32,
    report: &Report,
    look: Look<'_>,
) -> Result<Vec<u8>, AllocError>
    requires { 1 ≤ limit }
    ensures { IfOk result (λ text. text.items ≡ drawing (look_value look.entry) (program_of job.now) limit report.now) }
{
    let names = spaced_text(alloc, look.over_time)?;
    let rows = rows_by_name(alloc, job, limit, report.records.len(), &names)?;
    look_picture(alloc, report, look, &rows)
}
