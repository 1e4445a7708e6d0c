//! The cells of an array at some supersteps.
ghost use Rattle.std.specs.Prelude.{◌≡◌, ◌≤◌, ◌++◌, OnOk, IfOk};
ghost use Rattle.step_core.specs.Program.{program_of};
ghost use Rattle.job_view.specs.Look.{named};
ghost use Rattle.job_view.specs.Rows.{cells_or_none, rows};

use crate::views::cells_named;
use std::alloc::{AllocError, Global};
use step_core::JobSteps;
use superstep_memory::arrays::Arrays;
use task_code::job::Job;

// Appends the cells of the array of this name.
fn push_row(values: &mut Vec<i64>, arrays: &Arrays, name: &[u8]) -> Result<(), AllocError>
    ensures { OnOk result (values.new.items ≡ values.old.items ++ cells_or_none (named name.now arrays.now)) }
{
    match cells_named(arrays, name) {
        Some(cells) => values.extend_from_slice(cells),
        None => Ok(()),
    }
}

/// Returns the cells of an array as this many supersteps begin, one after another: superstep 0, `every`, 2 `every` and so on.
/// After the end they are as the job left them. Runs the job once, on this thread, to the last of these supersteps.
pub fn rows_of(
    alloc: Global,
    job: &Job,
    limit: u32,
    name: &[u8],
    every: u32,
    count: usize,
) -> Result<Vec<i64>, AllocError>
    requires limit { 1 ≤ limit }
    requires count { 1 ≤ count }
    ensures { IfOk result (λ values. values.items ≡ rows (program_of job.now) limit name.now every count) }
{
    let mut run = JobSteps::new(alloc, job, limit)?;
    let mut values = Vec::new(alloc);
    push_row(&mut values, run.arrays(), name)?;
    let mut done: usize = 1;
    while done < count {
        run.advance(alloc, every)?;
        push_row(&mut values, run.arrays(), name)?;
        done += 1;
    }
    Ok(values)
}
