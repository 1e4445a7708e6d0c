//! Supersteps as columns.
ghost use Rattle.std.specs.Prelude.{◌≡◌, ◌++◌, OnOk, IfOk, take, drop};
ghost use Rattle.std.specs.List.{flat_map};
ghost use Rattle.phase_records.specs.ReportText.{rest_of};
ghost use Rattle.job_view.specs.Columns.{
  begins,
  columns_of as drawn_columns,
  no_superstep,
  greater as greater_of,
  greatest as greatest_of,
  joined,
  bar,
  bars,
  tick,
};

use crate::pieces::{push_field, push_text};
use phase_records::{PhaseRecord, Print};
use std::alloc::{AllocError, Global};

/// What a column shows: one superstep, or the greatest of several.
#[derive(Clone, Copy)]
pub struct Column {
    /// Where it begins, with its counts.
    pub counts: PhaseRecord,
    /// The number of supersteps that it shows.
    pub steps: usize,
    /// True if a task printed.
    pub prints: bool,
}

// Returns the prints after the first ones that are of this superstep.
fn skip_prints<'a>(prints: &'a [Print], step: u32) -> &'a [Print]
    ensures { result.now ≡ rest_of step prints.now }
{
    let mut rest = prints;
    while let Some((print, after)) = rest.split_first() {
        if print.step != step {
            break;
        }
        rest = after;
    }
    rest
}

// Returns true if the first of these prints is of this superstep.
fn begins_in(prints: &[Print], step: u32) -> bool
    ensures { result ≡ begins step prints.now }
{
    match prints.first() {
        Some(print) => print.step == step,
        None => false,
    }
}

/// Returns a column for each superstep.
pub(crate) fn columns_of(
    alloc: Global,
    prints: &[Print],
    records: &[PhaseRecord],
) -> Result<Vec<Column>, AllocError>
    ensures { IfOk result (λ columns. columns.items ≡ drawn_columns prints.now records.now) }
{
    let mut columns = Vec::new(alloc);
    let mut prints = prints;
    for counts in records {
        columns.push(Column {
            counts: *counts,
            steps: 1,
            prints: begins_in(prints, counts.phase),
        })?;
        prints = skip_prints(prints, counts.phase);
    }
    Ok(columns)
}

// Returns the greater of each count of two columns. The column begins where the first one does.
fn greater(a: Column, b: Column) -> Column
    ensures { result ≡ greater_of a b }
{
    Column {
        counts: PhaseRecord {
            phase: a.counts.phase,
            parties: a.counts.parties.max(b.counts.parties),
            left: a.counts.left.max(b.counts.left),
            spawned: a.counts.spawned.max(b.counts.spawned),
        },
        steps: a.steps,
        prints: a.prints || b.prints,
    }
}

// Returns the column of no superstep.
fn nothing() -> Column
    ensures { result ≡ no_superstep }
{
    let counts = PhaseRecord {
        phase: 0,
        parties: 0,
        left: 0,
        spawned: 0,
    };
    Column {
        counts,
        steps: 0,
        prints: false,
    }
}

/// Returns the greatest of each count of all columns.
pub(crate) fn greatest(columns: &[Column]) -> Column
    ensures { result ≡ greatest_of columns.now }
{
    let Some((first, rest)) = columns.split_first() else {
        return nothing();
    };
    let mut all = *first;
    for column in rest {
        all = greater(all, *column);
    }
    all
}

// Splits the columns into the first ones and the others.
fn cut(columns: &[Column], group: usize) -> (&[Column], &[Column])
    ensures front { result.0.now ≡ take group columns.now }
    ensures back { result.1.now ≡ drop group columns.now }
{
    if group <= columns.len() {
        columns.split_at(group)
    } else {
        (columns, &[])
    }
}

/// Joins columns in groups. Each new column is the greatest of its group.
pub(crate) fn join(
    alloc: Global,
    count: usize,
    group: usize,
    columns: &[Column],
) -> Result<Vec<Column>, AllocError>
    ensures { IfOk result (λ all. all.items ≡ joined count group columns.now) }
{
    let mut all = Vec::new(alloc);
    let mut rest = columns;
    let mut more = count;
    while more > 0 {
        let (front, back) = cut(rest, group);
        all.push(Column {
            steps: front.len(),
            ..greatest(front)
        })?;
        rest = back;
        more -= 1;
    }
    Ok(all)
}

// Appends a rectangle of a class.
fn push_bar(
    out: &mut Vec<u8>,
    class: &[u8],
    column: Column,
    up: u32,
    height: u32,
) -> Result<(), AllocError>
    ensures { OnOk result (out.new.items ≡ out.old.items ++ bar class.now column.counts.phase column.steps up height) }
{
    push_text(out, b"<rect class=\"")?;
    push_text(out, class)?;
    push_field(out, b"\" x=\"", column.counts.phase)?;
    push_field(out, b"\" width=\"", column.steps.saturating_sub(1))?;
    push_field(out, b".9\" y=\"", up)?;
    push_field(out, b"\" height=\"", height)?;
    push_text(out, b"\"/>\n")
}

// Appends the bars of a column.
fn push_bars(out: &mut Vec<u8>, column: Column) -> Result<(), AllocError>
    ensures { OnOk result (out.new.items ≡ out.old.items ++ bars column) }
{
    let counts = column.counts;
    let up = counts.parties.saturating_sub(counts.spawned);
    push_bar(out, b"p", column, 0, counts.parties)?;
    push_bar(out, b"l", column, 0, counts.left)?;
    push_bar(out, b"s", column, up, counts.spawned)
}

/// Appends the bars of columns.
pub(crate) fn push_all_bars(out: &mut Vec<u8>, columns: &[Column]) -> Result<(), AllocError>
    ensures { OnOk result (out.new.items ≡ out.old.items ++ flat_map bars columns.now) }
{
    for column in columns {
        push_bars(out, *column)?;
    }
    Ok(())
}

// Appends the tick of a column, if tasks printed.
fn push_tick(out: &mut Vec<u8>, column: Column) -> Result<(), AllocError>
    ensures { OnOk result (out.new.items ≡ out.old.items ++ tick column) }
{
    if column.prints {
        return push_bar(out, b"d", column, 0, 1);
    }
    Ok(())
}

/// Appends the ticks of columns.
pub(crate) fn push_all_ticks(out: &mut Vec<u8>, columns: &[Column]) -> Result<(), AllocError>
    ensures { OnOk result (out.new.items ≡ out.old.items ++ flat_map tick columns.now) }
{
    for column in columns {
        push_tick(out, *column)?;
    }
    Ok(())
}
