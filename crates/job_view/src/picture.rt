//! The picture of a report.
ghost use Rattle.std.specs.Prelude.{◌≡◌, ◌++◌, ◌-◌, ◌<◌, OnOk, IfOk, codes, option_map, None};
ghost use Rattle.std.specs.List.{flat_map};
ghost use Rattle.phase_records.specs.StatusSeen.{status_seen};
ghost use Rattle.job_view.specs.Picture.{
  below,
  ending,
  fault_ending,
  file,
  group_of as drawn_group,
  head,
  heights,
  legend,
  lines,
  most_parties,
  named,
  part_head,
  picture,
  picture_with as drawn_with,
  plain,
  shared_by,
  sharing,
  shown_columns as drawn_shown,
  supersteps,
  title,
};
ghost use Rattle.job_view.specs.Views.{viewed, views_of};

use crate::axes::{push_party_ticks, push_step_ticks};
use crate::cells::{push_escaped, push_strips};
use crate::columns::{Column, columns_of, greatest, join, push_all_bars, push_all_ticks};
use crate::panels::{Panel, push_panels, whole_height};
use crate::pieces::{push_field, push_text};
use phase_records::{JobStatus, Report};
use std::alloc::{AllocError, Global};
use superstep_memory::arrays::Arrays;

// The largest number of columns.
const MOST_COLUMNS: usize = 4000;

// Returns the number of supersteps that share a column.
fn group_of(steps: usize) -> usize
    ensures group { result ≡ drawn_group steps }
    ensures some { 0 < result }
{
    steps.div_ceil(MOST_COLUMNS).max(1)
}

// Appends the fault that ended the job.
fn push_fault(out: &mut Vec<u8>, code: u8, step: u32) -> Result<(), AllocError>
    ensures { OnOk result (out.new.items ≡ out.old.items ++ fault_ending code step) }
{
    push_field(out, b"fault ", code)?;
    push_field(out, b" in superstep ", step)
}

// Appends how the job ended.
fn push_ending(out: &mut Vec<u8>, status: &JobStatus) -> Result<(), AllocError>
    ensures { OnOk result (out.new.items ≡ out.old.items ++ ending (status_seen status.now)) }
{
    match status {
        JobStatus::Ended(_) => push_text(out, b"ended"),
        JobStatus::Fault { code, step, .. } => push_fault(out, *code, *step),
        JobStatus::Limit(_) => push_text(out, b"stopped at the limit"),
    }
}

// Appends how many supersteps share a column.
fn push_shared(out: &mut Vec<u8>, group: usize) -> Result<(), AllocError>
    ensures { OnOk result (out.new.items ≡ out.old.items ++ shared_by group) }
{
    push_field(out, b", each column the greatest of ", group)?;
    push_text(out, b" supersteps")
}

// Appends how many supersteps share a column, if several do.
fn push_sharing(out: &mut Vec<u8>, group: usize) -> Result<(), AllocError>
    ensures { OnOk result (out.new.items ≡ out.old.items ++ sharing group) }
{
    if 1 < group {
        return push_shared(out, group);
    }
    Ok(())
}

// Appends the name of a picture.
fn push_named(out: &mut Vec<u8>, name: Option<&str>) -> Result<(), AllocError>
    ensures { OnOk result (out.new.items ≡ out.old.items ++ named (option_map (λ s. s.now) name.entry)) }
{
    let Some(name) = name else {
        return Ok(());
    };
    let bytes = name.as_bytes();
    if bytes.is_empty() {
        return Ok(());
    }
    push_escaped(out, bytes)?;
    push_text(out, b": ")
}

// Appends the title.
fn push_title(
    out: &mut Vec<u8>,
    name: Option<&str>,
    steps: usize,
    most: u32,
    status: &JobStatus,
) -> Result<(), AllocError>
    ensures { OnOk result (out.new.items ≡ out.old.items ++ title (option_map (λ s. s.now) name.entry) steps most (status_seen status.now)) }
{
    push_text(out, b"<text class=\"t\" x=\"20\" y=\"24\">")?;
    push_named(out, name)?;
    push_field(out, b"supersteps ", steps)?;
    push_field(out, b", parties at most ", most)?;
    push_text(out, b", ")?;
    push_ending(out, status)?;
    push_sharing(out, group_of(steps))?;
    push_text(out, b"</text>\n")
}

// Appends the size and the colours.
fn push_head(out: &mut Vec<u8>, high: u128) -> Result<(), AllocError>
    ensures { OnOk result (out.new.items ≡ out.old.items ++ head high) }
{
    push_field(
        out,
        b"<svg xmlns=\"http://www.w3.org/2000/svg\" viewBox=\"0 0 920 ",
        high,
    )?;
    push_text(out, b"\" font-family=\"sans-serif\" font-size=\"12\">\n")?;
    push_text(
        out,
        b"<style>.p,.c{fill:#6d9fd6}.l{fill:#d9776c}.s{fill:#6fbf73}.d{fill:#444}.t{font-size:15px;font-weight:bold}.n{text-anchor:end}.m,.v{text-anchor:middle}.a{stroke:#ccc}.o{fill:none;stroke:#999}</style>\n",
    )?;
    push_text(
        out,
        b"<rect width=\"100%\" height=\"100%\" fill=\"#fff\"/>\n",
    )
}

// Appends what the colours mean.
fn push_legend(out: &mut Vec<u8>) -> Result<(), AllocError>
    ensures { OnOk result (out.new.items ≡ out.old.items ++ legend) }
{
    push_text(
        out,
        b"<text class=\"n\" x=\"71\" y=\"42\">parties</text><text class=\"n\" x=\"71\" y=\"265\">printed</text><text class=\"n\" x=\"71\" y=\"279\">superstep</text>\n",
    )?;
    push_text(
        out,
        b"<rect class=\"p\" x=\"80\" y=\"287\" width=\"10\" height=\"10\"/><text x=\"95\" y=\"296\">lives on</text>",
    )?;
    push_text(
        out,
        b"<rect class=\"l\" x=\"180\" y=\"287\" width=\"10\" height=\"10\"/><text x=\"195\" y=\"296\">left</text>",
    )?;
    push_text(
        out,
        b"<rect class=\"s\" x=\"280\" y=\"287\" width=\"10\" height=\"10\"/><text x=\"295\" y=\"296\">spawned</text>",
    )?;
    push_text(
        out,
        b"<rect class=\"d\" x=\"380\" y=\"287\" width=\"10\" height=\"10\"/><text x=\"395\" y=\"296\">some task printed</text>\n",
    )
}

// Begins a part of the file with other units.
fn push_part(out: &mut Vec<u8>, place: &[u8], across: usize, up: u32) -> Result<(), AllocError>
    ensures { OnOk result (out.new.items ≡ out.old.items ++ part_head place.now across up) }
{
    push_text(out, b"<svg x=\"80\" width=\"800\" ")?;
    push_text(out, place)?;
    push_field(out, b" preserveAspectRatio=\"none\" viewBox=\"0 0 ", across)?;
    push_field(out, b" ", up)?;
    push_text(out, b"\" overflow=\"visible\">\n")
}

// Appends the lines across.
fn push_lines(out: &mut Vec<u8>, most: u32) -> Result<(), AllocError>
    ensures { OnOk result (out.new.items ≡ out.old.items ++ lines most) }
{
    push_part(out, b"y=\"50\" height=\"200\"", 1, most)?;
    push_party_ticks(out, most)?;
    push_text(out, b"</svg>\n")
}

// Appends the bars, with units that go up.
fn push_heights(
    out: &mut Vec<u8>,
    steps: usize,
    most: u32,
    columns: &[Column],
) -> Result<(), AllocError>
    ensures { OnOk result (out.new.items ≡ out.old.items ++ heights steps most columns.now) }
{
    push_part(out, b"y=\"50\" height=\"200\"", steps, most)?;
    push_field(out, b"<g transform=\"scale(1,-1) translate(0,-", most)?;
    push_text(out, b")\">\n")?;
    push_all_bars(out, columns)?;
    push_text(out, b"</g>\n</svg>\n")
}

// Appends what is below the columns: ticks where tasks printed, and numbers.
fn push_below(out: &mut Vec<u8>, steps: usize, columns: &[Column]) -> Result<(), AllocError>
    requires { 0 < steps }
    ensures { OnOk result (out.new.items ≡ out.old.items ++ below steps columns.now) }
{
    push_part(out, b"y=\"257\" height=\"8\"", steps, 1)?;
    push_all_ticks(out, columns)?;
    push_text(out, b"</svg>\n")?;
    push_part(out, b"y=\"267\" height=\"20\"", steps, 1)?;
    push_step_ticks(out, steps)?;
    push_text(out, b"</svg>\n")
}

// Appends the supersteps as these columns.
fn push_supersteps(
    out: &mut Vec<u8>,
    name: Option<&str>,
    steps: usize,
    most: u32,
    status: &JobStatus,
    columns: &[Column],
) -> Result<(), AllocError>
    ensures { OnOk result (out.new.items ≡ out.old.items ++ supersteps (option_map (λ s. s.now) name.entry) steps most (status_seen status.now) columns.now) }
{
    push_title(out, name, steps, most, status)?;
    push_legend(out)?;
    push_lines(out, most.max(1))?;
    push_heights(out, steps.max(1), most.max(1), columns)?;
    push_below(out, steps.max(1), columns)
}

// Returns the columns of a report, and the most parties.
fn shown_columns(alloc: Global, report: &Report) -> Result<(Vec<Column>, u32), AllocError>
    ensures columns { IfOk result (λ shown. shown.0.items ≡ drawn_shown report.now) }
    ensures most { IfOk result (λ shown. shown.1 ≡ most_parties report.now) }
{
    let columns = columns_of(alloc, &report.prints, &report.records)?;
    let most = greatest(&columns).counts.parties;
    let steps = report.records.len();
    let group = group_of(steps);
    let shown = join(alloc, steps.div_ceil(group), group, &columns)?;
    Ok((shown, most))
}

// Appends the whole file.
fn push_file(
    alloc: Global,
    out: &mut Vec<u8>,
    report: &Report,
    name: Option<&str>,
    panels: &[Panel<'_>],
) -> Result<(), AllocError>
    ensures { OnOk result (out.new.items ≡ out.old.items ++ drawn_with (option_map (λ s. s.now) name.entry) panels.now report.now) }
{
    let (columns, most) = shown_columns(alloc, report)?;
    let steps = report.records.len();
    push_head(out, whole_height(panels)?)?;
    push_supersteps(out, name, steps, most, &report.status, &columns)?;
    push_panels(alloc, out, 310, panels)?;
    push_text(out, b"</svg>\n")
}

// Appends the whole file, with each array as a strip.
fn push_plain(
    out: &mut Vec<u8>,
    steps: usize,
    most: u32,
    status: &JobStatus,
    columns: &[Column],
    arrays: &Arrays,
) -> Result<(), AllocError>
    ensures { OnOk result (out.new.items ≡ out.old.items ++ plain steps most (status_seen status.now) columns.now arrays.now) }
{
    push_head(out, 320 + 50 * u128::from(arrays.len() as u64))?;
    push_supersteps(out, None, steps, most, status, columns)?;
    push_strips(out, arrays)?;
    push_text(out, b"</svg>\n")
}

/// Returns the picture of a report, as the text of an SVG file: a title, for each superstep a column whose parts are the
/// parties that live on, that left and that were spawned, with a tick where tasks printed, and each array as a strip of cells.
/// Over 4000 supersteps share columns, so that there are at most 4000.
pub fn picture_of(alloc: Global, report: &Report) -> Result<Vec<u8>, AllocError>
    ensures { IfOk result (λ text. text.items ≡ picture report.now) }
{
    let (columns, most) = shown_columns(alloc, report)?;
    let mut out = Vec::new(alloc);
    let steps = report.records.len();
    push_plain(
        &mut out,
        steps,
        most,
        &report.status,
        &columns,
        &report.arrays,
    )?;
    Ok(out)
}

/// Returns the picture of a report as [`picture_of`] draws it, but with this name before its title, and with these panels in
/// place of its arrays.
#[tactic(auto, using(crate::proofs::Viewing::shown))]
pub fn picture_with(
    alloc: Global,
    report: &Report,
    name: Option<&str>,
    panels: &[Panel<'_>],
) -> Result<Vec<u8>, AllocError>
    ensures panels { IfOk result (λ text. text.items ≡ drawn_with (option_map (λ s. s.now) name.entry) panels.now report.now) }
    ensures views { IfOk result (λ text. text.items ≡ viewed (option_map (λ s. s.now) name.entry) (views_of panels.now) report.now) }
{
    let mut out = Vec::new(alloc);
    push_file(alloc, &mut out, report, name, panels)?;
    Ok(out)
}
