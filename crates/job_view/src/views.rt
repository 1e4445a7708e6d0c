//! What is drawn of each array.
ghost use Rattle.std.specs.Prelude.{◌≡◌, ◌++◌, ◌∷◌, [], ◌<◌, IfOk, OnOk, map, length, option_map, slice_get};
ghost use Rattle.text_lines.specs.Text.{words_of};
ghost use Rattle.job_view.specs.Views.{view_of, views_of};
ghost use Rattle.job_view.specs.Words.{width_in};
ghost use Rattle.job_view.specs.Look.{
  array_view,
  cells_if,
  every_of as every_for,
  form_by as form_for,
  found_view,
  look_value,
  looked,
  missing_views,
  named,
  row_count as row_count_for,
  time_form as time_form_for,
  time_view,
  time_views,
  unless_found,
  views_by,
};

use crate::words::{spaced_text, width_of};
use crate::{Form, Panel, picture_with};
use phase_records::Report;
use std::alloc::{AllocError, Global};
use superstep_memory::arrays::Arrays;
use text_lines::split_word;

/// What is asked of a picture.
#[derive(Clone, Copy)]
pub struct Look<'a> {
    /// The title before the name of the picture. `None` is none.
    pub title: Option<&'a str>,
    /// Which arrays are drawn in rows, and how many cells a row has: `NAME=N`, with commas between several. Empty is none.
    pub widths: &'a str,
    /// Which arrays are drawn over supersteps: names with commas between them. Empty is none.
    pub over_time: &'a str,
}

/// Returns how far two rows are apart after `steps` supersteps, so that there are at most 1000.
pub fn every_of(steps: usize) -> u32
    ensures { result ≡ every_for steps }
{
    (steps / 1000 + 1).min(4_294_967_295) as u32
}

/// Returns how many rows there are after `steps` supersteps.
pub fn row_count(steps: usize) -> usize
    ensures { result ≡ row_count_for steps }
{
    let every = every_of(steps) as usize;
    steps / every + 1
}

// Returns how an array of this width is drawn.
fn form_by(width: Option<u32>) -> Form
    ensures { result ≡ form_for width }
{
    match width {
        Some(across) => Form::Board { across },
        None => Form::Strip,
    }
}

// Returns how an array of this width is drawn over supersteps.
fn time_form(width: Option<u32>, every: u32) -> Form
    ensures { result ≡ time_form_for width every }
{
    match width {
        Some(across) => Form::Boards { across, every },
        None => Form::OverTime { every },
    }
}

// Returns an array as it is drawn.
fn array_panel<'a>(widths: &[u8], name: &'a str, cells: &'a [i64]) -> Panel<'a>
    ensures { view_of result ≡ array_view (words_of widths.now) (name.entry.now, cells.entry.now) }
{
    Panel {
        name,
        cells: cells.len(),
        values: cells,
        form: form_by(width_of(widths, name.as_bytes())),
    }
}

// Appends an array as it is drawn.
fn push_array<'a>(
    panels: &mut Vec<Panel<'a>>,
    widths: &[u8],
    name: &'a str,
    cells: &'a [i64],
) -> Result<(), AllocError>
    ensures { OnOk result (views_of panels.new.items ≡ views_of panels.old.items ++ array_view (words_of widths.now) (name.entry.now, cells.entry.now) ∷ []) }
{
    panels.push(array_panel(widths, name, cells))?;
    Ok(())
}

// Appends each array as it is drawn.
fn push_arrays<'a>(
    panels: &mut Vec<Panel<'a>>,
    widths: &[u8],
    arrays: &'a Arrays,
) -> Result<(), AllocError>
    ensures { OnOk result (views_of panels.new.items ≡ views_of panels.old.items ++ map (array_view (words_of widths.now)) arrays.entry.now) }
{
    for place in 0..arrays.len() {
        if let Some((name, cells)) = arrays.get(place) {
            push_array(panels, widths, name, cells)?;
        }
    }
    Ok(())
}

// Returns the cells of the array at this place if it has this name.
fn cells_at<'a>(arrays: &'a Arrays, place: usize, name: &[u8]) -> Option<&'a [i64]>
    ensures { option_map (λ s. s.now) result ≡ cells_if name.now (slice_get arrays.entry.now place) }
{
    match arrays.get(place) {
        Some((known, cells)) if known.as_bytes() == name => Some(cells),
        _ => None,
    }
}

/// Returns the cells of the array of this name, if there is one.
#[tactic(auto, using(crate::proofs::Listing::named_on, crate::proofs::Listing::named_here))]
pub fn cells_named<'a>(arrays: &'a Arrays, name: &[u8]) -> Option<&'a [i64]>
    ensures { option_map (λ s. s.now) result ≡ named name.now arrays.entry.now }
{
    for place in 0..arrays.len() {
        if let Some(cells) = cells_at(arrays, place, name) {
            return Some(cells);
        }
    }
    None
}

// Returns an array over supersteps as it is drawn, or a line that says that there is none.
fn found_panel<'a>(
    widths: &[u8],
    every: u32,
    name: &'a str,
    values: &'a [i64],
    found: Option<&[i64]>,
) -> Panel<'a>
    ensures { view_of result ≡ found_view (words_of widths.now) every name.entry.now values.entry.now (option_map (λ s. s.now) found.entry) }
{
    match found {
        Some(cells) => Panel {
            name,
            cells: cells.len(),
            values,
            form: time_form(width_of(widths, name.as_bytes()), every),
        },
        None => Panel {
            name,
            cells: 0,
            values: &[],
            form: Form::Missing,
        },
    }
}

// Returns an array over supersteps as it is drawn.
fn time_panel<'a>(
    widths: &[u8],
    every: u32,
    arrays: &Arrays,
    name: &'a str,
    values: &'a [i64],
) -> Panel<'a>
    ensures { view_of result ≡ time_view (words_of widths.now) every arrays.now name.entry.now values.entry.now }
{
    found_panel(
        widths,
        every,
        name,
        values,
        cells_named(arrays, name.as_bytes()),
    )
}

// Appends each array of these names over supersteps. A name that is no text is out of memory: it is a part of one.
fn push_times<'a>(
    panels: &mut Vec<Panel<'a>>,
    widths: &[u8],
    every: u32,
    arrays: &Arrays,
    names: &'a [u8],
    rows: &'a [Vec<i64>],
) -> Result<(), AllocError>
    ensures { OnOk result (views_of panels.new.items
        ≡ views_of panels.old.items ++ time_views (words_of widths.now) every arrays.now (words_of names.entry.now) (map (λ v. v.items) rows.entry.now)) }
{
    let mut words = names;
    let mut more = rows;
    while let Some((word, after)) = split_word(words) {
        let Some((values, others)) = more.split_first() else {
            return Ok(());
        };
        let Ok(name) = str::from_utf8(word) else {
            return Err(AllocError);
        };
        panels.push(time_panel(widths, every, arrays, name, values))?;
        words = after;
        more = others;
    }
    Ok(())
}

// Appends a line of a name that no array has.
fn push_missing<'a>(
    panels: &mut Vec<Panel<'a>>,
    arrays: &Arrays,
    name: &'a str,
) -> Result<(), AllocError>
    ensures { OnOk result (views_of panels.new.items ≡ views_of panels.old.items ++ unless_found name.entry.now (named name.entry.now arrays.now)) }
{
    match cells_named(arrays, name.as_bytes()) {
        Some(_) => Ok(()),
        None => {
            panels.push(Panel {
                name,
                cells: 0,
                values: &[],
                form: Form::Missing,
            })?;
            Ok(())
        }
    }
}

// Appends a line of a name that no array has. A name that is no text is out of memory: it is a part of one.
fn push_unknown<'a>(
    panels: &mut Vec<Panel<'a>>,
    arrays: &Arrays,
    name: &'a [u8],
) -> Result<(), AllocError>
    ensures { OnOk result (views_of panels.new.items ≡ views_of panels.old.items ++ unless_found name.entry.now (named name.entry.now arrays.now)) }
{
    match str::from_utf8(name) {
        Ok(name) => push_missing(panels, arrays, name),
        Err(_) => Err(AllocError),
    }
}

// Appends a line of each name with a width that no array has.
fn push_unknowns<'a>(
    panels: &mut Vec<Panel<'a>>,
    arrays: &Arrays,
    widths: &'a [u8],
) -> Result<(), AllocError>
    ensures { OnOk result (views_of panels.new.items ≡ views_of panels.old.items ++ missing_views arrays.now (words_of widths.entry.now)) }
{
    let mut rest = widths;
    while let Some((name, after)) = split_word(rest) {
        push_unknown(panels, arrays, name)?;
        let Some((_, more)) = split_word(after) else {
            return Ok(());
        };
        rest = more;
    }
    Ok(())
}

// Appends all that is drawn below the supersteps.
#[tactic(auto, using(crate::proofs::Listing::three_on))]
fn push_views<'a>(
    panels: &mut Vec<Panel<'a>>,
    report: &'a Report,
    widths: &'a [u8],
    names: &'a [u8],
    rows: &'a [Vec<i64>],
) -> Result<(), AllocError>
    ensures { OnOk result (views_of panels.new.items
        ≡ views_of panels.old.items ++ views_by (words_of widths.entry.now) (words_of names.entry.now) (map (λ v. v.items) rows.entry.now) report.entry.now) }
{
    let every = every_of(report.records.len());
    push_arrays(panels, widths, &report.arrays)?;
    push_times(panels, widths, every, &report.arrays, names, rows)?;
    push_unknowns(panels, &report.arrays, widths)
}

/// Returns the picture of a report as it is asked for. `rows` has the cells of each array that is drawn over supersteps, by
/// the order of the names: those at superstep 0, then at [`every_of`], and so on.
pub fn look_picture(
    alloc: Global,
    report: &Report,
    look: Look<'_>,
    rows: &[Vec<i64>],
) -> Result<Vec<u8>, AllocError>
    ensures { IfOk result (λ text. text.items ≡ looked (look_value look.entry) (map (λ v. v.items) rows.now) report.now) }
{
    let widths = spaced_text(alloc, look.widths)?;
    let names = spaced_text(alloc, look.over_time)?;
    let mut panels = Vec::new(alloc);
    push_views(&mut panels, report, &widths, &names, rows)?;
    picture_with(alloc, report, look.title, &panels)
}
