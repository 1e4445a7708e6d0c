//! A report as JSON.
ghost use Rattle.std.specs.Prelude.{◌≡◌, ◌++◌, ◌∷◌, [], OnOk, IfOk, codes};
ghost use Rattle.json.specs.Token.{end_object, key, string};
ghost use Rattle.json.specs.Tree.{json_tokens};
ghost use Rattle.phase_records.specs.StatusSeen.{status_seen};
ghost use Rattle.job_view.specs.ReportJson.{arrays_json, json_of, json_text, list, print_json, status_json, superstep_json};

use crate::json_arrays::write_arrays;
use crate::json_lists::{write_field, write_path, write_prints, write_supersteps};
use json::Writer;
use phase_records::{JobStatus, Report};
use std::alloc::{AllocError, Global};

// Writes how a job ended, as the first member of its status.
fn write_end(out: &mut Writer, name: &str) -> Result<(), AllocError>
    ensures tokens { OnOk result (out.new.tokens ≡ out.old.tokens ++ key (codes "end") ∷ string name.now ∷ []) }
    ensures before { out.new.before ≡ out.old.before }
{
    out.key("end")?;
    out.string(name)
}

// Writes how a job ended.
fn write_status(out: &mut Writer, status: &JobStatus) -> Result<(), AllocError>
    ensures tokens { OnOk result (out.new.tokens ≡ out.old.tokens ++ json_tokens (status_json (status_seen status.now))) }
    ensures before { out.new.before ≡ out.old.before }
{
    out.begin_object()?;
    match status {
        JobStatus::Ended(steps) => {
            write_end(out, "ended")?;
            write_field(out, "steps", *steps)?;
        }
        JobStatus::Fault { code, step, path } => {
            write_end(out, "fault")?;
            write_field(out, "code", u32::from(*code))?;
            write_field(out, "step", *step)?;
            out.key("path")?;
            write_path(out, path.as_slice())?;
        }
        JobStatus::Limit(steps) => {
            write_end(out, "limit")?;
            write_field(out, "steps", *steps)?;
        }
    }
    out.end_object()
}

// Writes the supersteps and the prints, each list after its name.
fn write_lists(out: &mut Writer, report: &Report) -> Result<(), AllocError>
    ensures tokens { OnOk result (out.new.tokens
        ≡ out.old.tokens ++ key (codes "supersteps") ∷ (json_tokens (list superstep_json report.now.records)
        ++ key (codes "prints") ∷ json_tokens (list print_json report.now.prints))) }
    ensures before { out.new.before ≡ out.old.before }
{
    write_supersteps(out, &report.records)?;
    write_prints(out, &report.prints)
}

// Writes the arrays and how the job ended, each after its name, and the end of the object.
fn write_rest(out: &mut Writer, report: &Report) -> Result<(), AllocError>
    ensures tokens { OnOk result (out.new.tokens
        ≡ out.old.tokens ++ key (codes "arrays") ∷ (json_tokens (arrays_json report.now.arrays)
        ++ key (codes "status") ∷ (json_tokens (status_json report.now.status) ++ end_object ∷ []))) }
    ensures before { out.new.before ≡ out.old.before }
{
    out.key("arrays")?;
    write_arrays(out, &report.arrays)?;
    out.key("status")?;
    write_status(out, &report.status)?;
    out.end_object()
}

// Writes a report.
fn write_report(out: &mut Writer, report: &Report) -> Result<(), AllocError>
    ensures tokens { OnOk result (out.new.tokens ≡ out.old.tokens ++ json_tokens (json_of report.now)) }
    ensures before { out.new.before ≡ out.old.before }
{
    out.begin_object()?;
    write_lists(out, report)?;
    write_rest(out, report)
}

/// Returns a report as one JSON object and a line feed: its supersteps and its prints as lists, its arrays by name in
/// declared order, and how the job ended. Numbers have all their digits: some readers of JSON round numbers beyond 2^53.
pub fn json_text_of(alloc: Global, report: &Report) -> Result<Vec<u8>, AllocError>
    ensures { IfOk result (λ text. text.items ≡ json_text report.now) }
{
    let mut out = Writer::new(Vec::new(alloc));
    write_report(&mut out, report)?;
    let mut text = out.into_inner();
    text.push(b'\n')?;
    Ok(text)
}
