//! Why the text of a job is refused.
ghost use Rattle.std.specs.Prelude.{◌≡◌, IfOk, option_map};
ghost use Rattle.job_reader.specs.Reading.{job_in};
ghost use Rattle.refusal_reasons.specs.JobReasons.{job_reason_by};

use crate::meaning::Kind;
use crate::place::job_mark;
use crate::reason::refusal_reason;
use job_reader::{ReadJobFault, read_job};
use std::alloc::{AllocError, Global};

/// Returns why the text of a job is refused, or `None` if it isn't.
pub fn job_reason(alloc: Global, source: &str, text: &[u8]) -> Result<Option<Vec<u8>>, AllocError>
    ensures { IfOk result (λ reason. option_map (λ v. v.items) reason ≡ job_reason_by source.now text.now (job_in text.now)) }
{
    match read_job(alloc, text) {
        Ok(_) => Ok(None),
        Err(ReadJobFault::Text(refusal)) => {
            let mark = job_mark(alloc, text, refusal)?;
            let reason = refusal_reason(alloc, source, text, Kind::Job, refusal, mark)?;
            Ok(Some(reason))
        }
        Err(ReadJobFault::Memory) => Err(AllocError),
    }
}
