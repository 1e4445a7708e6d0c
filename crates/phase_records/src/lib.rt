//! What a job leaves: the records of its supersteps, its report, and the report's text. Readers and writers whose calls and failures
//! are counted, and texts that are read and written whole.
//!
//! # Where things are
//!
//! * `record.rt`: what a job leaves; `same.rt`: whether two jobs leave the same; `report.rt`: the text of a report
//!   (`specs/ReportText.antt`); `pieces.rt`: where a text goes, piece by piece (`specs/Taken.antt`); `laws.rt`: the laws.
//! * `device.rt`: readers and writers; `metered.rt`: a device whose calls are counted; `count.rt`: the ghost counts;
//!   `proofs/PassedBytes.antt`: bytes that went out one after another.
#![tactic(auto)]

mod count;
mod device;
mod laws;
mod metered;
mod pieces;
mod record;
mod report;
mod same;

pub use count::Count;
pub use device::{
    CountedRead, CountedWrite, DeviceFailed, MOST_BYTES, ReadFault, Reader, Writer, read_all,
    write_all,
};
pub use laws::each_step_has_its_prints;
pub use metered::Metered;
pub use record::{JobStatus, PhaseRecord, Print, Report};
pub use report::{WriteFault, text_of, text_of_parts, write_report};
