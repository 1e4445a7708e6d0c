//! Whether two reports are the same.
ghost use Rattle.std.specs.Prelude.{◌≡◌, ◌↔◌, IsTrue};
ghost use Rattle.phase_records.specs.StatusSeen.{status_seen};

use crate::record::{JobStatus, PhaseRecord, Print, Report};

// Returns true if two paths are the same.
fn same_path(a: &[u16], b: &[u16]) -> bool
    ensures { IsTrue result ↔ (a.now ≡ b.now) }
{
    a == b
}

// Returns true if two records are the same.
fn same_record(a: PhaseRecord, b: PhaseRecord) -> bool
    ensures { IsTrue result ↔ (a ≡ b) }
{
    a == b
}

// Returns true if two prints are the same.
fn same_print(a: &Print, b: &Print) -> bool
    ensures { IsTrue result ↔ (a.now ≡ b.now) }
{
    if a.step != b.step {
        return false;
    }
    if a.value != b.value {
        return false;
    }
    same_path(a.path.as_slice(), b.path.as_slice())
}

// Returns true if prints are the same.
fn same_prints(a: &[Print], b: &[Print]) -> bool
    ensures { IsTrue result ↔ (a.now ≡ b.now) }
{
    if a.len() != b.len() {
        return false;
    }
    for i in 0..a.len() {
        if !same_print(&a[i], &b[i]) {
            return false;
        }
    }
    true
}

// Returns true if records are the same.
fn same_records(a: &[PhaseRecord], b: &[PhaseRecord]) -> bool
    ensures { IsTrue result ↔ (a.now ≡ b.now) }
{
    if a.len() != b.len() {
        return false;
    }
    for i in 0..a.len() {
        if !same_record(a[i], b[i]) {
            return false;
        }
    }
    true
}

// Returns true if two jobs end the same way.
fn same_status(a: &JobStatus, b: &JobStatus) -> bool
    ensures { IsTrue result ↔ (status_seen a.now ≡ status_seen b.now) }
{
    match (a, b) {
        (JobStatus::Ended(steps), JobStatus::Ended(others)) => *steps == *others,
        (JobStatus::Limit(steps), JobStatus::Limit(others)) => *steps == *others,
        (
            JobStatus::Fault { code, step, path },
            JobStatus::Fault {
                code: other_code,
                step: other_step,
                path: other_path,
            },
        ) => {
            if *code != *other_code {
                return false;
            }
            if *step != *other_step {
                return false;
            }
            same_path(path.as_slice(), other_path.as_slice())
        }
        _ => false,
    }
}

impl Report {
    /// Returns true if the other report is the same: prints, records, arrays and status.
    pub fn same_as(&self, other: &Report) -> bool
        ensures { IsTrue result ↔ (self.now ≡ other.now) }
    {
        if !same_status(&self.status, &other.status) {
            return false;
        }
        if !self.arrays.same_as(&other.arrays) {
            return false;
        }
        if !same_records(self.records.as_slice(), other.records.as_slice()) {
            return false;
        }
        same_prints(self.prints.as_slice(), other.prints.as_slice())
    }
}
