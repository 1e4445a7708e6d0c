//! Laws on the canonical text of a job. Each function does nothing: its contract is the law.
ghost use Rattle.text_laws.specs.Canonical.{CanonicalTextsAreTexts, ReadJobsAreJobs};

/// The canonical text of a job has no byte that isn't allowed, and is by the grammar a text of that job.
pub fn canonical_texts_are_texts()
    ensures { CanonicalTextsAreTexts }
{}

/// What a text is read as is a job: it keeps all limits, and what its lines name exists.
pub fn read_jobs_are_jobs()
    ensures { ReadJobsAreJobs }
{}
