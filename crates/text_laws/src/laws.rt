//! Laws on texts that are a job's. Each function does nothing: its contract is the law.
ghost use Rattle.text_laws.specs.Laws.{
  TextsOfJobsAreRead,
  OneJobAText,
  TextsAreReadAsTheirJobs,
  EachTextIsOneJobsOrRefused,
  CanonicalTextsAreRead,
  WritingTwiceIsWritingOnce,
};
ghost use Rattle.text_laws.specs.Worked.{TextsAreWorkedOut};

/// A text of a job is read as that job, if it is short, has allowed bytes only, and its lines that aren't skipped are
/// the job's as they are written.
pub fn texts_of_jobs_are_read()
    ensures { TextsOfJobsAreRead }
{}

/// A text is of one job at most.
pub fn one_job_a_text()
    ensures { OneJobAText }
{}

/// A text is read as a job exactly if it is a text of that job.
pub fn texts_are_read_as_their_jobs()
    ensures { TextsAreReadAsTheirJobs }
{}

/// Each text is a job's or is refused, and never both.
pub fn each_text_is_one_jobs_or_refused()
    ensures { EachTextIsOneJobsOrRefused }
{}

/// The canonical text of a job is read as that job, if it has no more bytes than a text may have.
pub fn canonical_texts_are_read()
    ensures { CanonicalTextsAreRead }
{}

/// What the canonical text of a read job is read as is that same job, and so has that same canonical text.
pub fn writing_twice_is_writing_once()
    ensures { WritingTwiceIsWritingOnce }
{}

/// What a text with each statement is read as, and written as again, and two refusals, worked out by hand.
pub fn texts_are_worked_out()
    ensures { TextsAreWorkedOut }
{}
