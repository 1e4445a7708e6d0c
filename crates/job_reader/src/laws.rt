//! Laws on the text of jobs. Each function does nothing: its contract is the law.
ghost use Rattle.job_reader.specs.Laws.{ReadTextsAreJobs, EachTextIsReadOrRefused};

/// A text that isn't refused is, by the grammar, the text of the job that it is read as: its lines that aren't skipped
/// are the job's arrays, bodies and start lines as they are written.
pub fn read_texts_are_jobs()
    ensures { ReadTextsAreJobs }
{}

/// Each text is read as a job, whose text it is by the grammar, or has a first refusal, and never both.
pub fn each_text_is_read_or_refused()
    ensures { EachTextIsReadOrRefused }
{}
