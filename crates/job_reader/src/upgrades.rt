//! Jobs of either format as jobs of format 2.
ghost use Rattle.std.specs.Prelude.{◌≡◌};
ghost use Rattle.job_reader.specs.Legal.{IsJobTree};
ghost use Rattle.job_reader.specs.Trees.{job_tree};
ghost use Rattle.job_reader.specs.Upgrade.{upgraded, upgraded_tree};

use task_code::job::Job;

/// Returns the job as one of format 2, with the same arrays, bodies, locals in their order, and start lines. A job of format 2
/// is returned as it was. Doesn't allocate.
#[tactic(auto, using(crate::proofs::Upgraded::upgraded_jobs))]
pub fn upgrade(job: Job) -> Job
    ensures upgraded { result ≡ upgraded job }
    ensures tree { job_tree result ≡ upgraded_tree (job_tree job) }
    ensures same { job.format ≡ 2 → result ≡ job }
    ensures job { IsJobTree (job_tree result) }
{
    let (_, arrays, bodies, starts) = job.into_parts();
    match Job::new(2, arrays, bodies, starts) {
        Some(job) => job,
        None => unreachable!(),
    }
}
