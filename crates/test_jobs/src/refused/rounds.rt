//! Rounds that are closed.
use job_reader::read_job;
use std::alloc::{AllocError, Global};
use std::test::Fail;
use step_core::{CloseFault, Delivery, Outcome, Round, run_alone};
use task_code::job::Job;

// Two tasks that put, print, spawn and sync, and two that they spawn.
const JOB: &str = "bsp 1
array a 2
body b
put a[arg] = arg
print arg
spawn c 7
sync
print arg + 1
end
body c
put a[0] = arg
end
start b 1
start b 0
";

// Hands in what each live task does.
fn hand_all_in(alloc: Global, round: &mut Round<'_>) -> Result<(), AllocError> {
    for path in round.live(alloc)? {
        if let Some(order) = round.order(alloc, path.as_slice())? {
            let delivery = Delivery::of(alloc, order)?;
            if !round.has_ended() {
                let _taken = round.accept(delivery);
            }
        }
    }
    Ok(())
}

// Closes a round that goes on, and closes it again if there was no memory. Returns true if it is as before in between, and closed
// in the end.
fn closes(alloc: Global, round: &mut Round<'_>) -> bool {
    let step = round.step();
    if round.has_ended() {
        return false;
    }
    let is_closed = match round.close_round(alloc) {
        Ok(_) => true,
        Err(CloseFault::Memory(_)) => {
            round.step() == step
                && round.missing() == 0
                && matches!(round.close_round(alloc), Ok(Outcome::Landed))
        }
        Err(CloseFault::Missing(_)) => false,
    };
    is_closed && round.step() > step
}

// Returns true if a job whose two rounds are closed leaves what it leaves on one thread.
fn is_as_alone(alloc: Global, job: &Job) -> Result<bool, AllocError> {
    let alone = run_alone(alloc, job, 3)?;
    let mut round = Round::new(alloc, job, 3)?;
    for _ in 0..2 {
        hand_all_in(alloc, &mut round)?;
        if !closes(alloc, &mut round) {
            return Ok(false);
        }
    }
    match round.report(alloc)? {
        Some(report) => Ok(report.same_as(&alone)),
        None => Ok(false),
    }
}

#[test]
fn rounds_are_closed(rt: HostRuntime) -> Result<(), Fail> {
    let job = read_job(rt.alloc(), JOB.as_bytes())?;
    assert!(rt; is_as_alone(rt.alloc(), &job)?);
    Ok(())
}
