//! The examples of use in the docs of calls and types: each text there is that of a test here.
use advance_rule::{EndPlan, StoredAdvance};
use job_reader::read_job;
use phase_records::JobStatus;
use step_core::{Delivery, JobSteps, Round, run_alone};
use tier_shape::Shape;
use worker_pool::{AllStart, OpenGate, run_job};

#[test]
fn a_job_from_its_text(rt: HostRuntime) {
    let text = b"bsp 1\narray a 1\nbody b\nput a[0] = 7\nend\nstart b 0\n";
    let job = read_job(rt.alloc(), text).expect(&rt, "a job");
    assert!(rt; job.bodies().len() == 1);
    assert!(rt; read_job(rt.alloc(), b"bsp 3\n").is_err());
}

#[test]
fn a_job_on_one_thread(rt: HostRuntime) {
    let text = b"bsp 1\narray a 1\nbody b\nput a[0] = 7\nend\nstart b 0\n";
    let job = read_job(rt.alloc(), text).expect(&rt, "a job");
    // At most 1000 supersteps; this job ends after one.
    let report = run_alone(rt.alloc(), &job, 1000).expect(&rt, "memory");
    assert!(rt; matches!(report.status, JobStatus::Ended(1)));
    assert!(rt; report.arrays.cell(0, 0) == Some(7));
}

#[test]
fn a_job_superstep_by_superstep(rt: HostRuntime) {
    let text = b"bsp 1\narray a 1\nbody b\nput a[0] = 7\nend\nstart b 0\n";
    let job = read_job(rt.alloc(), text).expect(&rt, "a job");
    let mut round = Round::new(rt.alloc(), &job, 1000).expect(&rt, "memory");
    // Orders may be done in any order, by any threads; each delivery is handed in once.
    let order = round.order(rt.alloc(), &[0]).expect(&rt, "memory");
    if let Some(order) = order {
        let delivery = Delivery::of(rt.alloc(), order).expect(&rt, "memory");
        if !round.has_ended() && round.accept(delivery).is_ok() && !round.has_ended() {
            assert!(rt; round.close_round(rt.alloc()).is_ok());
        }
    }
    assert!(rt; matches!(round.status(), Some(JobStatus::Ended(1))));
}

#[test]
fn a_job_whose_prints_are_taken(rt: HostRuntime) {
    let text = b"bsp 1\nbody b\nprint 7\nsync\nprint 8\nend\nstart b 0\n";
    let job = read_job(rt.alloc(), text).expect(&rt, "a job");
    let mut run = JobSteps::new(rt.alloc(), &job, 1000).expect(&rt, "memory");
    for _ in 0..2 {
        assert!(rt; run.step(rt.alloc()).is_ok());
        // The run forgets the prints that are taken, so a long run needs no more memory than a short one.
        assert!(rt; run.take_prints().len() == 1);
        assert!(rt; run.take_records().len() == 1);
    }
    assert!(rt; matches!(run.status(), Some(JobStatus::Ended(2))));
}

#[test]
fn a_job_on_workers(rt: HostRuntime) {
    let text = b"bsp 1\narray a 1\nbody b\nput a[0] = 7\nend\nstart b 0\n";
    let job = read_job(rt.alloc(), text).expect(&rt, "a job");
    // Four workers at a root and two leaves; at most 1000 supersteps, so the last phase is 999.
    let shape = Shape::from_widths(rt.alloc(), "2").expect(&rt, "a shape");
    let plan = EndPlan {
        when_empty: true,
        at: Some(999),
    };
    let rule = StoredAdvance::new(|phase, parties| parties == 0 || phase == 999, plan);
    match run_job(&rt, rt.alloc(), &job, shape, 4, rule, &OpenGate, &AllStart) {
        Ok(report) => assert!(rt; report.arrays.cell(0, 0) == Some(7)),
        Err(_) => panic!(rt; "a refused run"),
    }
}
