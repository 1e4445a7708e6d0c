//! The examples of use in the docs of calls of the command line: each text there is that of a test here.
use bsp_cli::{NoProgress, run_bytes};
use phase_records::{JobStatus, Reader, Writer};
use tier_shape::Shape;

#[test]
fn a_job_from_bytes_to_bytes(rt: HostRuntime) {
    let text = b"bsp 1\narray a 1\nbody b\nput a[0] = 7\nend\nstart b 0\n";
    let mut printed = Vec::new(rt.alloc());
    let shape = Shape::from_widths(rt.alloc(), "2").expect(&rt, "a shape");
    // Four workers, at most 1000 supersteps, and no progress is reported.
    let (mut reader, mut writer) = (Reader::new(text.as_slice()), Writer::new(&mut printed));
    let status = run_bytes(
        &rt,
        rt.alloc(),
        &mut reader,
        &mut writer,
        shape,
        4,
        1000,
        None::<&NoProgress>,
    );
    assert!(rt; matches!(status, Ok(JobStatus::Ended(1))));
    let want = b"phase 0 parties 1 left 1 spawned 0\narray a 7\nended 1\n";
    assert!(rt; printed.as_slice() == want.as_slice());
}
