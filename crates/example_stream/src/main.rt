//! Runs the job of standard input on one thread, and writes the lines of each superstep as soon as it is closed. The bytes are those
//! that `bsp run` writes.
#![tactic(auto)]

use anyhow::bail;
use job_reader::read_job;
use job_stream::stream_alone;
use phase_records::{Reader, Writer, read_all};

// The most supersteps that are taken.
const LIMIT: u32 = 1000000;

fn main(rt: HostRuntime) -> anyhow::Result<()> {
    let Ok(text) = read_all(rt.alloc(), &mut Reader::new(rt.stdin())) else {
        bail!("the job can't be read");
    };
    let Ok(job) = read_job(rt.alloc(), &text) else {
        bail!("the text is no job");
    };
    let mut output = Writer::new(rt.stdout());
    if stream_alone(rt.alloc(), &job, LIMIT, &mut output).is_err() {
        bail!("the job can't be run to its end");
    }
    Ok(())
}
