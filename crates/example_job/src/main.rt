//! Four workers run a job of four tasks, and the program prints an array of its report.
#![tactic(auto)]

use anyhow::bail;
use jobs::{AllStart, OpenGate, Shape, read_job, run_within};

// Each task moves its cell to the next, three times.
const SHIFT: &[u8] = b"bsp 1
array a 4 5 6 7 8
body shift
let to = arg + 1
let to = to % 4
let turn = 0
while turn < 3
put a[to] = a[arg]
sync
let turn = turn + 1
end
end
start shift 0
start shift 1
start shift 2
start shift 3
";

fn main(rt: HostRuntime) -> anyhow::Result<()> {
    let job = read_job(rt.alloc(), SHIFT)?;
    // A root with two leaves. Four workers take at most 1000 supersteps, without hooks.
    let shape = Shape::from_widths(rt.alloc(), "2")?;
    let report = run_within(&rt, rt.alloc(), &job, shape, 4, 1000, &OpenGate, &AllStart)?;
    let Some((_, cells)) = report.arrays.get(0) else {
        bail!("the report has no array");
    };
    println!(rt; "{cells:?}")?;
    Ok(())
}
