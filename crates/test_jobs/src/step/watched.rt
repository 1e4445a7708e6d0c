//! What the watcher of a job on one thread gets: each superstep once, with its number and how many tasks live.
use crate::left::job_of;
use std::alloc::Global;
use step_core::{Observe, run_observed};
use superstep_memory::arrays::Arrays;

// A task that spawns two.
const SPAWNS: &str = "bsp 1
body p
spawn c 0
spawn c 1
sync
end
body c
end
start p 0
";

// A task that faults in its second superstep.
const FAULTS: &str = "bsp 1
body b
sync
print 1 / arg
end
start b 0
";

// Two tasks that never end.
const FOREVER: &str = "bsp 1
body b
while 1
sync
end
end
start b 0
start b 0
";

// The first eight calls, and how many there were.
#[derive(Drop)]
struct Notes {
    calls: [(u32, usize); 8],
    count: usize,
}

impl Observe for Notes {
    fn superstep(&mut self, step: u32, _arrays: &Arrays, tasks: usize) {
        if let Some(call) = self.calls.get_mut(self.count) {
            *call = (step, tasks);
        }
        self.count = self.count.saturating_add(1);
    }
}

// Returns true if these calls were made, and no others.
fn are(notes: &Notes, want: &[(u32, usize)]) -> bool {
    let mut same = notes.count == want.len();
    for (call, wanted) in notes.calls.iter().zip(want) {
        same = same && call.0 == wanted.0 && call.1 == wanted.1;
    }
    same
}

// Returns true if a run of the job of this text within three supersteps makes these calls.
fn makes_calls(alloc: Global, text: &str, want: &[(u32, usize)]) -> bool {
    let Ok(job) = job_of(alloc, text) else {
        return false;
    };
    let mut notes = Notes {
        calls: [(0, 0); 8],
        count: 0,
    };
    match run_observed(alloc, &job, 3, &mut notes) {
        Ok(_) => are(&notes, want),
        Err(_) => false,
    }
}

// Jobs, and the calls of their watchers.
const ROWS: [(&str, &[(u32, usize)]); 4] = [
    (SPAWNS, &[(0, 1), (1, 3)]),
    (FAULTS, &[(0, 1), (1, 1)]),
    (FOREVER, &[(0, 2), (1, 2), (2, 2)]),
    ("bsp 1\n", &[]),
];

#[test]
fn each_superstep_is_watched_once(rt: HostRuntime) {
    for (text, calls) in &ROWS {
        assert!(rt; makes_calls(rt.alloc(), text, calls));
    }
}
