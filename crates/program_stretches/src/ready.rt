//! What a run begins with.
ghost use Rattle.std.specs.Prelude.{◌≡◌, ◌≤◌, IfOk, length};
ghost use Rattle.std.specs.Arc.{arc_value};
ghost use Rattle.program_stretches.specs.Parts.{AreFresh, tasks_in};

use crate::cut::cut;
use crate::part::Part;
use programs::program::OnPath;
use std::alloc::{AllocError, Global};
use std::sync::Arc;
use superstep_memory::arrays::Arrays;

/// What a run begins with: the arrays, for two that share them, and the stretches of `count` tasks.
#[derive(Drop)]
pub struct Ready<T: OnPath> {
    /// The arrays.
    pub arrays: Arc<Arrays>,
    /// The same arrays, for the other.
    pub shared: Arc<Arrays>,
    /// The number of tasks.
    pub count: usize,
    /// The stretches.
    pub parts: Vec<Option<Part<T>>>,
}

/// Shares the arrays, and cuts the tasks into about `pieces` stretches.
pub fn get_ready<T: OnPath>(
    alloc: Global,
    arrays: Arrays,
    tasks: Vec<T>,
    pieces: usize,
) -> Result<Ready<T>, AllocError>
    requires { 1 ≤ pieces }
    ensures arrays { IfOk result (λ r. (arc_value r.arrays ≡ arrays) × (arc_value r.shared ≡ arrays)) }
    ensures count { IfOk result (λ r. r.count ≡ length tasks.items) }
    ensures fresh { IfOk result (λ r. AreFresh 0 r.parts.items) }
    ensures tasks { IfOk result (λ r. tasks_in r.parts.items ≡ tasks.items) }
{
    let mut parts = Vec::with_capacity(alloc, 1)?;
    let first = Part::new(alloc)?;
    let arrays = share(alloc, arrays)?;
    let shared = Arc::try_clone(&arrays)?;
    let count = tasks.len();
    cut(alloc, tasks, pieces, first, &mut parts);
    Ok(Ready {
        arrays,
        shared,
        count,
        parts,
    })
}

// Makes arrays that several may share.
fn share(alloc: Global, arrays: Arrays) -> Result<Arc<Arrays>, AllocError>
    ensures { IfOk result (λ shared. arc_value shared ≡ arrays) }
{
    match Arc::new(alloc, arrays) {
        Ok(shared) => Ok(shared),
        Err(_) => Err(AllocError),
    }
}
