//! The job so far.
ghost use Rattle.std.specs.Prelude.{◌≤◌, length};

use superstep_memory::arrays::Arrays;
use task_code::body::Body;
use task_code::job::Start;

/// The format, the arrays, bodies and start lines that are read, and the names of the arrays and bodies in the text.
#[derive(Drop)]
pub(crate) struct SoFar<'a> {
    pub format: u32,
    pub arrays: Arrays,
    pub array_names: Vec<&'a [u8]>,
    pub bodies: Vec<Body>,
    pub body_names: Vec<&'a [u8]>,
    pub starts: Vec<Start>,
    ghost few: { length array_names.items ≤ 16 },
}
