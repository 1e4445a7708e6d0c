//! Why a task faults.
ghost use Rattle.std.specs.Prelude.{◌≡◌};
ghost use Rattle.task_lang.specs.FaultCode.{code_of};

use thiserror::Error;

/// Why a task faults (own). [`Fault::code`] is the number that a report has for it.
///
/// A fault ends the job. The report names the task and the superstep, and no put of that superstep lands.
#[derive(Clone, Copy, Debug, PartialEq, Eq, Error)]
pub enum Fault {
    /// 1: a sum, difference, product or quotient outside of 64 signed bits.
    #[error("a result outside of 64 signed bits")]
    Overflow,
    /// 2: a division or a remainder by 0.
    #[error("a division by 0")]
    DivideByZero,
    /// 3: an index outside its array.
    #[error("an index outside its array")]
    Index,
    /// 4: statement number 100001 of a task in one superstep.
    #[error("over 100000 statements in one superstep")]
    Budget,
    /// 5: a spawn by a task whose path has 8 numbers.
    #[error("a spawn by a task of depth 8")]
    Depth,
    /// 6: a task's ninth spawn of a superstep, or its 65536th in all.
    #[error("over 8 spawns in one superstep, or over 65535 in all")]
    Spawns,
}

impl Fault {
    /// Returns the number that a report has for this fault.
    pub fn code(self) -> u8
        ensures { result ≡ code_of self }
    {
        match self {
            Fault::Overflow => 1,
            Fault::DivideByZero => 2,
            Fault::Index => 3,
            Fault::Budget => 4,
            Fault::Depth => 5,
            Fault::Spawns => 6,
        }
    }
}
