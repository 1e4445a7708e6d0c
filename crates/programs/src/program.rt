//! Programs of supersteps.
ghost use Rattle.std.specs.Prelude.{◌≡◌, ◌≤◌, ℕ, ℤ, List, [], IfOk, length};
ghost use Rattle.programs.specs.Meaning.{Frame, Segment};
ghost use Rattle.programs.specs.Lent.{HasLeft};
ghost use Rattle.programs.specs.Done.{HasDoneRange};

use crate::blame::Blame;
use crate::deeds::Deeds;
use crate::work::{SegmentEnd, Work};
use phase_records::Print;
use std::alloc::{AllocError, Global};
use superstep_memory::arrays::Arrays;
use superstep_memory::path::Path;

/// What has a path (own).
pub trait OnPath: Drop {
    /// Its path.
    ghost path_of: { Self → List ℕ };

    /// Returns its path.
    fn path(&self) -> &Path
        ensures path { result.now.items ≡ path_of self.now }
        ensures short { length result.now.items ≤ 8 };
}

/// A program whose tasks run in supersteps (own). Implement [`task_bodies::TaskBody`] instead, unless tasks number the
/// tasks that they spawn: it needs no ghost item.
pub trait Program {
    /// A task between two supersteps.
    type Task: OnPath;

    /// The value of a task in the definitions.
    ghost Meant: { Type 0 };

    /// The value of a task in the definitions.
    ghost meant: { Self → Self.Task → Meant };

    /// Where a task is, and how many tasks it has spawned.
    ghost frame: { Self → Frame Meant };

    /// What a task may leave in a superstep, by the arrays as it began and the step.
    ghost may: { Self → Meant → List (List ℕ × List ℤ) → ℕ → Segment Meant → Type 0 };

    /// When tasks can run.
    ghost ready: { Self → Type 0 };

    /// Does the task's segment: its puts follow those in the buffer.
    fn segment(
        &self,
        alloc: Global,
        task: &mut Self::Task,
        arrays: &Arrays,
        step: u32,
        work: &mut Work<Self::Task>,
    ) -> Result<SegmentEnd, AllocError>
        requires ready { ready self.now }
        requires none_printed { work.old.prints.items ≡ [] }
        requires none_spawned { work.old.spawns.items ≡ [] }
        ensures { IfOk result (λ e. HasLeft (frame self.now) (may self.now) (meant self.now) Self.Task.path_of arrays.now step e task.old task.new work.old work.new) };

    /// The path of a task is that of its value.
    ghost keeps_paths: { (p : Self) (t : Self.Task) → (frame p).path (meant p t) ≡ Self.Task.path_of t };
}

/// A program with a loop over its tasks (own). All engines call it, so a program has one compiled copy of that loop, whichever engines
/// run it. Implement it by a call of [`do_range`](crate::in_place::do_range).
pub trait TaskLoop: Program {
    /// Does the segments of the tasks from one place to another, one after another, each in its place; what they did follows what
    /// others did. Or returns the first fault; then what `work`, the deeds and the tasks hold means nothing, and what was printed
    /// before stays.
    fn segments(
        &self,
        alloc: Global,
        arrays: &Arrays,
        step: u32,
        tasks: &mut Vec<Self::Task>,
        first: usize,
        end: usize,
        work: &mut Work<Self::Task>,
        deeds: &mut Deeds<Self::Task>,
        prints: &mut Vec<Print>,
    ) -> Result<Option<Blame>, AllocError>
        requires ready { Self.ready self.now }
        requires rises { first ≤ end }
        requires within { end ≤ length tasks.old.items }
        ensures done { IfOk result (λ fault. HasDoneRange (Self.frame self.now) (Self.may self.now) (Self.meant self.now) Self.Task.path_of arrays.now step fault first end
            work.old.puts work.new.puts tasks.old.items tasks.new.items deeds.old deeds.new prints.old.items prints.new.items) }
        ensures count { IfOk result (λ _. length tasks.new.items ≡ length tasks.old.items) };
}
