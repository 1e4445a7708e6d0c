//! The program of a body.
ghost use Rattle.std.specs.Prelude.{refl};
ghost use Rattle.task_bodies.specs.Bodies.{MemberValue, member_frame, BodyMay};

use crate::body::{Ending, TaskBody, View};
use crate::framing::{open, settle};
use crate::member::Member;
use phase_records::Print;
use programs::blame::Blame;
use programs::deeds::Deeds;
use programs::in_place::{StepScene, do_range};
use programs::program::{Program, TaskLoop};
use programs::work::{SegmentEnd as Ended, Work};
use std::alloc::{AllocError, Global};
use superstep_memory::arrays::Arrays;

/// The program whose tasks all run this body.
#[derive(Clone, Copy)]
pub struct Native<'b, B> {
    /// The body.
    pub body: &'b B,
}

impl<'b, B: TaskBody> Program for Native<'b, B> {
    type Task = Member<B::Kept>;

    ghost Meant = { MemberValue B.Kept };

    ghost meant = { λ p t. t };

    ghost frame = { λ p. member_frame };

    ghost may = { λ p t arrays step g. BodyMay (B.may p.body.now) t arrays step g };

    ghost ready = { λ p. B.ready p.body.now };

    #[inline(always)]
    fn segment(
        &self,
        alloc: Global,
        task: &mut Member<B::Kept>,
        arrays: &Arrays,
        step: u32,
        work: &mut Work<Member<B::Kept>>,
    ) -> Result<Ended, AllocError> {
        let mut out = open(alloc, work);
        let view = View {
            arrays,
            path: &task.path,
            step,
        };
        let ending = self.body.run(alloc, &mut task.kept, &view, &mut out)?;
        match ending {
            Ending::Fails(code) => Ok(Ended::Fails(code)),
            Ending::Stops => settle(task, arrays, out, work, Ended::Stops),
            Ending::Syncs => settle(task, arrays, out, work, Ended::Stays),
        }
    }

    ghost keeps_paths = { λ p t. refl };
}

impl<'b, B: TaskBody> TaskLoop for Native<'b, B> {
    fn segments(
        &self,
        alloc: Global,
        arrays: &Arrays,
        step: u32,
        tasks: &mut Vec<Member<B::Kept>>,
        first: usize,
        end: usize,
        work: &mut Work<Member<B::Kept>>,
        deeds: &mut Deeds<Member<B::Kept>>,
        prints: &mut Vec<Print>,
    ) -> Result<Option<Blame>, AllocError> {
        let scene = StepScene {
            program: self,
            arrays,
            step,
        };
        do_range(alloc, &scene, tasks, first, end, work, deeds, prints)
    }
}
