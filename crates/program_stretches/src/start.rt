//! A superstep as it begins.
use crate::part::Part;
use programs::program::OnPath;
use std::marker::Model;
use std::sync::Arc;
use superstep_memory::arrays::Arrays;

/// A superstep as it begins: the program with its limits, the arrays, and the stretches of the live tasks.
#[derive(Drop)]
pub struct SuperstepStart<'p, P, T: OnPath> {
    pub(crate) program: &'p P,
    pub(crate) most: u32,
    pub(crate) limit: u32,
    pub(crate) arrays: Arc<Arrays>,
    pub(crate) parts: Vec<Option<Part<T>>>,
}

impl<'p, P, T: OnPath> Model for SuperstepStart<'p, P, T> {
    ghost use Rattle.std.specs.Arc.{arc_value};
    ghost use Rattle.program_stretches.specs.SuperstepStart.{SuperstepStartValue};

    ghost Value = { SuperstepStartValue P T };

    ghost view = { λ o. record { program = o.program.now; most = o.most; limit = o.limit; arrays = arc_value o.arrays; parts = o.parts.items } };
}
