//! A pointer to a state on the heap, or to none, that C may hold.
ghost use Rattle.std.specs.Prelude.{◌≡◌, IsSome, Some, None, Option};
ghost use Rattle.bsp_steps.specs.declared.state.State.{State};

use crate::loose::Loose;
use crate::state::State;
use std::alloc::Global;
use std::boxed::Box;
use std::marker::{Model, Send};

mod lend;

/// A pointer to a state on the heap, or to none.
#[repr(C)]
#[derive(Drop)]
pub struct Handle {
    at: *mut (),
    pub ghost state: { Option State },
}

impl Model for Handle {
    ghost use Rattle.bsp_steps.specs.contracts.state.State.{the_row};
    ghost use Rattle.bsp_steps.specs.Owned.{owns_if};

    ghost also_owns = { λ h. owns_if the_row h.at h.state };
}

impl Handle {
    /// Creates a handle without a state.
    pub fn closed() -> Handle
        ensures { result.state ≡ None }
    {
        Handle {
            at: std::ptr::null_mut(),
        }
    }

    fn of_loose(loose: Loose<State, Global>) -> Handle
        ensures { result.state ≡ Some loose.value }
    {
        let Loose { at, alloc: _ } = loose;
        Handle { at: at as *mut () }
    }

    fn into_loose(self, alloc: Global) -> Loose<State, Global>
        requires { IsSome self.state }
        ensures { Some result.value ≡ self.state }
    {
        let Handle { at } = self;
        Loose {
            at: at as *mut State,
            alloc,
        }
    }

    /// Creates a handle of this state.
    pub fn of(state: Box<State>) -> Handle
        ensures { result.state ≡ Some state.value }
    {
        Handle::of_loose(Loose::of(state))
    }

    /// Returns the state of the handle.
    pub fn into_box(self, alloc: Global) -> Box<State>
        requires { IsSome self.state }
        ensures { Some result.value ≡ self.state }
    {
        self.into_loose(alloc).into_box()
    }
}

unsafe impl Send for Handle {}
