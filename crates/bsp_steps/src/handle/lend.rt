//! The state behind a handle, lent.
ghost use Rattle.std.specs.Prelude.{◌≡◌, IsSome, Some};
ghost use Rattle.std.specs.Borrow.{Lends, sem};
ghost use Rattle.bsp_steps.specs.contracts.handle.Handle.{the_row};
ghost use Rattle.bsp_steps.specs.contracts.state.State.{the_row as state_row};
ghost use Rattle.bsp_steps.specs.Lent.{with_state};

use super::Handle;
use crate::state::State;

impl Handle {
    /// Returns the state of an open handle.
    pub fn get(&mut self) -> &mut State
        requires { IsSome self.old.state }
        ensures* writes_back { sem 𝓛 (Lends the_row state_row self.entry result (with_state self.old)) }
        ensures value { Some result.now ≡ self.old.state }
    {
        let at = self.at as *mut State;
        unsafe { &mut *at }
    }
}
