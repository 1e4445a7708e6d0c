//! The state in a slot, lent to be read.
ghost use Rattle.std.specs.Prelude.{◌≡◌, ⊤};
ghost use Rattle.std.specs.Option.{option_map};
ghost use Rattle.std.specs.Borrow.{follows_so, sem};
ghost use mathlib.Core.Option.{none};
ghost use Rattle.bsp_steps.specs.contracts.slot.Slot.{the_row};

use super::Slot;
use crate::state::State;

impl Slot {
    /// Returns the state, to be read. Once it is given back, the slot is as it was.
    pub fn look(&mut self) -> Option<&State>
        ensures state { option_map (λ s. s.now) result ≡ self.old.handle.state }
        ensures* stays { sem 𝓛 (follows_so the_row the_row self.entry.ghost_name none (λ _ _. ⊤) (λ n. n ≡ self.old)) }
    {
        if !self.held {
            return None;
        }
        Some(self.handle.get())
    }
}
