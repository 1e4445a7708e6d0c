//! A shop: customers come, wait, are served, and go. Each is a task that a door spawns.
use std::alloc::{AllocError, Global};
use task_bodies::body::{Ending, Out, TaskBody, View};

/// A shop that opens its door for a number of supersteps.
#[derive(Clone, Copy)]
pub struct Shop {
    pub open: u32,
}

/// The parts that tasks play.
#[derive(Clone, Copy)]
pub enum Role {
    /// Lets customers in. The number is the state of a random sequence.
    Door(u32),
    /// Is served for this number of supersteps.
    Customer(u32),
}

/// Cells of the shop's array: how many customers came, how many went, and how long all of them were there.
pub const CAME: u32 = 0;

pub const WENT: u32 = 1;

pub const TIME: u32 = 2;

// Returns the next number of a random sequence.
fn next(state: u32) -> u32 {
    state.wrapping_mul(1664525).wrapping_add(1013904223)
}

impl Shop {
    fn let_in(
        &self,
        state: u32,
        view: &View<'_>,
        out: &mut Out<Role>,
    ) -> Result<(u32, Ending), AllocError> {
        let state = next(state);
        for _ in 0..state >> 30 {
            out.add(0, CAME, 1)?;
            out.spawn(Role::Customer(1 + (state >> 20) % 8))?;
        }
        if view.step < self.open {
            Ok((state, Ending::Syncs))
        } else {
            Ok((state, Ending::Stops))
        }
    }
}

impl TaskBody for Shop {
    type Kept = Role;

    fn run(
        &self,
        alloc: Global,
        role: &mut Role,
        view: &View<'_>,
        out: &mut Out<Role>,
    ) -> Result<Ending, AllocError> {
        match *role {
            Role::Door(state) => {
                let (state, ending) = self.let_in(state, view, out)?;
                *role = Role::Door(state);
                Ok(ending)
            }
            Role::Customer(left) => {
                out.add(0, TIME, 1)?;
                if left > 1 {
                    *role = Role::Customer(left - 1);
                    Ok(Ending::Syncs)
                } else {
                    out.add(0, WENT, 1)?;
                    Ok(Ending::Stops)
                }
            }
        }
    }
}
