//! The members of the tree that arrive for the tasks of stretches, by the number of a stretch.

use crate::running::Running;
use crate::tokens::Tokens;
use program_stretches::Stretches;
use programs::program::Program;
use std::alloc::{AllocError, Global};
use std::collections::VecDeque;
use std::mem;

/// Members after tasks have moved between stretches. They have to be cut anew for the next stretches.
#[derive(Drop)]
pub struct Recut<J: Running> {
    /// The members.
    pub tokens: Vec<Tokens<J>>,
    /// How many tasks each of the stretches has that they are for.
    pub sizes: Vec<usize>,
}

/// The members of the tasks of each stretch. No clause says which members these are, since the tree takes one as well as another.
#[derive(Drop)]
pub(crate) struct Members<J: Running> {
    // By the number of a stretch. `None` while a worker holds them.
    places: Vec<Option<Tokens<J>>>,
    // By the number of a stretch: how many members it has after this superstep, once it is delivered.
    sizes: Vec<usize>,
    // The numbers of the stretches whose members have to be cut anew once all of them are back.
    moving: Vec<usize>,
}

// Returns the number of tasks of each of these stretches.
fn lengths_at<P: Program>(
    alloc: Global,
    stretches: &Stretches<'_, '_, P>,
    numbers: &[usize],
) -> Result<Vec<usize>, AllocError> {
    let mut lengths = Vec::with_capacity(alloc, numbers.len())?;
    for number in numbers {
        lengths.push(stretches.length(*number))?;
    }
    Ok(lengths)
}

// Takes the members in this place, if they are there.
fn take_from<J: Running>(places: &mut [Option<Tokens<J>>], number: usize) -> Option<Tokens<J>> {
    match places.get_mut(number) {
        Some(place) => mem::replace(place, None),
        None => None,
    }
}

// Takes the members in these places.
fn gather<J: Running>(
    alloc: Global,
    places: &mut [Option<Tokens<J>>],
    numbers: &[usize],
) -> Result<Vec<Tokens<J>>, AllocError> {
    let mut tokens = Vec::with_capacity(alloc, numbers.len())?;
    for number in numbers {
        if let Some(one) = take_from(places, *number) {
            tokens.push(one)?;
        }
    }
    Ok(tokens)
}

impl<J: Running> Members<J> {
    /// Keeps the members of each stretch.
    pub(crate) fn new(alloc: Global, places: Vec<Option<Tokens<J>>>) -> Result<Self, AllocError> {
        let mut sizes = Vec::new(alloc);
        sizes.resize(places.len(), 0)?;
        Ok(Members {
            places,
            sizes,
            moving: Vec::new(alloc),
        })
    }

    /// Keeps no members of no stretches.
    pub(crate) fn none(alloc: Global) -> Self {
        Members {
            places: Vec::new(alloc),
            sizes: Vec::new(alloc),
            moving: Vec::new(alloc),
        }
    }

    // Returns the number of stretches.
    fn len(&self) -> usize {
        self.places.len()
    }

    // Returns true if the members of the stretch of this number are there.
    fn has(&self, number: usize) -> bool {
        match self.places.get(number) {
            Some(place) => place.is_some(),
            None => false,
        }
    }

    /// Takes the members of the stretch of this number, if they are there.
    pub(crate) fn take(&mut self, number: usize) -> Option<Tokens<J>> {
        take_from(&mut self.places, number)
    }

    /// Puts members into the place of their stretch. Returns false, and drops them, if there is no stretch of this number.
    pub(crate) fn put(&mut self, number: usize, tokens: Tokens<J>) -> bool {
        match self.places.get_mut(number) {
            Some(place) => {
                *place = Some(tokens);
                true
            }
            None => false,
        }
    }

    /// Notes how many members the stretch of this number has after this superstep.
    pub(crate) fn note_size(&mut self, number: usize, size: usize) {
        if let Some(place) = self.sizes.get_mut(number) {
            *place = size;
        }
    }

    // Returns true if the stretch of this number has as many tasks as its members after the last superstep.
    fn fits<P: Program>(&self, stretches: &Stretches<'_, '_, P>, number: usize) -> bool {
        self.sizes.get(number).copied() == Some(stretches.length(number))
    }

    /// Finds the stretches of which a task has moved to another: those that have not as many tasks as members, or all if there are
    /// more or fewer stretches than before.
    pub(crate) fn find_moving<P: Program>(
        &mut self,
        stretches: &Stretches<'_, '_, P>,
    ) -> Result<(), AllocError> {
        let renumbered = stretches.len() != self.len();
        self.moving.clear();
        for number in 0..self.len() {
            if renumbered || !self.fits(stretches, number) {
                self.moving.push(number)?;
            }
        }
        Ok(())
    }

    /// Returns true if members have to be cut anew.
    pub(crate) fn are_moving(&self) -> bool {
        !self.moving.is_empty()
    }

    // Returns true if all members that have to be cut anew are back.
    fn are_back(&self) -> bool {
        for number in &self.moving {
            if !self.has(*number) {
                return false;
            }
        }
        true
    }

    // Makes room for the members of so many stretches, all of which are to be cut anew.
    fn renumber(&mut self, count: usize) -> Result<(), AllocError> {
        self.places.clear();
        self.moving.clear();
        for number in 0..count {
            self.places.push(None)?;
            self.moving.push(number)?;
        }
        self.sizes.resize(count, 0)
    }

    /// Takes the members that have to be cut anew, or returns `None` if one of them isn't back.
    pub(crate) fn take_moving<P: Program>(
        &mut self,
        alloc: Global,
        stretches: &Stretches<'_, '_, P>,
    ) -> Result<Option<Recut<J>>, AllocError> {
        if !self.are_back() {
            return Ok(None);
        }
        let tokens = gather(alloc, &mut self.places, &self.moving)?;
        if stretches.len() != self.len() {
            self.renumber(stretches.len())?;
        }
        let sizes = lengths_at(alloc, stretches, &self.moving)?;
        Ok(Some(Recut { tokens, sizes }))
    }

    /// Appends the numbers of the stretches whose members are there.
    pub(crate) fn list_back(&self, ready: &mut VecDeque<usize>) -> Result<(), AllocError> {
        for number in 0..self.len() {
            if self.has(number) && ready.push_back(number).is_err() {
                return Err(AllocError);
            }
        }
        Ok(())
    }

    /// Puts members that were cut anew into the places of their stretches.
    pub(crate) fn put_moving(&mut self, mut tokens: Vec<Option<Tokens<J>>>) {
        for _ in 0..self.moving.len() {
            if let (Some(number), Some(Some(one))) = (self.moving.pop(), tokens.pop()) {
                let _ = self.put(number, one);
            }
        }
    }
}
