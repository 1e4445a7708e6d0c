//! Members of the tree: those that arrive for the tasks of a stretch, and the token of a worker.
ghost use Rattle.std.specs.Prelude.{◌≡◌};

use crate::running::Running;
use std::alloc::{AllocError, Global};
use std::collections::VecDeque;
use std::marker::PhantomData;
use tier_table::groups::Group;
use tier_table::tokens::Door;

/// A group of members of the tree. Its type keeps that this is the tree of the run.
#[derive(Drop)]
pub struct Bundle<J: Running> {
    /// The group.
    pub group: Group,
    of: PhantomData<J>,
    ghost own: { group.tree ≡ J.tree },
}

impl<J: Running> Bundle<J> {
    /// Keeps a group of the tree of the run.
    pub fn new(group: Group) -> Self
        requires { group.tree ≡ J.tree }
        ensures { result.group ≡ group }
    {
        Bundle {
            group,
            of: PhantomData,
        }
    }
}

/// The members that arrive for the tasks of a stretch, one a task: a group for each tier at which some are.
#[derive(Drop)]
pub struct Tokens<J: Running> {
    bundles: VecDeque<Bundle<J>>,
}

impl<J: Running> Tokens<J> {
    ghost use Rattle.std.specs.Prelude.{◌≡◌, length};

    /// Creates a list without members.
    pub fn new(alloc: Global) -> Self {
        Tokens {
            bundles: VecDeque::new(alloc),
        }
    }

    /// Returns the number of groups.
    pub fn len(&self) -> usize
        ensures { result ≡ length self.now.bundles.items }
    {
        self.bundles.len()
    }

    /// Returns the number of members.
    pub fn size(&self) -> usize {
        let mut size: usize = 0;
        for bundle in &self.bundles {
            size = size.saturating_add(bundle.group.size() as usize);
        }
        size
    }

    /// Appends a group.
    pub fn push(&mut self, bundle: Bundle<J>) -> Result<(), AllocError> {
        match self.bundles.push_back(bundle) {
            Ok(()) => Ok(()),
            Err(_) => Err(AllocError),
        }
    }

    /// Removes the first group and returns it.
    pub fn pop_first(&mut self) -> Option<Bundle<J>> {
        self.bundles.pop_front()
    }
}

/// The token of a worker, without members, with which it can end the tree, and off which it splits tokens for tasks that are
/// spawned. Its type keeps that it is of the tree of the run.
#[derive(Drop)]
pub struct OwnToken<J: Running> {
    /// The token.
    pub door: Door,
    of: PhantomData<J>,
    ghost own: { door.tree ≡ J.tree },
}

impl<J: Running> OwnToken<J> {
    /// Creates the token of a worker.
    pub fn new(door: Door) -> Self
        requires { door.tree ≡ J.tree }
        ensures { result.door ≡ door }
    {
        OwnToken {
            door,
            of: PhantomData,
        }
    }
}
