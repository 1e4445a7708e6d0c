//! Deeds as they are kept.
ghost use Rattle.std.specs.Prelude.{◌≡◌, ◌+◌, ◌<◌, ◌^◌, ◌++◌, ◌∷◌, [], List, OnOk, OnErr, MatchOption, length, replicate};
ghost use Rattle.programs.specs.DeedLists.{going};

use std::alloc::{AllocError, Global};
use std::marker::Model;

/// What a task did: whether it goes on, how many puts it made, which are its part of the log, and how many tasks it spawned.
#[derive(Clone, Copy)]
pub(crate) struct Deed {
    pub synced: bool,
    pub puts: usize,
    pub spawned: usize,
}

/// Deeds in order. The last ones, if they are of tasks that go on, spawned nothing and made as many puts as each other, are a count.
#[derive(Drop)]
pub(crate) struct DeedList {
    front: Vec<Deed>,
    alike: u32,
    // How many puts each of those made.
    puts: usize,
}

impl Model for DeedList {
    ghost use Rattle.std.specs.Prelude.{List};
    ghost use Rattle.programs.specs.declared.deed_list.Deed.{Deed};

    ghost Value = { List Deed };

    ghost use Rattle.std.specs.Prelude.{◌++◌, replicate};
    ghost use Rattle.programs.specs.DeedLists.{going};

    ghost view = { λ l. l.front.items ++ replicate l.alike (going l.puts) };
}

/// The last deeds of a list.
#[derive(Drop)]
pub(crate) struct LastDeeds<'a> {
    front: &'a [Deed],
    alike: u32,
    puts: usize,
}

impl<'a> Model for LastDeeds<'a> {
    ghost use Rattle.std.specs.Prelude.{List};
    ghost use Rattle.programs.specs.declared.deed_list.Deed.{Deed};

    ghost Value = { List Deed };

    ghost use Rattle.std.specs.Prelude.{◌++◌, replicate};
    ghost use Rattle.programs.specs.DeedLists.{going};

    ghost view = { λ l. l.front.now ++ replicate l.alike (going l.puts) };
}

// Returns the deed of a task that goes on, made `puts` puts and spawned nothing.
#[inline(always)]
fn one_going(puts: usize) -> Deed
    ensures { result ≡ going puts }
{
    Deed {
        synced: true,
        puts,
        spawned: 0,
    }
}

// Appends `alike` deeds of tasks that go on, made `puts` puts each and spawned nothing.
#[inline(never)]
fn write_out(front: &mut Vec<Deed>, alike: u32, puts: usize) -> Result<(), AllocError>
    ensures written { OnOk result (front.new.items ≡ front.old.items ++ replicate alike (going puts)) }
    ensures memory { OnErr result (front.new.items ≡ front.old.items) }
{
    front.resize(front.len() + alike as usize, one_going(puts))
}

impl DeedList {
    /// Creates a list without deeds.
    pub(crate) fn new(alloc: Global) -> Self
        ensures { result ≡ [] }
    {
        DeedList {
            front: Vec::new(alloc),
            alike: 0,
            puts: 0,
        }
    }

    /// Forgets them all.
    pub(crate) fn clear(&mut self)
        ensures { self.new ≡ [] }
    {
        self.front.clear();
        self.alike = 0;
    }

    /// Returns the number of deeds.
    pub(crate) fn len(&self) -> usize
        ensures { result ≡ length self.now }
    {
        self.front.len() + self.alike as usize
    }

    // Begins a new count: of tasks that go on and made `puts` puts each.
    #[inline(never)]
    fn begin_going(&mut self, puts: usize) -> Result<(), AllocError>
        ensures added { OnOk result (self.new ≡ self.old ++ going puts ∷ []) }
        ensures memory { OnErr result (self.new ≡ self.old) }
    {
        write_out(&mut self.front, self.alike, self.puts)?;
        self.alike = 1;
        self.puts = puts;
        Ok(())
    }

    /// Appends the deed of a task that goes on and spawned nothing.
    #[inline(always)]
    pub(crate) fn push_going(&mut self, puts: usize) -> Result<(), AllocError>
        ensures added { OnOk result (self.new ≡ self.old ++ going puts ∷ []) }
        ensures memory { OnErr result (self.new ≡ self.old) }
    {
        if self.puts == puts && self.alike < u32::MAX {
            self.alike += 1;
            return Ok(());
        }
        self.begin_going(puts)
    }

    /// Appends a deed.
    #[inline(always)]
    pub(crate) fn push(&mut self, deed: Deed) -> Result<(), AllocError>
        ensures added { OnOk result (self.new ≡ self.old ++ deed ∷ []) }
        ensures few { length self.new < 2 ^ 64 }
        ensures memory { OnErr result (self.new ≡ self.old) }
    {
        if self.alike > 0 {
            write_out(&mut self.front, self.alike, self.puts)?;
            self.alike = 0;
        }
        self.front.push(deed)?;
        Ok(())
    }

    /// Moves all deeds of `others` to the end of these. Out of memory, both are as they were.
    pub(crate) fn append(&mut self, others: &mut DeedList) -> Result<(), AllocError>
        ensures joined { OnOk result (self.new ≡ self.old ++ others.old) }
        ensures none_left { OnOk result (others.new ≡ []) }
        ensures few { length self.new < 2 ^ 64 }
        ensures memory { OnErr result ((self.new ≡ self.old) × (others.new ≡ others.old)) }
    {
        if self.alike > 0 {
            write_out(&mut self.front, self.alike, self.puts)?;
            self.alike = 0;
        }
        self.front.append(&mut others.front)?;
        self.alike = others.alike;
        self.puts = others.puts;
        others.alike = 0;
        Ok(())
    }

    /// Returns all deeds.
    pub(crate) fn all(&self) -> LastDeeds<'_>
        ensures { result ≡ self.now }
    {
        LastDeeds {
            front: self.front.as_slice(),
            alike: self.alike,
            puts: self.puts,
        }
    }
}

impl<'a> LastDeeds<'a> {
    /// Returns the first of them and the others, or `None` if there is none.
    #[inline(always)]
    pub(crate) fn split_first(&self) -> Option<(Deed, LastDeeds<'a>)>
        ensures { MatchOption result (self.now ≡ []) (λ r. self.now ≡ r.0 ∷ r.1) }
    {
        if let Some((deed, after)) = self.front.split_first() {
            let rest = LastDeeds {
                front: after,
                alike: self.alike,
                puts: self.puts,
            };
            return Some((*deed, rest));
        }
        if self.alike == 0 {
            return None;
        }
        let rest = LastDeeds {
            front: self.front,
            alike: self.alike - 1,
            puts: self.puts,
        };
        Some((one_going(self.puts), rest))
    }
}
