//! Devices that give or take little, that fail, and whose reads and writes signals interrupt.

ghost use Rattle.std.specs.Prelude.{◌≡◌, ◌≤◌, IfOk, length};

use std::io;
use std::io::{Read, Write};

/// Gives at most `most` bytes, as far as there are some and room for them.
fn give(rest: &mut &[u8], buffer: &mut [u8], most: usize) -> usize
    ensures { result ≤ length buffer.old }
{
    let count = rest.len().min(buffer.len()).min(most);
    let (front, behind) = rest.split_at(count);
    buffer[..count].copy_from_slice(front);
    *rest = behind;
    count
}

/// How a reader gives a text.
#[derive(Clone, Copy)]
pub(crate) struct Gives {
    /// How many bytes it gives a read, at most.
    pub(crate) most: usize,
    /// How many reads go well before one fails.
    pub(crate) capacity: usize,
    /// Whether the reads after that one succeed again.
    pub(crate) once: bool,
    /// How many reads are interrupted before each one that isn't.
    pub(crate) interrupts: u32,
}

/// Gives a text, and counts the reads.
#[derive(Drop)]
pub(crate) struct Source<'a> {
    // What it still has to give.
    rest: &'a [u8],
    gives: Gives,
    // How many reads are interrupted before the next that isn't.
    left: u32,
    reads: &'a mut u64,
}

impl<'a> Source<'a> {
    /// Gives this text.
    pub(crate) fn new(rest: &'a [u8], gives: Gives, reads: &'a mut u64) -> Self {
        Source {
            rest,
            gives,
            left: gives.interrupts,
            reads,
        }
    }
}

impl Read for Source<'_> {
    fn read(&mut self, buffer: &mut [u8]) -> io::Result<usize> {
        *self.reads = self.reads.saturating_add(1);
        if self.left > 0 {
            self.left -= 1;
            return Err(io::ErrorKind::Interrupted.into());
        }
        self.left = self.gives.interrupts;
        if self.gives.capacity == 0 {
            if self.gives.once {
                self.gives.capacity = usize::MAX;
            }
            return Err(io::ErrorKind::Other.into());
        }
        self.gives.capacity -= 1;
        Ok(give(&mut self.rest, buffer, self.gives.most))
    }
}

/// What a writer does that has no room left.
#[derive(Clone, Copy)]
pub(crate) enum Then {
    /// It fails from now on.
    Fails,
    /// It takes nothing.
    TakesNone,
    /// It fails once, and takes all that comes later.
    FailsOnce,
}

/// How a writer takes bytes.
#[derive(Clone, Copy)]
pub(crate) struct Takes {
    /// How many bytes it takes a write, at most.
    pub(crate) most: usize,
    /// For how many bytes it has room.
    pub(crate) capacity: usize,
    /// What it does then.
    pub(crate) then: Then,
    /// How many writes are interrupted before each one that isn't.
    pub(crate) interrupts: u32,
}

/// Takes bytes.
#[derive(Drop)]
pub(crate) struct Sink<'a> {
    // What it has taken.
    taken: &'a mut Vec<u8>,
    takes: Takes,
    // How many writes are interrupted before the next that isn't.
    left: u32,
}

impl<'a> Sink<'a> {
    /// Takes bytes into this list.
    pub(crate) fn new(taken: &'a mut Vec<u8>, takes: Takes) -> Self {
        Sink {
            taken,
            takes,
            left: takes.interrupts,
        }
    }

    // Answers a write that finds no room.
    fn without_room(&mut self) -> io::Result<usize>
        ensures { IfOk result (λ count. count ≡ 0) }
    {
        match self.takes.then {
            Then::Fails => Err(io::ErrorKind::Other.into()),
            Then::TakesNone => Ok(0),
            Then::FailsOnce => {
                self.takes.capacity = usize::MAX;
                Err(io::ErrorKind::Other.into())
            }
        }
    }
}

impl Write for Sink<'_> {
    fn write(&mut self, bytes: &[u8]) -> io::Result<usize> {
        if bytes.is_empty() {
            return Ok(0);
        }
        if self.left > 0 {
            self.left -= 1;
            return Err(io::ErrorKind::Interrupted.into());
        }
        self.left = self.takes.interrupts;
        let count = bytes.len().min(self.takes.capacity).min(self.takes.most);
        if count == 0 {
            return self.without_room();
        }
        if self.taken.extend_from_slice(&bytes[..count]).is_err() {
            return Err(io::ErrorKind::Other.into());
        }
        self.takes.capacity -= count;
        Ok(count)
    }

    fn flush(&mut self) -> io::Result<()> {
        Ok(())
    }
}

/// How the devices of a run give and take.
#[derive(Clone, Copy)]
pub(crate) struct Plan {
    pub(crate) gives: Gives,
    pub(crate) takes: Takes,
    pub(crate) takes_errors: Takes,
}

// It takes all.
const TAKES_ALL: Takes = Takes {
    most: usize::MAX,
    capacity: usize::MAX,
    then: Then::Fails,
    interrupts: 0,
};

/// They give and take all at once.
pub(crate) const ALL: Plan = Plan {
    gives: Gives {
        most: usize::MAX,
        capacity: usize::MAX,
        once: false,
        interrupts: 0,
    },
    takes: TAKES_ALL,
    takes_errors: TAKES_ALL,
};

/// The reader gives a byte a read, and fails after `room` reads, for good or once.
pub(crate) fn dripping(capacity: usize, once: bool) -> Plan {
    let mut plan = ALL;
    plan.gives.most = 1;
    plan.gives.capacity = capacity;
    plan.gives.once = once;
    plan
}

/// The writer has room for so many bytes, and takes `most` a write.
pub(crate) fn taking(capacity: usize, most: usize, then: Then) -> Plan {
    let mut plan = ALL;
    plan.takes.capacity = capacity;
    plan.takes.most = most;
    plan.takes.then = then;
    plan
}

/// The reader gives a byte a read, the writers take three a write. Before each of these so many are interrupted, of the errors none.
pub(crate) fn interrupted(reads: u32, writes: u32) -> Plan {
    let mut plan = dripping(usize::MAX, false);
    plan.gives.interrupts = reads;
    plan.takes.most = 3;
    plan.takes.interrupts = writes;
    plan.takes_errors.most = 3;
    plan
}
