//! What takes the text of a report, piece by piece.
ghost use Rattle.std.specs.Prelude.{◌≡◌, Some, [], if◌then◌else◌};
ghost use Rattle.phase_records.specs.Taken.{Outlet, Took};

use crate::device::{CountedWrite, write_all};

// Takes bytes, one piece after another. Once it has failed, it takes no more.
pub(crate) trait Sink {
    // what it has done with the bytes
    ghost seen: { Self → Outlet };

    // Takes these bytes, unless it has failed.
    fn put(&mut self, bytes: &[u8])
        ensures { Took (seen self.old) (seen self.new) bytes.now };

    // Returns true if it has failed.
    fn has_failed(&self) -> bool
        ensures { result ≡ (seen self.now).failed };
}

// Keeps all bytes in memory.
#[derive(Drop)]
pub(crate) struct Whole {
    pub(crate) text: Vec<u8>,
    pub(crate) failed: bool,
}

impl Sink for Whole {
    ghost seen = { λ w. record {
      name = 0;
      held = Some [];
      waiting = w.text.items;
      failed = w.failed;
      failures = if w.failed then 1 else 0;
    } };

    fn put(&mut self, bytes: &[u8]) {
        if !self.failed {
            self.failed = self.text.extend_from_slice(bytes).is_err();
        }
    }

    fn has_failed(&self) -> bool {
        self.failed
    }
}

// Writes bytes to a device through a buffer, which is flushed when the next piece doesn't fit.
#[derive(Drop)]
pub(crate) struct Pieces<'w, W: CountedWrite> {
    pub(crate) writer: &'w mut W,
    pub(crate) buffer: &'w mut Vec<u8>,
    pub(crate) failed: bool,
}

impl<'w, W: CountedWrite> Pieces<'w, W> {
    // Writes what is in the buffer.
    pub(crate) fn flush(&mut self)
        ensures took { Took (⟦<Pieces<'w, W> as Sink>⟧.seen self.old) (⟦<Pieces<'w, W> as Sink>⟧.seen self.new) [] }
        ensures empty { self.new.buffer.now.items ≡ [] }
    {
        if !self.failed {
            self.failed = write_all(self.writer, self.buffer).is_err();
        }
        self.buffer.clear();
    }

    // Puts these bytes into the buffer, and returns true; or returns false if they don't fit.
    #[inline(always)]
    fn keep(&mut self, bytes: &[u8]) -> bool
        ensures { Took (⟦<Pieces<'w, W> as Sink>⟧.seen self.old) (⟦<Pieces<'w, W> as Sink>⟧.seen self.new) (if result then bytes.now else []) }
    {
        if self.buffer.capacity().saturating_sub(self.buffer.len()) < bytes.len() {
            return false;
        }
        self.buffer.extend_from_slice(bytes).is_ok()
    }

    // Writes what is in the buffer, and then these bytes.
    fn pass(&mut self, bytes: &[u8])
        ensures { Took (⟦<Pieces<'w, W> as Sink>⟧.seen self.old) (⟦<Pieces<'w, W> as Sink>⟧.seen self.new) bytes.now }
    {
        self.flush();
        if !self.failed {
            self.failed = write_all(self.writer, bytes).is_err();
        }
    }
}

impl<'w, W: CountedWrite> Sink for Pieces<'w, W> {
    ghost seen = { λ p. record {
      name = p.writer.ghost_name;
      held = W.contents p.writer.now;
      waiting = p.buffer.now.items;
      failed = p.failed;
      failures = W.failures p.writer.now;
    } };

    #[inline(always)]
    fn put(&mut self, bytes: &[u8]) {
        if self.keep(bytes) {
            return;
        }
        self.flush();
        if !self.keep(bytes) {
            self.pass(bytes);
        }
    }

    fn has_failed(&self) -> bool {
        self.failed
    }
}
