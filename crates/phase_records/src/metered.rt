//! Devices that nobody asks without its being counted. An ask that a signal interrupts counts as none, and is made again.
ghost use Rattle.std.specs.Prelude.{◌≡◌, ◌+◌, IsErr, IsTrue};
ghost use Rattle.std.specs.Io.{ReadsAtMost, WritesAtMost};
ghost use Rattle.std.specs.Io.KnownBytes.{ReadConsumes, WriteAppends};

use crate::count::Count;
use std::io;
use std::io::{Read, Write};

// How often an ask that was interrupted is made again. After that it is a failure.
const MOST_RETRIES: u32 = 1000;

// Returns true if a signal interrupted the ask, which then did nothing.
fn is_interrupted(answer: &io::Result<usize>) -> bool
    ensures { IsTrue result → IsErr answer.now }
{
    match answer {
        Ok(_) => false,
        Err(error) => error.kind() == io::ErrorKind::Interrupted,
    }
}

/// A device, and how often it was asked. There is no other way to the device.
#[derive(Drop)]
pub struct Metered<D> {
    device: D,
    asks: Count,
}

impl<D> Metered<D> {
    /// Wraps this device, which was not asked.
    pub(crate) fn new(device: D) -> Self
        ensures device { result.device ≡ device }
        ensures asks { result.asks.count ≡ 0 }
    {
        Metered {
            device,
            asks: Count::new(),
        }
    }
}

impl<R: Read> Metered<R> {
    /// Asks for bytes, and again while a signal interrupts the ask: one ask in all.
    pub(crate) fn read(&mut self, buffer: &mut [u8]) -> io::Result<usize>
        ensures bound { ReadsAtMost result buffer.new }
        ensures bytes { ReadConsumes (R.remaining self.old.device) (R.remaining self.new.device) result buffer.new }
        ensures asks { self.new.asks.count ≡ self.old.asks.count + 1 }
    {
        self.asks.note();
        for _ in 0..MOST_RETRIES {
            let answer = self.device.read(buffer);
            if !is_interrupted(&answer) {
                return answer;
            }
        }
        self.device.read(buffer)
    }
}

impl<W: Write> Metered<W> {
    /// Asks to take bytes, and again while a signal interrupts the ask: one ask in all.
    pub(crate) fn write(&mut self, bytes: &[u8]) -> io::Result<usize>
        ensures bound { WritesAtMost result bytes.now }
        ensures bytes { WriteAppends (W.contents self.old.device) (W.contents self.new.device) result bytes.now }
        ensures asks { self.new.asks.count ≡ self.old.asks.count + 1 }
    {
        self.asks.note();
        for _ in 0..MOST_RETRIES {
            let answer = self.device.write(bytes);
            if !is_interrupted(&answer) {
                return answer;
            }
        }
        self.device.write(bytes)
    }
}
