//! Devices whose calls and failures are counted, and texts read and written whole.
ghost use Rattle.std.specs.Prelude.{◌≡◌, ℕ, ◌+◌, ◌≤◌, ◌<◌, List, Option, length, IfOk, IfSome, IsErrOf, OnOk, is_err};
ghost use Rattle.std.specs.Io.KnownBytes.{ReadConsumes, Appends};
ghost use Rattle.phase_records.specs.Device.{CountsFailure, TakesSome, AppendsBeginning, ReadCause, BlamesReader};

use crate::count::Count;
use crate::metered::Metered;
use std::alloc::Global;
use std::io::{Read, Write};
use thiserror::Error;

/// The device failed in this call. A caller stops and reports it.
#[derive(Clone, Copy, Debug, PartialEq, Eq, Error)]
#[error("the device failed")]
pub struct DeviceFailed;

/// A reader that counts its calls and its failures.
pub trait CountedRead {
    // the bytes that reads will return from here on, if they are known
    ghost remaining: { Self → Option (List ℕ) };

    // the number of calls of the device
    ghost asks: { Self → ℕ };

    // the number of calls that failed
    ghost failures: { Self → ℕ };

    /// Reads some bytes into the buffer, by one call of the device. Returns 0 only at the end, or if the buffer is empty.
    fn read_some(&mut self, buffer: &mut [u8]) -> Result<usize, DeviceFailed>
        ensures bound { IfOk result (λ n. n ≤ length buffer.new) }
        ensures bytes { ReadConsumes (remaining self.old) (remaining self.new) result buffer.new }
        ensures asks { asks self.new ≡ asks self.old + 1 }
        ensures failures { CountsFailure (failures self.old) (failures self.new) result };
}

/// A writer that counts its calls and its failures.
pub trait CountedWrite {
    // the bytes that the writer holds, if they are known
    ghost contents: { Self → Option (List ℕ) };

    // the number of calls of the device
    ghost asks: { Self → ℕ };

    // the number of calls that failed
    ghost failures: { Self → ℕ };

    /// Writes some of the first bytes, by one call of the device. Returns how many.
    fn write_some(&mut self, bytes: &[u8]) -> Result<usize, DeviceFailed>
        requires { 0 < length bytes.now }
        ensures bytes { TakesSome (contents self.old) (contents self.new) result bytes.now }
        ensures asks { asks self.new ≡ asks self.old + 1 }
        ensures failures { CountsFailure (failures self.old) (failures self.new) result };
}

/// Any reader, with counts of its calls and its failures.
#[derive(Drop)]
pub struct Reader<R: Read> {
    inner: Metered<R>,
    failures: Count,
}

impl<R: Read> Reader<R> {
    /// Wraps a reader. No call has been made yet.
    pub fn new(inner: R) -> Self
        ensures inner { result.inner.device ≡ inner }
        ensures asks { result.inner.asks.count ≡ 0 }
        ensures failures { result.failures.count ≡ 0 }
    {
        Reader {
            inner: Metered::new(inner),
            failures: Count::new(),
        }
    }
}

impl<R: Read> CountedRead for Reader<R> {
    ghost remaining = { λ r. R.remaining r.inner.device };

    ghost asks = { λ r. r.inner.asks.count };

    ghost failures = { λ r. r.failures.count };

    fn read_some(&mut self, buffer: &mut [u8]) -> Result<usize, DeviceFailed> {
        let answer = self.inner.read(buffer);
        self.failures.counting(answer)
    }
}

/// Any writer, with counts of its calls and its failures.
#[derive(Drop)]
pub struct Writer<W: Write> {
    inner: Metered<W>,
    failures: Count,
}

impl<W: Write> Writer<W> {
    /// Wraps a writer. No call has been made yet.
    pub fn new(inner: W) -> Self
        ensures inner { result.inner.device ≡ inner }
        ensures asks { result.inner.asks.count ≡ 0 }
        ensures failures { result.failures.count ≡ 0 }
    {
        Writer {
            inner: Metered::new(inner),
            failures: Count::new(),
        }
    }
}

impl<W: Write> CountedWrite for Writer<W> {
    ghost contents = { λ w. W.contents w.inner.device };

    ghost asks = { λ w. w.inner.asks.count };

    ghost failures = { λ w. w.failures.count };

    fn write_some(&mut self, bytes: &[u8]) -> Result<usize, DeviceFailed> {
        let answer = self.inner.write(bytes);
        self.failures.counting_write(answer)
    }
}

/// The largest number of bytes of a text.
pub const MOST_BYTES: usize = 1048576;

/// Why a text was not read.
#[derive(Clone, Copy, Debug, PartialEq, Eq, Error)]
pub enum ReadFault {
    /// The text has over [`MOST_BYTES`] bytes. A caller reports it as too long, also if memory is short.
    #[error("text over 1048576 bytes")]
    TooLong,
    /// The device failed. A caller reports it.
    #[error("read failed")]
    Read,
    /// An allocation failed. The text has at most [`MOST_BYTES`] bytes, and has been read to its end.
    #[error("out of memory")]
    Memory,
}

// Reads on after an allocation failed, since `TooLong` comes before `Memory`. The rest of the text may have `room` bytes.
fn without_memory<R: CountedRead>(reader: &mut R, capacity: usize) -> ReadFault
    requires { capacity ≤ MOST_BYTES }
    ensures too_long { result ≡ ReadFault.TooLong → IfSome (R.remaining reader.old) (λ bytes. capacity < length bytes) }
    ensures memory { result ≡ ReadFault.Memory → IfSome (R.remaining reader.old) (λ bytes. length bytes ≤ capacity) }
    ensures asks { R.asks reader.new ≤ R.asks reader.old + capacity + 1 }
    ensures failures { BlamesReader (R.failures reader.old) (R.failures reader.new) result }
{
    let mut buffer = [0u8; 8192];
    let mut left = capacity;
    for _ in 0..capacity + 1 {
        let n = match reader.read_some(&mut buffer) {
            Ok(n) => n,
            Err(DeviceFailed) => return ReadFault::Read,
        };
        if n == 0 {
            return ReadFault::Memory;
        }
        if left < n {
            return ReadFault::TooLong;
        }
        left -= n;
    }
    ReadFault::TooLong
}

/// Reads to the end of the reader, by at most [`MOST_BYTES`] + 1 reads. A text over [`MOST_BYTES`] bytes fails with
/// `TooLong`, also if there is no memory for it.
pub fn read_all<R: CountedRead>(alloc: Global, reader: &mut R) -> Result<Vec<u8>, ReadFault>
    ensures text { IfOk result (λ text. IfSome (R.remaining reader.old) (λ bytes. text.items ≡ bytes)) }
    ensures short { IfOk result (λ text. length text.items ≤ MOST_BYTES) }
    ensures too_long { IsErrOf result ReadFault.TooLong → IfSome (R.remaining reader.old) (λ bytes. MOST_BYTES < length bytes) }
    ensures memory { IsErrOf result ReadFault.Memory → IfSome (R.remaining reader.old) (λ bytes. length bytes ≤ MOST_BYTES) }
    ensures asks { R.asks reader.new ≤ R.asks reader.old + MOST_BYTES + 1 }
    ensures failures { ReadCause (R.failures reader.old) (R.failures reader.new) result }
{
    let mut text = Vec::new(alloc);
    let mut buffer = [0u8; 8192];
    for _ in 0..MOST_BYTES + 1 {
        let n = match reader.read_some(&mut buffer) {
            Ok(n) => n,
            Err(DeviceFailed) => return Err(ReadFault::Read),
        };
        if n == 0 {
            return Ok(text);
        }
        if MOST_BYTES - text.len() < n {
            return Err(ReadFault::TooLong);
        }
        match text.extend_from_slice(&buffer[..n]) {
            Ok(()) => {}
            Err(_) => {
                let capacity = MOST_BYTES - text.len() - n;
                return Err(without_memory(reader, capacity));
            }
        }
    }
    Err(ReadFault::TooLong)
}

/// Writes all the bytes, by at most one call a byte.
#[tactic(auto, using(crate::proofs::PassedBytes::passed_steps))]
pub fn write_all<W: CountedWrite>(writer: &mut W, bytes: &[u8]) -> Result<(), DeviceFailed>
    ensures ok { OnOk result (Appends (W.contents writer.old) (W.contents writer.new) bytes.now) }
    ensures err { AppendsBeginning (W.contents writer.old) (W.contents writer.new) bytes.now }
    ensures asks { W.asks writer.new ≤ W.asks writer.old + length bytes.now }
    ensures failures { CountsFailure (W.failures writer.old) (W.failures writer.new) result }
{
    let mut rest = bytes;
    while !rest.is_empty() {
        let n = writer.write_some(rest)?;
        let (_, after) = rest.split_at(n);
        rest = after;
    }
    Ok(())
}
