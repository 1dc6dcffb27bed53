ghost use Rattle.std.specs.Prelude.{◌≡◌, ◌<◌, ◌≤◌, ℕ, List, Option, length, IfOk};
ghost use Rattle.std.specs.Io.KnownBytes.{Keeps, WriteAppends};
ghost use Rattle.rb_requests.specs.Device.{risen};

use memchr::memchr;
use std::io::{BufRead, Write};

/// The error of a reader's or a writer's call that failed.
#[derive(Clone, Copy, Debug, PartialEq, Eq)]
pub struct Failed;

/// The way in which a span of bytes ended.
#[derive(Clone, Copy, PartialEq, Eq)]
pub enum Run {
    /// At a line feed, which is consumed too.
    Feed,
    /// Within a line.
    Part,
    /// At the end of the input.
    End,
    /// Out of memory for the line; nothing is consumed.
    Memory,
}

/// A reader of bytes, one by one or by spans.
pub trait Feed {
    ghost use Rattle.rb_requests.specs.Device.{Pulls, counted};
    ghost use Rattle.rb_requests.specs.Runs.{RunRead};

    /// The remaining bytes, if they are known.
    ghost left: { Self → Option (List ℕ) };

    /// The number of calls that have failed, up to the largest `u64`.
    ghost faults: { Self → ℕ };

    /// Reads the next byte, or returns `None` at the end.
    fn pull(&mut self) -> Result<Option<u8>, Failed>
        ensures bytes { Pulls (left self.old) (left self.new) result }
        ensures count { faults self.new ≡ counted (faults self.old) result };

    /// Appends the next bytes to a line, at least one and at most `most`: up to a line feed, which
    /// is consumed and not appended, or a part of the line. Calls of `pull` would read the same
    /// bytes. After an error, or if memory runs out for the line, nothing is consumed.
    fn pull_run(&mut self, line: &mut Vec<u8>, most: usize) -> Result<Run, Failed>
        requires { 0 < most }
        ensures bytes { RunRead (left self.old)
            (left self.new) line.old.items line.new.items most result }
        ensures count { faults self.new ≡ counted (faults self.old) result }
    {
        if line.reserve(1).is_err() {
            return Ok(Run::Memory);
        }
        match self.pull() {
            Ok(Some(b'\n')) => Ok(Run::Feed),
            Ok(Some(byte)) => match line.push(byte) {
                Ok(()) => Ok(Run::Part),
                Err(_) => unreachable!(),
            },
            Ok(None) => Ok(Run::End),
            Err(failed) => Err(failed),
        }
    }

    /// Returns the bytes in memory that come next, or none if they aren't known. Callers use them
    /// only to save time, so a feed may return others.
    fn ahead(&self) -> &[u8] {
        &[]
    }
}

/// A writer of bytes.
pub trait Sink {
    ghost use Rattle.rb_requests.specs.Device.{counted, settles};

    /// The bytes that were written, if they are known.
    ghost written: { Self → Option (List ℕ) };

    /// The number of calls that have failed, up to the largest `u64`.
    ghost faults: { Self → ℕ };

    /// The number of calls of `settle` that have succeeded, up to the largest `u64`.
    ghost settled: { Self → ℕ };

    /// Writes bytes from the front, at least one if there is one, and returns their number.
    fn put(&mut self, bytes: &[u8]) -> Result<usize, Failed>
        ensures most { IfOk result (λ n. n ≤ length bytes.now) }
        ensures some { 0 < length bytes.now → IfOk result (λ n. 0 < n) }
        ensures bytes { WriteAppends (written self.old) (written self.new) result bytes.now }
        ensures count { faults self.new ≡ counted (faults self.old) result }
        ensures settled { settled self.new ≡ settled self.old };

    /// Flushes what was taken. The clauses say only that the bytes stay as they are and that
    /// successful calls are counted: none says that bytes have left the sink.
    fn settle(&mut self) -> Result<(), Failed>
        ensures bytes { Keeps (written self.old) (written self.new) }
        ensures count { faults self.new ≡ counted (faults self.old) result }
        ensures settled { settled self.new ≡ settles (settled self.old) result };
}

/// A reader or a writer, with the count of its failed calls.
#[derive(Drop)]
struct Device<D> {
    inner: D,
    failed: u64,
}

impl<D> Device<D> {
    fn new(inner: D) -> Self
        ensures { result ≡ record { inner = inner; failed = 0 } }
    {
        Device { inner, failed: 0 }
    }

    fn fail(&mut self) -> Failed
        ensures { self.new ≡ record self.old { failed = risen self.old.failed } }
    {
        self.failed = self.failed.saturating_add(1);
        Failed
    }
}

/// A feed over a `BufRead`.
#[derive(Drop)]
pub struct ReadFeed<R: BufRead> {
    device: Device<R>,
}

impl<R: BufRead> ReadFeed<R> {
    /// Makes a feed of a reader's remaining bytes. No call has failed.
    pub fn new(inner: R) -> Self
        ensures left { ⟦<ReadFeed<R> as Feed>⟧.left result ≡ R.remaining inner }
        ensures faults { ⟦<ReadFeed<R> as Feed>⟧.faults result ≡ 0 }
    {
        ReadFeed {
            device: Device::new(inner),
        }
    }

    /// Returns a reference to the reader.
    pub fn get_ref(&self) -> &R
        ensures { ⟦<ReadFeed<R> as Feed>⟧.left self.now ≡ R.remaining result.now }
    {
        &self.device.inner
    }
}

impl<R: BufRead> Feed for ReadFeed<R> {
    ghost left = { λ f. R.remaining f.device.inner };

    ghost faults = { λ f. f.device.failed };

    fn pull(&mut self) -> Result<Option<u8>, Failed> {
        let mut byte = [0u8; 1];
        match self.device.inner.read(&mut byte) {
            Ok(0) => Ok(None),
            Ok(_) => Ok(Some(byte[0])),
            Err(_) => Err(self.device.fail()),
        }
    }

    fn pull_run(&mut self, line: &mut Vec<u8>, most: usize) -> Result<Run, Failed> {
        let held = match self.device.inner.fill_buf() {
            Ok(held) => held,
            Err(_) => return Err(self.device.fail()),
        };
        if held.is_empty() {
            return Ok(Run::End);
        }
        let front = &held[..held.len().min(most)];
        match memchr(b'\n', front) {
            Some(end) => {
                if line.extend_from_slice(&front[..end]).is_err() {
                    return Ok(Run::Memory);
                }
                self.device.inner.consume(end + 1);
                Ok(Run::Feed)
            }
            None => {
                let len = front.len();
                if line.extend_from_slice(front).is_err() {
                    return Ok(Run::Memory);
                }
                self.device.inner.consume(len);
                Ok(Run::Part)
            }
        }
    }
}

/// A sink over a `Write`.
#[derive(Drop)]
pub struct WriteSink<W: Write> {
    device: Device<W>,
    settled: u64,
}

impl<W: Write> WriteSink<W> {
    /// Makes a sink over a writer. No call has failed, and none has flushed.
    pub fn new(inner: W) -> Self
        ensures written { ⟦<WriteSink<W> as Sink>⟧.written result ≡ W.contents inner }
        ensures faults { ⟦<WriteSink<W> as Sink>⟧.faults result ≡ 0 }
        ensures settled { ⟦<WriteSink<W> as Sink>⟧.settled result ≡ 0 }
    {
        WriteSink {
            device: Device::new(inner),
            settled: 0,
        }
    }
}

impl<W: Write> Sink for WriteSink<W> {
    ghost written = { λ s. W.contents s.device.inner };

    ghost faults = { λ s. s.device.failed };

    ghost settled = { λ s. s.settled };

    fn put(&mut self, bytes: &[u8]) -> Result<usize, Failed> {
        match self.device.inner.write(bytes) {
            Ok(0) if !bytes.is_empty() => Err(self.device.fail()),
            Ok(n) => Ok(n),
            Err(_) => Err(self.device.fail()),
        }
    }

    fn settle(&mut self) -> Result<(), Failed> {
        match self.device.inner.flush() {
            Ok(()) => {
                self.settled = self.settled.saturating_add(1);
                Ok(())
            }
            Err(_) => Err(self.device.fail()),
        }
    }
}
