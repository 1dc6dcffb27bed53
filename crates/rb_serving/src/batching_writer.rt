//! Replies that are flushed in batches: a feed that records whether its buffer has another whole
//! line, and a writer that flushes only if it hasn't.
use memchr::memrchr;
use rb_requests::{Failed, Feed, ReadFeed, Run};
use std::cell::Cell;
use std::io;
use std::io::{BufReader, Read, Write};

/// Feeds a reader's buffer. After each read it records whether the buffer has another line feed.
#[derive(Drop)]
pub struct LookaheadFeed<'a, R: Read> {
    inner: ReadFeed<BufReader<R>>,
    has_next_line: &'a Cell<bool>,
    /// The number of bytes after the buffer's last line feed.
    rest: usize,
}

impl<'a, R: Read> LookaheadFeed<'a, R> {
    /// Returns a feed of the remaining bytes of a buffered reader. No call has failed.
    pub fn new(reader: BufReader<R>, has_next_line: &'a Cell<bool>) -> Self {
        LookaheadFeed {
            inner: ReadFeed::new(reader),
            has_next_line,
            rest: 0,
        }
    }

    /// Returns the number of bytes in the reader's buffer.
    fn buffered_len(&self) -> usize {
        self.inner.get_ref().buffer().len()
    }

    /// Counts the bytes after the last line feed in the buffer.
    #[inline(never)]
    fn count_rest(&self) -> usize {
        let buffered = self.inner.get_ref().buffer();
        match memrchr(b'\n', buffered) {
            Some(last) => buffered.len().saturating_sub(last).saturating_sub(1),
            None => buffered.len(),
        }
    }

    /// Records whether the buffer has a line feed, and returns the number of bytes after the last
    /// one. A read fills the buffer only if it was empty, so that is counted only then.
    fn look_ahead(&self, was_empty: bool) -> usize {
        let rest = if was_empty {
            self.count_rest()
        } else {
            self.rest
        };
        self.has_next_line.set(self.buffered_len() > rest);
        rest
    }
}

impl<'a, R: Read> Feed for LookaheadFeed<'a, R> {
    ghost left = { λ f. ⟦<ReadFeed<BufReader<R>> as Feed>⟧.left f.inner };

    ghost faults = { λ f. ⟦<ReadFeed<BufReader<R>> as Feed>⟧.faults f.inner };

    fn pull(&mut self) -> Result<Option<u8>, Failed> {
        let was_empty = self.buffered_len() == 0;
        let pulled = self.inner.pull()?;
        self.rest = self.look_ahead(was_empty);
        Ok(pulled)
    }

    fn pull_run(&mut self, line: &mut Vec<u8>, most: usize) -> Result<Run, Failed> {
        let was_empty = self.buffered_len() == 0;
        let run = self.inner.pull_run(line, most)?;
        self.rest = self.look_ahead(was_empty);
        Ok(run)
    }

    fn ahead(&self) -> &[u8] {
        self.inner.get_ref().buffer()
    }
}

/// Buffers what it writes, and flushes only if no further whole line is waiting.
#[derive(Drop)]
pub struct BatchingWriter<'a, W: Write + Drop> {
    inner: W,
    has_next_line: &'a Cell<bool>,
}

impl<'a, W: Write + Drop> BatchingWriter<'a, W> {
    pub fn new(inner: W, has_next_line: &'a Cell<bool>) -> Self {
        BatchingWriter {
            inner,
            has_next_line,
        }
    }

    /// Flushes, even if a further line is waiting.
    pub fn flush_now(&mut self) -> io::Result<()> {
        self.inner.flush()
    }
}

impl<'a, W: Write + Drop> Write for BatchingWriter<'a, W> {
    ghost contents = { λ w. W.contents w.inner };

    fn write(&mut self, bytes: &[u8]) -> io::Result<usize> {
        self.inner.write(bytes)
    }

    #[tactic(auto, using(crate::proofs::Kept::as_they_are))]
    fn flush(&mut self) -> io::Result<()> {
        if self.has_next_line.get() {
            return Ok(());
        }
        self.inner.flush()
    }
}
