ghost use Rattle.std.specs.Prelude.{None};

use rb_requests::{Failed, Feed};
use std::io;
use std::io::{BufRead, ErrorKind, Read, Write};

/// Counts calls, of which one is interrupted; later ones continue.
#[derive(Drop)]
struct Calls {
    count: usize,
    failing: usize,
}

impl Calls {
    /// Counts a call, which may be the one that fails.
    fn next(&mut self) -> io::Result<()> {
        let call = self.count;
        self.count = call.saturating_add(1);
        if call == self.failing {
            return Err(io::Error::from(ErrorKind::Interrupted));
        }
        Ok(())
    }
}

/// A reader of some bytes, which allocates nothing.
#[derive(Drop)]
pub struct SlowReader<'a> {
    bytes: &'a [u8],
    calls: Calls,
}

impl<'a> SlowReader<'a> {
    /// Returns a reader whose call `failing`, counted from 0, fails.
    pub fn new(bytes: &'a [u8], failing: usize) -> SlowReader<'a> {
        SlowReader {
            bytes,
            calls: Calls { count: 0, failing },
        }
    }
}

impl<'a> Read for SlowReader<'a> {
    fn read(&mut self, buf: &mut [u8]) -> io::Result<usize> {
        self.calls.next()?;
        let count = self.bytes.len().min(buf.len()).min(1);
        let (front, rest) = self.bytes.split_at(count);
        buf[..count].copy_from_slice(front);
        self.bytes = rest;
        Ok(count)
    }
}

impl<'a> BufRead for SlowReader<'a> {
    fn fill_buf(&mut self) -> io::Result<&[u8]> {
        self.calls.next()?;
        Ok(&self.bytes[..self.bytes.len().min(1)])
    }

    fn consume(&mut self, amount: usize) {
        self.bytes = self.bytes.get(amount..).unwrap_or(&[]);
    }
}

/// A writer that stores 512 bytes, and allocates nothing.
#[derive(Drop)]
pub struct SlowWriter {
    bytes: [u8; 512],
    len: usize,
    calls: Calls,
}

impl SlowWriter {
    /// Returns a writer whose call `failing`, counted from 0, fails; a flush is a call too.
    pub fn new(failing: usize) -> SlowWriter {
        SlowWriter {
            bytes: [0; 512],
            len: 0,
            calls: Calls { count: 0, failing },
        }
    }

    pub fn written(&self) -> &[u8] {
        self.bytes.get(..self.len).unwrap_or(&[])
    }
}

impl Write for SlowWriter {
    fn write(&mut self, buf: &[u8]) -> io::Result<usize> {
        self.calls.next()?;
        match (buf.first(), self.bytes.get_mut(self.len)) {
            (Some(byte), Some(place)) => {
                *place = *byte;
                self.len = self.len.saturating_add(1);
                Ok(1)
            }
            _ => Ok(0),
        }
    }

    fn flush(&mut self) -> io::Result<()> {
        self.calls.next()
    }
}

/// A reader of empty lines without an end.
#[derive(Drop)]
pub struct Endless;

impl Feed for Endless {
    ghost left = { λ e. None };

    ghost faults = { λ e. 0 };

    fn pull(&mut self) -> Result<Option<u8>, Failed> {
        Ok(Some(b'\n'))
    }
}

/// A writer that takes everything and flushes nothing.
#[derive(Drop)]
pub struct Stuck;

impl Write for Stuck {
    fn write(&mut self, bytes: &[u8]) -> io::Result<usize> {
        Ok(bytes.len())
    }

    fn flush(&mut self) -> io::Result<()> {
        Err(io::Error::from(ErrorKind::BrokenPipe))
    }
}

/// A writer that takes nothing.
#[derive(Drop)]
pub struct Full;

impl Write for Full {
    fn write(&mut self, _bytes: &[u8]) -> io::Result<usize> {
        Ok(0)
    }

    fn flush(&mut self) -> io::Result<()> {
        Ok(())
    }
}
