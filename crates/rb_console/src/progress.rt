//! Reports the progress of a command over many files.
use crate::console::Console;
use std::rt::Clock;
use std::time::Duration;

/// The seconds after which progress is reported.
const PATIENCE: u64 = 1;

/// The progress of a command: `412 of 879` on a line of standard error, if that is a terminal and a
/// second has passed.
#[derive(Drop)]
pub struct Progress<'a, R: Clock + Eprint> {
    rt: &'a R,
    began: Option<Duration>,
    done: usize,
    total: usize,
    is_shown: bool,
}

impl<'a, R: Clock + Eprint> Progress<'a, R> {
    /// Starts at 0 of `total` files. Without a terminal or a clock nothing is reported.
    pub fn new(rt: &'a R, console: Console, total: usize) -> Self {
        let began = if console.is_terminal {
            rt.monotonic().ok()
        } else {
            None
        };
        Progress {
            rt,
            began,
            done: 0,
            total,
            is_shown: false,
        }
    }

    /// Erases the line, before another is printed and at the end.
    pub fn clear(&mut self) {
        if self.is_shown {
            let _ = self.rt.eprint("\r\u{1b}[K");
            self.is_shown = false;
        }
    }

    /// Checks whether a second has passed.
    fn is_due(&self) -> bool {
        match (self.began, self.rt.monotonic()) {
            (Some(began), Ok(now)) => now.saturating_sub(began).as_secs() >= PATIENCE,
            _ => false,
        }
    }

    /// Counts a file, and reports the progress.
    pub fn step(&mut self) {
        self.done = self.done.saturating_add(1);
        if self.began.is_some() && self.is_due() {
            let (done, total) = (self.done, self.total);
            let _ = eprint!(self.rt; "\r{done} of {total}\u{1b}[K");
            self.is_shown = true;
        }
    }
}
