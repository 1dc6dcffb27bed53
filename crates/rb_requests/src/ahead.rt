//! Lines that are in memory before they are read: what their lookups need is fetched for several of
//! them together.
ghost use Rattle.std.specs.Prelude.{◌≡◌};

use crate::device::Feed;
use memchr::memchr;
use rb_engine::{Engine, Upcoming};

/// The most bytes in which lines are looked for at once.
const SPAN: usize = 4096;

/// Returns the first line, without its line feed, and what follows it.
fn next_line(bytes: &[u8]) -> Option<(&[u8], &[u8])> {
    let end = memchr(b'\n', bytes)?;
    Some((bytes.get(..end)?, bytes.get(end + 1..)?))
}

/// Returns the next string of a line, and what follows it. Escapes aren't read.
fn next_string(line: &[u8]) -> Option<(&[u8], &[u8])> {
    let rest = line.get(memchr(b'"', line)? + 1..)?;
    let end = memchr(b'"', rest)?;
    Some((rest.get(..end)?, rest.get(end + 1..)?))
}

/// The number of a lookup's members.
const MEMBERS: usize = 4;

/// Returns the application and the locale of a lookup whose members are strings without escapes. This
/// is a guess: the line is parsed when it is read.
fn names_in(line: &[u8]) -> Option<(&[u8], &[u8])> {
    let mut app = None;
    let mut locale = None;
    let mut rest = line;
    for _ in 0..MEMBERS {
        let (member, after_member) = next_string(rest)?;
        let (value, after) = next_string(after_member)?;
        if member == b"app".as_slice() {
            app = Some(value);
        } else if member == b"locale".as_slice() {
            locale = Some(value);
        }
        if let (Some(app), Some(locale)) = (app, locale) {
            return Some((app, locale));
        }
        rest = after;
    }
    None
}

/// The number of lines that are read before names are looked for again.
#[derive(Clone, Copy)]
pub(crate) struct Ahead {
    lines: usize,
}

/// Collects the names in the first lines, and counts these lines.
fn upcoming_in(bytes: &[u8]) -> (Upcoming, usize) {
    let mut upcoming = Upcoming::new();
    let mut rest = &bytes[..bytes.len().min(SPAN)];
    for lines in 0..Upcoming::MOST {
        let Some((line, after)) = next_line(rest) else {
            return (upcoming, lines);
        };
        if let Some((app, locale)) = names_in(line) {
            upcoming.add(app, locale);
        }
        rest = after;
    }
    (upcoming, Upcoming::MOST)
}

impl Ahead {
    pub(crate) const NONE: Ahead = Ahead { lines: 0 };

    /// Fetches what the next lines of a feed need, once the lines of the last time are read.
    pub(crate) fn fetch<F: Feed>(&mut self, engine: &mut Engine, feed: &F)
        ensures { engine.new ≡ engine.old }
    {
        if self.lines > 0 {
            self.lines -= 1;
            return;
        }
        if !engine.gains_by_fetch() {
            self.lines = Upcoming::MOST - 1;
            return;
        }
        let (upcoming, lines) = upcoming_in(feed.ahead());
        if lines > 0 {
            self.lines = lines - 1;
            engine.fetch(&upcoming);
        }
    }
}
