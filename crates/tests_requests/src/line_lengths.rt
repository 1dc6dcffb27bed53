//! Tests serving lines of at most ten bytes, from whole inputs and from single bytes.
ghost use Rattle.std.specs.Prelude.{None};

use crate::lines::empty_engine;
use rb_requests::{Failed, Feed, Limits, ReadFeed, ServeFault, WriteSink, serve_limited};
use std::alloc::{AllocError, Global};

/// A reader of one byte a call, which says that other lines come next. The call numbered `failing`,
/// from 0, fails.
#[derive(Drop)]
struct ByByte<'a> {
    bytes: &'a [u8],
    calls: usize,
    failing: usize,
    failed: u64,
}

impl<'a> ByByte<'a> {
    fn new(bytes: &'a [u8], failing: usize) -> ByByte<'a> {
        ByByte {
            bytes,
            calls: 0,
            failing,
            failed: 0,
        }
    }
}

impl<'a> Feed for ByByte<'a> {
    ghost left = { λ f. None };

    ghost faults = { λ f. f.failed };

    fn pull(&mut self) -> Result<Option<u8>, Failed> {
        let call = self.calls;
        self.calls = call.saturating_add(1);
        if call == self.failing {
            self.failed = self.failed.saturating_add(1);
            return Err(Failed);
        }
        match self.bytes.split_first() {
            Some((byte, rest)) => {
                self.bytes = rest;
                Ok(Some(*byte))
            }
            None => Ok(None),
        }
    }

    fn ahead(&self) -> &[u8] {
        b"{\"app\":\"shop\",\"locale\":\"de\"}\n\"app\n\n\"locale\":\"\"\"app\":\"\n"
    }
}

/// A limit on lines only.
const LIMITS: Limits = Limits {
    line_bytes: Some(10),
    ..Limits::NONE
};

/// The reply to a line of at most ten bytes, none of which is a request.
const BAD: &str = "{\"error\":\"BadLine\"}\n";

/// The reply to a longer line.
const LONG: &str = "{\"error\":\"LineTooLong\"}\n";

/// Returns the replies that letters stand for: `B` for `BAD`, `L` for `LONG`.
fn replies(alloc: Global, letters: &str) -> Result<Vec<u8>, AllocError> {
    let mut replies = Vec::new(alloc);
    for letter in letters.bytes() {
        let reply = if letter == b'L' { LONG } else { BAD };
        replies.extend_from_slice(reply.as_bytes())?;
    }
    Ok(replies)
}

/// Serves lines, and checks how that ends and what is written.
fn ends<F: Feed>(
    rt: &HostRuntime,
    feed: &mut F,
    max_lines: u64,
    ended: Result<u64, ServeFault>,
    wanted: &[u8],
) -> bool {
    let alloc = rt.alloc();
    let Some(mut engine) = empty_engine(rt) else {
        return false;
    };
    let mut written: Vec<u8> = Vec::new(alloc);
    let mut sink = WriteSink::new(&mut written);
    let served = serve_limited(alloc, &mut engine, &LIMITS, feed, &mut sink, max_lines);
    served.map(|served| served.lines) == ended && written.as_slice() == wanted
}

/// More calls than any input here has.
const NEVER: usize = 1000;

/// Inputs, in which `/` stands for a line feed; the most lines that may be served; the number of
/// lines that are served, or `LineLimit`; and the letters of the replies.
const INPUTS: &str = "\
|9|0|
/|9|1|B
0123456789|9|1|B
0123456789/|9|1|B
01234567890|9|1|L
01234567890/x|9|2|LB
0123456789/01234567890|9|2|BL
0123456789/01234567890|1|LineLimit|B
0123456789//x/9876543210|9|4|BBBB
0123456789//x/9876543210|4|4|BBBB
0123456789//x/9876543210|3|LineLimit|BBB
x/|0|LineLimit|";

fn ends_by_both(
    rt: &HostRuntime,
    input: &[u8],
    max_lines: u64,
    ended: Result<u64, ServeFault>,
    wanted: &[u8],
) -> bool {
    let mut whole = ReadFeed::new(input);
    let mut by_byte = ByByte::new(input, NEVER);
    ends(rt, &mut whole, max_lines, ended, wanted)
        && ends(rt, &mut by_byte, max_lines, ended, wanted)
}

/// Reads a row of `INPUTS`, and serves its input.
fn is_served(rt: &HostRuntime, row: &str) -> Option<bool> {
    let mut fields = row.split('|');
    let input = fields.next()?.replace(rt.alloc(), '/', "\n").ok()?;
    let max_lines: u64 = fields.next()?.parse().ok()?;
    let ended = match fields.next()? {
        "LineLimit" => Err(ServeFault::LineLimit),
        lines => Ok(lines.parse().ok()?),
    };
    let wanted = replies(rt.alloc(), fields.next()?).ok()?;
    Some(ends_by_both(rt, input.as_bytes(), max_lines, ended, wanted.as_slice()))
}

fn are_served(rt: &HostRuntime) -> bool {
    for row in INPUTS.lines() {
        if is_served(rt, row) != Some(true) {
            return false;
        }
    }
    true
}

#[test]
fn serves_lines_up_to_the_limit(rt: HostRuntime) {
    assert!(rt; are_served(&rt));
}

/// Serves `0123456789//xyz` from a reader of which a call fails.
fn ends_at(rt: &HostRuntime, failing: usize, letters: &str) -> bool {
    let Ok(wanted) = replies(rt.alloc(), letters) else {
        return false;
    };
    let mut feed = ByByte::new(b"0123456789\n\nxyz", failing);
    ends(rt, &mut feed, 9, Err(ServeFault::Read), wanted.as_slice())
}

fn ends_at_each(rt: &HostRuntime) -> bool {
    ends_at(rt, 0, "")
        && ends_at(rt, 10, "")
        && ends_at(rt, 11, "B")
        && ends_at(rt, 12, "BB")
        && ends_at(rt, 14, "BB")
        && ends_at(rt, 15, "BB")
}

#[test]
fn ends_at_a_call_that_fails(rt: HostRuntime) {
    assert!(rt; ends_at_each(&rt));
}
