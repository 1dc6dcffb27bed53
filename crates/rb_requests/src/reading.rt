ghost use Rattle.std.specs.Prelude.{◌≡◌, ◌<◌, ◌≤◌, ◌-◌, ◌+◌, ◌^◌, min, false, Ok, Option, List, []};
ghost use Rattle.std.specs.Prelude.{ℕ};
ghost use Rattle.std.specs.Io.KnownBytes.{IsAtEnd, Keeps};
ghost use Rattle.rb_requests.specs.Device.{counted};
ghost use Rattle.rb_requests.specs.inner.Taken.{Holds, IsSoFar, ReadsLine, ReadsPlain};

use crate::device::{Failed, Feed, Run};
use std::alloc::Global;

/// The lengths up to which a line is read, and up to which it is stored.
#[derive(Clone, Copy, PartialEq, Eq)]
pub(crate) struct Longest {
    /// The most bytes of a line that is stored whole. Its bytes beyond them are skipped.
    pub(crate) kept: usize,
    /// The most bytes of a line.
    pub(crate) limit: usize,
    /// A line for which memory runs out is skipped.
    pub(crate) passes_starved: bool,
}

/// The part that is stored of a line that was read.
#[derive(Clone, Copy, PartialEq, Eq)]
pub(crate) enum Held {
    Whole,
    /// At most its front: the line is longer than `kept`.
    Front,
    /// A part: memory ran out for the line, though it is no longer than `kept`.
    Starved,
}

/// The number of a line's bytes that were read, and whether memory ran out for it.
#[derive(Clone, Copy, PartialEq, Eq)]
pub(crate) struct Progress {
    pub(crate) count: usize,
    pub(crate) starved: bool,
}

#[derive(Clone, Copy, PartialEq, Eq)]
pub(crate) enum NextLine {
    /// A line; its line feed is read too.
    Ended(Held),
    /// The remaining input, which ends in no line feed.
    Last(Held),
    End,
    /// A part, one byte longer than a line may be.
    TooLong,
    /// A part. Memory ran out.
    Memory,
}

/// Classifies the stored part of a line that was read to its end.
fn held_of(longest: Longest, progress: Progress) -> Held
    ensures { Holds longest progress result }
{
    if progress.count > longest.kept {
        Held::Front
    } else if progress.starved {
        Held::Starved
    } else {
        Held::Whole
    }
}

/// Empties the buffer if it won't store the whole line.
fn let_go(line: &mut Vec<u8>, longest: Longest, progress: Progress)
    ensures { progress.starved ≡ false → progress.count ≤ longest.kept
        → line.new.items ≡ line.old.items }
{
    if progress.starved || progress.count > longest.kept {
        line.clear();
    }
}

/// Returns the most bytes to read next from a line of which `count` bytes were read: up to one byte
/// more than is stored, and past that the buffer's capacity.
fn run_len(longest: Longest, count: usize, room: usize) -> usize
    requires { count < longest.limit }
    ensures some { 0 < result }
    ensures few { result ≤ longest.limit - count }
{
    let most = if count <= longest.kept {
        (longest.kept - count).saturating_add(1)
    } else {
        room.max(1)
    };
    most.min(longest.limit - count)
}

/// Reads the next line, without its line feed, into an empty buffer. The bytes of a line past
/// `kept` are skipped. With `passes_starved`, a line for which memory runs out is skipped too, and
/// its buffer freed first. At most one byte past the limit is read.
pub(crate) fn read_line<F: Feed>(
    alloc: Global,
    feed: &mut F,
    line: &mut Vec<u8>,
    longest: Longest,
) -> Result<NextLine, Failed>
    requires room { 0 < longest.limit }
    requires empty { line.old.items ≡ [] }
    ensures line { ReadsLine longest line.new.items (F.left feed.old) (F.left feed.new) result }
    ensures count { F.faults feed.new ≡ counted (F.faults feed.old) result }
{
    let mut progress = Progress {
        count: 0,
        starved: false,
    };
    'runs: while progress.count < longest.limit {
        let_go(line, longest, progress);
        let before = line.len();
        let most = run_len(longest, progress.count, line.capacity());
        let run = feed.pull_run(line, most)?;
        let read = after_run(progress, line.len().saturating_sub(before));
        match run {
            Run::Feed => return Ok(NextLine::Ended(held_of(longest, read))),
            Run::Part => progress = read,
            Run::End => return Ok(last_line(longest, progress)),
            Run::Memory => {
                if progress.starved || !longest.passes_starved {
                    return Ok(NextLine::Memory);
                }
                *line = Vec::new(alloc);
                progress.starved = true;
            }
        }
    }
    after_longest(feed, longest, progress.starved)
}

fn after_run(progress: Progress, bytes: usize) -> Progress
    ensures { result ≡ record {
      count = min (progress.count + bytes) (2 ^ 64 - 1);
      starved = progress.starved;
    } }
{
    Progress {
        count: progress.count.saturating_add(bytes),
        starved: progress.starved,
    }
}

/// Reads the byte after the most bytes that a line may have.
#[tactic(auto, using(crate::proofs::LinesRead::after_longest))]
fn after_longest<F: Feed>(feed: &mut F, longest: Longest, starved: bool) -> Result<NextLine, Failed>
    ensures line { (first : Option (List ℕ)) → (line held : List ℕ)
        → ReadsPlain first (F.left feed.old) line
        → IsSoFar longest (record { count = longest.limit; starved = starved }) line held
        → 0 < longest.limit
        → ReadsLine longest held first (F.left feed.new) result }
    ensures count { F.faults feed.new ≡ counted (F.faults feed.old) result }
{
    let progress = Progress {
        count: longest.limit,
        starved,
    };
    match feed.pull() {
        Ok(Some(b'\n')) => Ok(NextLine::Ended(held_of(longest, progress))),
        Ok(Some(_)) => Ok(NextLine::TooLong),
        Ok(None) => Ok(last_line(longest, progress)),
        Err(failed) => Err(failed),
    }
}

/// Ends the input: remaining bytes without a line feed are a line, if there are any.
#[tactic(auto, using(crate::proofs::LinesRead::last_of, crate::proofs::LinesRead::end_of))]
fn last_line(longest: Longest, progress: Progress) -> NextLine
    ensures { (old left new : Option (List ℕ)) → (line held : List ℕ)
        → ReadsPlain old left line → IsSoFar longest progress line held
        → IsAtEnd left → Keeps left new → ReadsLine longest held old new (Ok result) }
{
    if progress.count == 0 {
        NextLine::End
    } else {
        NextLine::Last(held_of(longest, progress))
    }
}
