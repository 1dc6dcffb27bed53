ghost use Rattle.std.specs.Prelude.{◌≡◌, ◌<◌, ◌≤◌, OnOk, OnErr, IfOk, IfErr, List, [], ℕ};
ghost use Rattle.std.specs.Prelude.{length, drop, min, take};
ghost use Rattle.std.specs.Io.KnownBytes.{Appends};
ghost use Rattle.rb_engine.specs.Kept.{state_of};
ghost use Rattle.rb_requests.specs.inner.Taken.{EndsAfter, IsHeldUnder};
ghost use Rattle.rb_requests.specs.Device.{risen_by, counted, settles};
ghost use Rattle.rb_requests.specs.Served.{AnswersAll, AnswersWithin, AfterFault, AfterFaultWithin};
ghost use Rattle.rb_requests.specs.Served.{at, reads_failed, writes_failed};
ghost use Rattle.rb_requests.specs.ExtendedReply.{ExtendedWithin};
ghost use Rattle.rb_requests.specs.Within.{LineReplyWithin, longest_kept, longest_read};
ghost use Rattle.rb_requests.specs.inner.Longest.{longest};
ghost use Rattle.rb_requests.specs.declared.reading.Longest.{Longest};
ghost use Rattle.rb_requests.specs.inner.OneLine.{Wrote, WrotePart, MayTakeEffect, FailsLine};
ghost use Rattle.rb_requests.specs.inner.OneLine.{line_settled};
ghost use Rattle.rb_requests.specs.inner.Starving.{held_error as error_if_held};
ghost use Rattle.rb_requests.specs.inner.Starving.{starved_error as error_if_starved};
ghost use Rattle.rb_requests.specs.inner.Placing.{Finishes, PlacesOn};
ghost use Rattle.rb_requests.specs.inner.Protocols.{LineReplyBy};
ghost use Rattle.rb_requests.specs.inner.Putting.{writer_of};

use crate::ahead::Ahead;
use crate::answer::{Placed, Starved, tell_line_error};
use crate::device::{Failed, Feed, Sink};
use crate::limits::{LINE_LIMIT, Limits};
use crate::protocol::Protocol;
use crate::reading::{Held, Longest, NextLine, read_line};
use crate::words::LineError;
use json::Scratch;
use rb_engine::Engine;
use rb_replies::ReplyLine;
use std::alloc::{AllocError, Global};
use thiserror::Error;

/// The reason why serving ended before the end of the input.
#[derive(Clone, Copy, Debug, PartialEq, Eq, Error)]
pub enum ServeFault {
    /// A call of the reader failed.
    #[error("a line could not be read")]
    Read,
    /// A call of the writer failed.
    #[error("a reply could not be written")]
    Write,
    /// More lines came than may be served.
    #[error("there are too many lines")]
    LineLimit,
    /// A line is too long.
    #[error("a line is too long")]
    LineTooLong,
    /// Out of memory for a line.
    #[error("out of memory")]
    Memory,
}

/// The number of lines that were served.
#[derive(Clone, Copy, PartialEq, Eq)]
pub struct Served {
    pub lines: u64,
}

/// A buffer above this many bytes isn't kept for the next line.
const KEPT: usize = 65_536;

/// Empties a buffer and its scratch, and keeps their memory unless the buffer is large.
fn empty(alloc: Global, buffer: &mut Vec<u8>, scratch: &mut Scratch)
    ensures { buffer.new.items ≡ [] }
{
    if buffer.capacity() > KEPT {
        *buffer = Vec::new(alloc);
        *scratch = Scratch::new(alloc);
    } else {
        buffer.clear();
    }
}

/// The most bytes that a call of the sink gets.
pub(crate) const PIECE: usize = 65_536;

fn piece(bytes: &[u8]) -> &[u8]
    ensures { result.now ≡ take (min (length bytes.now) 65536) bytes.now }
{
    &bytes[..bytes.len().min(PIECE)]
}

/// Writes bytes in pieces; the sink may write a piece in parts.
#[tactic(auto, using(crate::proofs::Putting::at_first, crate::proofs::Putting::put_part))]
pub(crate) fn put_all<S: Sink>(sink: &mut S, bytes: &[u8]) -> Result<(), Failed>
    ensures bytes { OnOk result (Appends (S.written sink.old) (S.written sink.new) bytes.now) }
    ensures fault { OnErr result (WrotePart (S.written sink.old) (S.written sink.new) bytes.now) }
    ensures count { S.faults sink.new ≡ counted (S.faults sink.old) result }
    ensures settled { S.settled sink.new ≡ S.settled sink.old }
{
    let mut rest = bytes;
    while !rest.is_empty() {
        match sink.put(piece(rest)) {
            Ok(taken) => rest = after(rest, taken),
            Err(failed) => return Err(failed),
        }
    }
    Ok(())
}

fn after(bytes: &[u8], n: usize) -> &[u8]
    requires { n ≤ length bytes.now }
    ensures { result.now ≡ drop n bytes.now }
{
    &bytes[n..]
}

/// Writes a reply, and flushes.
#[tactic(auto, using(crate::proofs::Serving::settled, crate::proofs::Putting::put_whole))]
fn put_reply<S: Sink>(sink: &mut S, reply: &[u8]) -> Result<(), Failed>
    ensures bytes { OnOk result (Appends (S.written sink.old) (S.written sink.new) reply.now) }
    ensures fault { OnErr result (WrotePart (S.written sink.old) (S.written sink.new) reply.now) }
    ensures count { S.faults sink.new ≡ counted (S.faults sink.old) result }
    ensures settled { S.settled sink.new ≡ settles (S.settled sink.old) result }
{
    put_all(sink, reply)?;
    sink.settle()
}

/// Returns the lengths under limits up to which lines are read, and up to which they are stored.
fn longest_of(limits: &Limits) -> Longest
    ensures { result ≡ longest limits.now }
{
    let most = LINE_LIMIT as u64;
    Longest {
        kept: limits.line_bytes.unwrap_or(most).min(most) as usize,
        limit: if limits.line_bytes.is_some() {
            usize::MAX
        } else {
            LINE_LIMIT
        },
        passes_starved: limits.keep_serving,
    }
}

/// Returns the error that a line is answered of which this much is stored; none if all of it is.
fn held_error(held: Held) -> Option<LineError>
    ensures { result ≡ error_if_held held }
{
    match held {
        Held::Whole => None,
        Held::Front => Some(LineError::LineTooLong),
        Held::Starved => Some(LineError::Memory),
    }
}

/// Returns the error that is answered if memory ran out for a whole line; none if serving ends.
fn starved_error(limits: &Limits, starved: Starved) -> Option<LineError>
    ensures { result ≡ error_if_starved limits.now starved }
{
    match starved {
        Starved::Before if limits.keep_serving => Some(LineError::Memory),
        _ => None,
    }
}

/// Makes the reply to a line of which this much is stored, or writes it to the sink. `AllocError`:
/// memory ran out, nothing is written, and serving ends.
fn tell_line<S: Sink>(
    alloc: Global,
    engine: &mut Engine,
    limits: &Limits,
    protocol: Protocol,
    scratch: &mut Scratch,
    line: &[u8],
    held: Held,
    reply: &mut ReplyLine,
    sink: &mut S,
) -> Result<Placed, AllocError>
    ensures reply { PlacesOn S.Sink result reply.new sink.old sink.new
        (λ text. (longest : Longest) → (whole : List ℕ)
        → IsHeldUnder limits.now longest whole line.now held
        → LineReplyBy protocol longest.kept limits.now engine.old whole text engine.new) }
    ensures fault { IfErr result (λ e. (longest : Longest) → (whole : List ℕ)
        → IsHeldUnder limits.now longest whole line.now held
        → MayTakeEffect (LineReplyBy protocol longest.kept limits.now) engine.old whole engine.new) }
{
    let error = match held_error(held) {
        Some(error) => error,
        None => match protocol.reply_of(alloc, engine, limits, scratch, line, reply, sink) {
            Ok(placed) => return Ok(placed),
            Err(starved) => match starved_error(limits, starved) {
                Some(error) => error,
                None => return Err(AllocError),
            },
        },
    };
    tell_line_error(alloc, error, reply)?;
    Ok(Placed::Held)
}

/// Writes a reply if it isn't written yet, and flushes.
fn put_placed<S: Sink>(sink: &mut S, placed: Placed, line: &[u8]) -> Result<(), Failed>
    ensures { Finishes placed line.now (writer_of S.Sink sink.old)
        (writer_of S.Sink sink.new) result }
{
    match placed {
        Placed::Held => put_reply(sink, line),
        Placed::Put(Ok(())) => sink.settle(),
        Placed::Put(Err(failed)) => Err(failed),
    }
}

fn serve_line<S: Sink>(
    alloc: Global,
    engine: &mut Engine,
    limits: &Limits,
    protocol: Protocol,
    scratch: &mut Scratch,
    sink: &mut S,
    line: &[u8],
    held: Held,
    reply: &mut ReplyLine,
) -> Result<(), ServeFault>
    ensures line { OnOk result ((longest : Longest) → (whole : List ℕ)
        → IsHeldUnder limits.now longest whole line.now held
        → Wrote (LineReplyBy protocol longest.kept limits.now) engine.old whole
        (S.written sink.old) (S.written sink.new) engine.new) }
    ensures fault { IfErr result (λ fault. (longest : Longest) → (whole : List ℕ)
        → IsHeldUnder limits.now longest whole line.now held
        → FailsLine (LineReplyBy protocol longest.kept limits.now) fault engine.old whole
        (S.written sink.old) (S.written sink.new) engine.new) }
    ensures count { S.faults sink.new ≡ writes_failed (S.faults sink.old) result }
    ensures settled { S.settled sink.new ≡ line_settled (S.settled sink.old) result }
{
    let placed = match tell_line(
        alloc, engine, limits, protocol, scratch, line, held, reply, sink,
    ) {
        Ok(placed) => placed,
        Err(_) => return Err(ServeFault::Memory),
    };
    match put_placed(sink, placed, reply.as_bytes()) {
        Ok(()) => Ok(()),
        Err(Failed) => Err(ServeFault::Write),
    }
}

/// Ends serving after the most lines that may be served: reads a byte more, if there is one.
fn end_after<F: Feed>(feed: &mut F, lines: u64) -> Result<Served, ServeFault>
    ensures end { EndsAfter (F.left feed.old) (F.left feed.new) lines result }
    ensures reads { F.faults feed.new ≡ reads_failed (F.faults feed.old) result }
{
    match feed.pull() {
        Ok(None) => Ok(Served { lines }),
        Ok(Some(_)) => Err(ServeFault::LineLimit),
        Err(Failed) => Err(ServeFault::Read),
    }
}

/// Answers the lines of an input by a protocol, under limits.
#[tactic(auto, using(crate::proofs::Serving::at_first))]
fn serve_by<F: Feed, S: Sink>(
    alloc: Global,
    engine: &mut Engine,
    limits: &Limits,
    protocol: Protocol,
    feed: &mut F,
    sink: &mut S,
    max_lines: u64,
) -> Result<Served, ServeFault>
    ensures all { IfOk result (λ served. AnswersWithin
        (LineReplyBy protocol (longest_kept limits.now) limits.now) (longest_read limits.now)
        (at engine.old (F.left feed.old) (S.written sink.old) (S.settled sink.old))
        (at engine.new (F.left feed.new) (S.written sink.new) (S.settled sink.new)) served.lines) }
    ensures most { IfOk result (λ served. served.lines ≤ max_lines) }
    ensures settled { IfOk result
        (λ served. S.settled sink.new ≡ risen_by (S.settled sink.old) served.lines) }
    ensures fault { IfErr result (λ fault. AfterFaultWithin
        (LineReplyBy protocol (longest_kept limits.now) limits.now) (longest_read limits.now) fault
        (at engine.old (F.left feed.old) (S.written sink.old) (S.settled sink.old))
        (at engine.new (F.left feed.new) (S.written sink.new) (S.settled sink.new)) max_lines) }
    ensures reads { F.faults feed.new ≡ reads_failed (F.faults feed.old) result }
    ensures writes { S.faults sink.new ≡ writes_failed (S.faults sink.old) result }
{
    let longest = longest_of(limits);
    let mut line = Vec::new(alloc);
    let mut scratch = Scratch::new(alloc);
    let mut reply = ReplyLine::new(alloc);
    let mut ahead = Ahead::NONE;
    'lines: for lines in 0..max_lines {
        ahead.fetch(engine, feed);
        empty(alloc, &mut line, &mut scratch);
        match read_line(alloc, feed, &mut line, longest) {
            Ok(NextLine::Ended(held)) => serve_line(
                alloc,
                engine,
                limits,
                protocol,
                &mut scratch,
                sink,
                &line,
                held,
                &mut reply,
            )?,
            Ok(NextLine::Last(held)) => {
                serve_line(
                    alloc,
                    engine,
                    limits,
                    protocol,
                    &mut scratch,
                    sink,
                    &line,
                    held,
                    &mut reply,
                )?;
                return Ok(Served { lines: lines + 1 });
            }
            Ok(NextLine::End) => return Ok(Served { lines }),
            Ok(NextLine::TooLong) => return Err(ServeFault::LineTooLong),
            Ok(NextLine::Memory) => return Err(ServeFault::Memory),
            Err(Failed) => return Err(ServeFault::Read),
        }
    }
    end_after(feed, max_lines)
}

/// Answers the lines of an input under limits, each with one line. A line is read, answered and
/// flushed before the next one is read.
///
/// A line above its limit is skipped and answered `LineTooLong`. With `keep_serving`, a line for
/// which memory ran out before it changed anything is answered `Memory`. A call that a limit
/// refuses is answered with the limit's error code. A found item or names whose line would be too
/// long are answered `ReplyTooLong`, before any part of that line is written. If any limit is on,
/// `{"op":"usage","app":..}` is answered with the bytes of the application's files and their
/// number.
///
/// Errors are those of `serve`; `LineTooLong` is one only without a limit on lines.
///
/// ```rust
/// let limits = Limits { line_bytes: Some(1000), ..Limits::NONE };
/// serve_limited(alloc, &mut engine, &limits, &mut feed, &mut sink, 10) // Ok(Served { lines: 1 })
/// ```
pub fn serve_limited<F: Feed, S: Sink>(
    alloc: Global,
    engine: &mut Engine,
    limits: &Limits,
    feed: &mut F,
    sink: &mut S,
    max_lines: u64,
) -> Result<Served, ServeFault>
    // All the input is read, what is written is the replies to its lines under limits and nothing
    // else, and they have taken effect.
    ensures all { IfOk result (λ served. AnswersWithin
        (LineReplyWithin limits.now) (longest_read limits.now)
        (at engine.old (F.left feed.old) (S.written sink.old) (S.settled sink.old))
        (at engine.new (F.left feed.new) (S.written sink.new) (S.settled sink.new)) served.lines) }
    ensures most { IfOk result (λ served. served.lines ≤ max_lines) }
    ensures settled { IfOk result
        (λ served. S.settled sink.new ≡ risen_by (S.settled sink.old) served.lines) }
    // The first lines are answered and their replies flushed; the fault says how far the next came.
    ensures fault { IfErr result (λ fault. AfterFaultWithin
        (LineReplyWithin limits.now) (longest_read limits.now) fault
        (at engine.old (F.left feed.old) (S.written sink.old) (S.settled sink.old))
        (at engine.new (F.left feed.new) (S.written sink.new) (S.settled sink.new)) max_lines) }
    // A count of failed calls rises by one at its device's fault, and otherwise stays.
    ensures reads { F.faults feed.new ≡ reads_failed (F.faults feed.old) result }
    ensures writes { S.faults sink.new ≡ writes_failed (S.faults sink.old) result }
{
    serve_by(
        alloc,
        engine,
        limits,
        Protocol::Plain,
        feed,
        sink,
        max_lines,
    )
}

/// Answers the lines of an input, each with one line, like `serve_limited`, and the extended
/// requests too: `put`, `release`, `export`, `tree`, `list` with `sizes`, and `usage` whether or not
/// there are limits. The refusal of a text has the code and the line of an error, as `compile`
/// reports one, and the refusal of a file the code of its first error.
///
/// ```rust
/// serve_extended(alloc, &mut engine, &Limits::NONE, &mut feed, &mut sink, 10) // Ok(Served { lines: 1 })
/// ```
pub fn serve_extended<F: Feed, S: Sink>(
    alloc: Global,
    engine: &mut Engine,
    limits: &Limits,
    feed: &mut F,
    sink: &mut S,
    max_lines: u64,
) -> Result<Served, ServeFault>
    // All the input is read, what is written is the replies to its lines under limits and nothing
    // else, and they have taken effect.
    ensures all { IfOk result (λ served. AnswersWithin
        (ExtendedWithin limits.now) (longest_read limits.now)
        (at engine.old (F.left feed.old) (S.written sink.old) (S.settled sink.old))
        (at engine.new (F.left feed.new) (S.written sink.new) (S.settled sink.new)) served.lines) }
    ensures most { IfOk result (λ served. served.lines ≤ max_lines) }
    ensures settled { IfOk result
        (λ served. S.settled sink.new ≡ risen_by (S.settled sink.old) served.lines) }
    // The first lines are answered and their replies flushed; the fault says how far the next came.
    ensures fault { IfErr result (λ fault. AfterFaultWithin
        (ExtendedWithin limits.now) (longest_read limits.now) fault
        (at engine.old (F.left feed.old) (S.written sink.old) (S.settled sink.old))
        (at engine.new (F.left feed.new) (S.written sink.new) (S.settled sink.new)) max_lines) }
    // A count of failed calls rises by one at its device's fault, and otherwise stays.
    ensures reads { F.faults feed.new ≡ reads_failed (F.faults feed.old) result }
    ensures writes { S.faults sink.new ≡ writes_failed (S.faults sink.old) result }
{
    serve_by(
        alloc,
        engine,
        limits,
        Protocol::Extended,
        feed,
        sink,
        max_lines,
    )
}

/// Answers the lines of an input, each with one line. A line is read, answered and flushed before
/// the next one is read.
///
/// At `Ok` all the input is read, and the replies to its lines are written. After an error the
/// replies to the first lines are written, and these have taken effect. `Read`: a call of the
/// reader failed; the lines whose line feeds were read are answered. `LineTooLong` comes at the
/// byte past a line's limit, and `LineLimit` at a byte after `max_lines` lines; all lines before it
/// are answered. `Write`: a call of the writer failed; the next line has taken effect too, and a
/// part of its reply is written. `Memory`: memory ran out for the next line, which may have taken
/// effect.
///
/// The sink gets at most 65,536 bytes in a call. The line of an item is written while the item is
/// read, with at most one piece of it in memory.
///
/// ```rust
/// let lines: &[u8] = b"{\"op\":\"list\",\"app\":\"shop\"}\n";
/// let mut feed = ReadFeed::new(lines);
/// let mut sink = WriteSink::new(&mut written);
/// serve(alloc, &mut engine, &mut feed, &mut sink, 10) // Ok(Served { lines: 1 }); written is {"names":[]}
/// ```
pub fn serve<F: Feed, S: Sink>(
    alloc: Global,
    engine: &mut Engine,
    feed: &mut F,
    sink: &mut S,
    max_lines: u64,
) -> Result<Served, ServeFault>
    // All the input is read, what is written is the replies to its lines and nothing else, and they
    // have taken effect.
    ensures all { IfOk result (λ served. AnswersAll
        (at (state_of engine.old) (F.left feed.old) (S.written sink.old) (S.settled sink.old))
        (at (state_of engine.new) (F.left feed.new) (S.written sink.new)
        (S.settled sink.new)) served.lines) }
    ensures most { IfOk result (λ served. served.lines ≤ max_lines) }
    ensures settled { IfOk result
        (λ served. S.settled sink.new ≡ risen_by (S.settled sink.old) served.lines) }
    // The first lines are answered and their replies flushed; the fault says how far the next came.
    ensures fault { IfErr result (λ fault. AfterFault fault
        (at (state_of engine.old) (F.left feed.old) (S.written sink.old) (S.settled sink.old))
        (at (state_of engine.new) (F.left feed.new) (S.written sink.new)
        (S.settled sink.new)) max_lines) }
    // A count of failed calls rises by one at its device's fault, and otherwise stays.
    ensures reads { F.faults feed.new ≡ reads_failed (F.faults feed.old) result }
    ensures writes { S.faults sink.new ≡ writes_failed (S.faults sink.old) result }
{
    serve_limited(alloc, engine, &Limits::NONE, feed, sink, max_lines)
}
