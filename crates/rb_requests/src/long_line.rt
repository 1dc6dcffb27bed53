//! Lines that may be long: they are written to the sink piece by piece.
ghost use Rattle.std.specs.Prelude.{◌≡◌, ◌↔◌, IfErr, IfOk, IsTrue, length};
ghost use Rattle.rb_replies.specs.Within.{IsAbove};
ghost use Rattle.rb_requests.specs.Within.{limited_line};
ghost use Rattle.rb_requests.specs.inner.LongLines.{long_line};
ghost use Rattle.rb_requests.specs.inner.Placing.{PlacesOn};
ghost use Rattle.rb_requests.specs.inner.Putting.{Puts, writer_of};

use crate::answer::{Placed, tell_line_error};
use crate::device::{Failed, Sink};
use crate::limits::Limits;
use crate::lines::PIECE;
use crate::stream::Stream;
use crate::words::LineError;
use rb_json::Outlet;
use rb_locales::Name;
use rb_replies::{
    ReplyLine, file_is_above, put_file, put_text, put_tree_line, text_is_above, tree_is_above,
};
use std::alloc::{AllocError, Global};

/// The content of a line that may be long.
#[derive(Clone, Copy)]
pub(crate) enum LongLine<'a> {
    /// A bundle's file.
    File(&'a [u8]),
    /// A bundle's text.
    Text(&'a str),
    /// The actual and the valid locale of an item, and its tree as JSON.
    Tree(&'a Name, &'a Name, &'a [u8]),
}

impl<'a> LongLine<'a> {
    fn put<O: Outlet>(self, out: &mut O)
        ensures { O.takes out.old out.new (long_line self.entry) }
    {
        match self {
            LongLine::File(file) => put_file(out, file),
            LongLine::Text(text) => put_text(out, text),
            LongLine::Tree(actual, valid, tree) => put_tree_line(out, actual, valid, tree),
        }
    }

    fn is_above(self, limit: Option<u64>) -> bool
        ensures { IsTrue result ↔ IsAbove (length (long_line self.entry)) limit }
    {
        match self {
            LongLine::File(file) => file_is_above(file, limit),
            LongLine::Text(text) => text_is_above(text, limit),
            LongLine::Tree(actual, valid, tree) => tree_is_above(actual, valid, tree, limit),
        }
    }
}

/// Writes a line to the sink, piece by piece. `AllocError`: memory ran out for the buffer, and
/// nothing is written.
fn put_line<S: Sink>(
    alloc: Global,
    sink: &mut S,
    line: LongLine<'_>,
) -> Result<Result<(), Failed>, AllocError>
    ensures put { IfOk result (λ put. Puts put
        (writer_of S.Sink sink.old) (writer_of S.Sink sink.new) (long_line line.entry)) }
    ensures none { IfErr result (λ _. sink.new ≡ sink.old) }
{
    let mut held = Vec::with_capacity(alloc, PIECE)?;
    let mut stream = Stream {
        sink,
        held: &mut held,
        failed: false,
    };
    line.put(&mut stream);
    stream.pass_on();
    if stream.failed {
        Ok(Err(Failed))
    } else {
        Ok(Ok(()))
    }
}

/// Writes a line to the sink, or makes the reply line an error if it is too long.
pub(crate) fn place_line<S: Sink>(
    alloc: Global,
    limits: &Limits,
    line: LongLine<'_>,
    reply: &mut ReplyLine,
    sink: &mut S,
) -> Result<Placed, AllocError>
    ensures { PlacesOn S.Sink result reply.new sink.old sink.new
        (λ text. text ≡ limited_line limits.now.reply_bytes (long_line line.entry)) }
{
    if line.is_above(limits.reply_bytes) {
        tell_line_error(alloc, LineError::ReplyTooLong, reply)?;
        return Ok(Placed::Held);
    }
    Ok(Placed::Put(put_line(alloc, sink, line)?))
}
