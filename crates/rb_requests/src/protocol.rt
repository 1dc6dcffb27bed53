ghost use Rattle.std.specs.Prelude.{IfErr};
ghost use Rattle.rb_requests.specs.inner.Placing.{PlacesOn};
ghost use Rattle.rb_requests.specs.inner.Protocols.{ReadBy};
ghost use Rattle.rb_requests.specs.inner.Starving.{LeavesOf};

use crate::answer::{Placed, Starved, answer_texts, tell_line_error};
use crate::device::Sink;
use crate::extended::answer_members;
use crate::extended_texts::ExtendedTexts;
use crate::limits::Limits;
use crate::member_store::read_object;
use crate::texts::Texts;
use crate::words::LineError;
use json::Scratch;
use rb_engine::Engine;
use rb_replies::ReplyLine;
use std::alloc::Global;

/// The requests that lines may have.
#[derive(Clone, Copy)]
pub(crate) enum Protocol {
    Plain,
    /// Extended requests too.
    Extended,
}

impl Protocol {
    /// Makes the line that answers a line, or writes it to the sink. The scratch may grow to the
    /// line's length.
    pub(crate) fn reply_of<S: Sink>(
        self,
        alloc: Global,
        engine: &mut Engine,
        limits: &Limits,
        scratch: &mut Scratch,
        line: &[u8],
        reply: &mut ReplyLine,
        sink: &mut S,
    ) -> Result<Placed, Starved>
        ensures reply { PlacesOn S.Sink result reply.new sink.old sink.new
            (λ text. ReadBy self limits.now engine.old line.now text engine.new) }
        ensures fault { IfErr result (λ s.
            LeavesOf (ReadBy self limits.now engine.old line.now) s engine.old engine.new) }
    {
        match self {
            Protocol::Plain => {
                let mut texts = Texts::none();
                if read_object(alloc, line, scratch, &mut texts)? {
                    return answer_texts(alloc, engine, limits, &texts, reply, sink);
                }
            }
            Protocol::Extended => {
                let mut members = ExtendedTexts::none();
                if read_object(alloc, line, scratch, &mut members)? {
                    return answer_members(alloc, engine, limits, &members, reply, sink);
                }
            }
        }
        tell_line_error(alloc, LineError::BadLine, reply)?;
        Ok(Placed::Held)
    }
}
