ghost use Rattle.std.specs.Prelude.{◌≡◌, [], IfErr, IfOk, Some};
ghost use Rattle.rb_engine.specs.Answer.{Finds};
ghost use Rattle.rb_fallback.specs.Answers.{hit_of};
ghost use Rattle.rb_replies.specs.Replied.{reply_line};
ghost use Rattle.rb_views.specs.Seen.{tree_seen};
ghost use Rattle.rb_requests.specs.inner.Putting.{Passes, Puts, writer_of};
ghost use Rattle.rb_requests.specs.inner.Streaming.{Holds, Takes};

use crate::device::{Failed, Sink};
use crate::lines::{PIECE, put_all};
use rb_fallback::Found;
use rb_json::Outlet;
use rb_replies::{ReplyLine, put_found_line};
use rb_views::Item;
use std::alloc::{AllocError, Global};

/// The initial capacity of a reply's buffer, in bytes: more than most need, so it rarely grows.
const FIRST: usize = 256;

/// Writes bytes, unless a call of the sink has failed. Returns true if one has.
fn pass<S: Sink>(sink: &mut S, failed: bool, bytes: &[u8]) -> bool
    ensures { Passes failed (writer_of S.Sink sink.old)
        result (writer_of S.Sink sink.new) bytes.now }
{
    if failed {
        return true;
    }
    match put_all(sink, bytes) {
        Ok(()) => false,
        Err(Failed) => true,
    }
}

/// A buffered text that is written to a sink. After a call of the sink has failed, the remaining
/// bytes are dropped.
#[derive(Drop)]
pub(crate) struct Stream<'a, S: Sink> {
    pub(crate) sink: &'a mut S,
    pub(crate) held: &'a mut Vec<u8>,
    pub(crate) failed: bool,
}

impl<'a, S: Sink> Stream<'a, S> {
    /// Stores bytes, if the buffer has the capacity.
    fn hold(&mut self, bytes: &[u8]) -> bool
        ensures same { (self.new.sink.ghost_name ≡ self.old.sink.ghost_name)
            × (self.new.held.ghost_name ≡ self.old.held.ghost_name) }
        ensures sink { self.new.sink.now ≡ self.old.sink.now }
        ensures failed { self.new.failed ≡ self.old.failed }
        ensures held { Holds result self.old.held.now.items self.new.held.now.items bytes.now }
    {
        let room = PIECE.saturating_sub(self.held.len());
        if room < bytes.len() {
            return false;
        }
        match self.held.extend_from_slice(bytes) {
            Ok(()) => true,
            Err(_) => false,
        }
    }

    /// Stores bytes, if the buffer needn't grow for them.
    #[inline(always)]
    fn hold_in_place(&mut self, bytes: &[u8]) -> bool
        ensures same { (self.new.sink.ghost_name ≡ self.old.sink.ghost_name)
            × (self.new.held.ghost_name ≡ self.old.held.ghost_name) }
        ensures sink { self.new.sink.now ≡ self.old.sink.now }
        ensures failed { self.new.failed ≡ self.old.failed }
        ensures held { Holds result self.old.held.now.items self.new.held.now.items bytes.now }
    {
        let most = PIECE.min(self.held.capacity());
        let room = most.saturating_sub(self.held.len());
        if room < bytes.len() {
            return false;
        }
        match self.held.extend_from_slice(bytes) {
            Ok(()) => true,
            Err(_) => false,
        }
    }

    /// Stores bytes in a buffer that may grow, or passes on what is stored, and writes bytes that
    /// the buffer doesn't take.
    #[inline(never)]
    fn put_grown(&mut self, bytes: &[u8])
        ensures same { (self.new.sink.ghost_name ≡ self.old.sink.ghost_name)
            × (self.new.held.ghost_name ≡ self.old.held.ghost_name) }
        ensures takes { Takes self.old.failed (writer_of S.Sink self.old.sink.now)
            self.old.held.now.items self.new.failed (writer_of S.Sink self.new.sink.now)
            self.new.held.now.items bytes.now }
    {
        if self.hold(bytes) {
            return;
        }
        self.pass_on();
        if self.hold(bytes) {
            return;
        }
        self.failed = pass(self.sink, self.failed, bytes);
    }

    pub(crate) fn pass_on(&mut self)
        ensures same { (self.new.sink.ghost_name ≡ self.old.sink.ghost_name)
            × (self.new.held.ghost_name ≡ self.old.held.ghost_name) }
        ensures takes { Takes self.old.failed (writer_of S.Sink self.old.sink.now)
            self.old.held.now.items self.new.failed (writer_of S.Sink self.new.sink.now)
            self.new.held.now.items [] }
        ensures empty { self.new.held.now.items ≡ [] }
    {
        self.failed = pass(self.sink, self.failed, self.held);
        self.held.clear();
    }
}

impl<'a, S: Sink> Outlet for Stream<'a, S> {
    ghost use Rattle.std.specs.Prelude.{refl};
    ghost use Rattle.std.proofs.Common.{◌∙◌};
    ghost use Rattle.rb_requests.specs.inner.Streaming.{takes_joined, takes_nothing};

    ghost takes = { λ old new bytes. (new.sink.ghost_name ≡ old.sink.ghost_name)
        × (new.held.ghost_name ≡ old.held.ghost_name)
        × Takes old.failed (writer_of S.Sink old.sink.now) old.held.now.items
        new.failed (writer_of S.Sink new.sink.now) new.held.now.items bytes };

    ghost nothing = { λ x. (
      refl,
      refl,
      takes_nothing x.failed (writer_of S.Sink x.sink.now) x.held.now.items,
    ) };

    ghost joined = { λ x y z a b h k. (
      k.0 ∙ h.0,
      k.1 ∙ h.1,
      takes_joined
          x.failed (writer_of S.Sink x.sink.now) x.held.now.items
          y.failed (writer_of S.Sink y.sink.now) y.held.now.items
          z.failed (writer_of S.Sink z.sink.now) z.held.now.items
          a b h.2 k.2,
    ) };

    #[inline(always)]
    fn put(&mut self, bytes: &[u8]) {
        if self.hold_in_place(bytes) {
            return;
        }
        self.put_grown(bytes)
    }

    fn skips(&mut self, _least: u64) -> bool {
        false
    }
}

/// Writes the line of the reply to a lookup that found an item, piece by piece. `AllocError`:
/// memory ran out for the buffer, and nothing is written.
pub(crate) fn put_found<S: Sink>(
    alloc: Global,
    sink: &mut S,
    found: &Found<Item<'_>>,
    reply: &mut ReplyLine,
) -> Result<Result<(), Failed>, AllocError>
    ensures put { IfOk result (λ put. Puts put
        (writer_of S.Sink sink.old) (writer_of S.Sink sink.new)
        (reply_line (Some (Finds (hit_of tree_seen found.now) found.now.valid)))) }
    ensures none { IfErr result (λ _. sink.new ≡ sink.old) }
{
    let mut held = reply.take_memory(alloc);
    held.reserve(FIRST)?;
    let mut stream = Stream {
        sink,
        held: &mut held,
        failed: false,
    };
    put_found_line(&mut stream, found);
    stream.pass_on();
    let failed = stream.failed;
    reply.keep_memory(held);
    if failed { Ok(Err(Failed)) } else { Ok(Ok(())) }
}
