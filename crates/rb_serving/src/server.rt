//! A server: an engine, and the limits under which it answers lines.
ghost use Rattle.std.specs.Prelude.{◌≡◌, ◌≤◌, IfErr, IfOk};
ghost use Rattle.rb_requests.specs.Device.{risen_by};
ghost use Rattle.rb_requests.specs.Served.{AfterFaultWithin, AnswersWithin, at};
ghost use Rattle.rb_requests.specs.Served.{reads_failed, writes_failed};
ghost use Rattle.rb_requests.specs.ExtendedReply.{ExtendedWithin};
ghost use Rattle.rb_requests.specs.Within.{longest_read};
ghost use Rattle.rb_serving.specs.inner.Limits.{most_lines};
ghost use Rattle.rb_serving.specs.inner.Serving.{AfterFaultUnder, AnswersUnder, limits_of};

use rb_requests::{
    Engine, Feed, Limits, ServeFault, Served, Sink, serve, serve_extended, serve_limited,
};
use std::alloc::Global;

/// The most lines of one run.
const MAX_LINES: u64 = 1_099_511_627_776;

/// A server: its engine, and its limits, if it has any.
#[derive(Drop)]
pub struct Server {
    pub engine: Engine,
    pub limits: Option<Limits>,
}

impl Server {
    /// Answers the lines of an input, at most `MAX_LINES`, under the limits if there are any.
    pub fn serve<F: Feed, S: Sink>(
        &mut self,
        alloc: Global,
        feed: &mut F,
        sink: &mut S,
    ) -> Result<Served, ServeFault>
        ensures all { IfOk result (λ served. AnswersUnder self.old.limits
            (at self.old.engine (F.left feed.old) (S.written sink.old) (S.settled sink.old))
            (at self.new.engine (F.left feed.new) (S.written sink.new) (S.settled sink.new))
            served.lines) }
        ensures most { IfOk result (λ served. served.lines ≤ most_lines) }
        ensures settled { IfOk result
            (λ served. S.settled sink.new ≡ risen_by (S.settled sink.old) served.lines) }
        ensures fault { IfErr result (λ fault. AfterFaultUnder self.old.limits fault
            (at self.old.engine (F.left feed.old) (S.written sink.old) (S.settled sink.old))
            (at self.new.engine (F.left feed.new) (S.written sink.new) (S.settled sink.new))) }
        ensures reads { F.faults feed.new ≡ reads_failed (F.faults feed.old) result }
        ensures writes { S.faults sink.new ≡ writes_failed (S.faults sink.old) result }
        ensures limits { self.new.limits ≡ self.old.limits }
    {
        let engine = &mut self.engine;
        match self.limits {
            None => serve(alloc, engine, feed, sink, MAX_LINES),
            Some(limits) => serve_limited(alloc, engine, &limits, feed, sink, MAX_LINES),
        }
    }

    /// Answers the lines of an input like `serve`, and extended requests too.
    pub fn serve_extended<F: Feed, S: Sink>(
        &mut self,
        alloc: Global,
        feed: &mut F,
        sink: &mut S,
    ) -> Result<Served, ServeFault>
        ensures all { IfOk result (λ served. AnswersWithin
            (ExtendedWithin (limits_of self.old.limits)) (longest_read (limits_of self.old.limits))
            (at self.old.engine (F.left feed.old) (S.written sink.old) (S.settled sink.old))
            (at self.new.engine (F.left feed.new) (S.written sink.new) (S.settled sink.new))
            served.lines) }
        ensures most { IfOk result (λ served. served.lines ≤ most_lines) }
        ensures settled { IfOk result
            (λ served. S.settled sink.new ≡ risen_by (S.settled sink.old) served.lines) }
        ensures fault { IfErr result (λ fault. AfterFaultWithin
            (ExtendedWithin (limits_of self.old.limits)) (longest_read (limits_of self.old.limits)) fault
            (at self.old.engine (F.left feed.old) (S.written sink.old) (S.settled sink.old))
            (at self.new.engine (F.left feed.new) (S.written sink.new) (S.settled sink.new))
            most_lines) }
        ensures reads { F.faults feed.new ≡ reads_failed (F.faults feed.old) result }
        ensures writes { S.faults sink.new ≡ writes_failed (S.faults sink.old) result }
        ensures limits { self.new.limits ≡ self.old.limits }
    {
        let limits = self.limits.unwrap_or(Limits::NONE);
        serve_extended(alloc, &mut self.engine, &limits, feed, sink, MAX_LINES)
    }
}
