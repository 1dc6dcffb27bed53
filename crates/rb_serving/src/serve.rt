//! `resb serve`.
ghost use Rattle.std.specs.Prelude.{◌≡◌, IfOk};
ghost use Rattle.rb_engine.specs.Kept.{state_of};
ghost use Rattle.rb_console.specs.Starting.{HasParentsFor};
ghost use Rattle.rb_serving.specs.inner.Serving.{AreLimits};

use crate::batching_writer::{BatchingWriter, LookaheadFeed};
use crate::server::Server;
use crate::start::start_engine;
use rb_arguments::{Asked, AskedLimits, AskedServe};
use rb_console::{Console, EscapingWriter, StartError, not_started_on};
use rb_engine::Engine;
use rb_requests::{Limits, ServeFault, WriteSink};
use rb_running::{Commands, lacking};
use std::alloc::Global;
use std::cell::Cell;
use std::io;
use std::io::{BufReader, BufWriter, Write};
use std::process::ExitCode;
use std::random::RandomSource;
use std::rt::{Clock, Env, Files};

/// Flushes the replies that are still buffered when serving ends early. If that fails, the error
/// is `Write`.
fn flush_after<W: Write + Drop>(
    writer: &mut BatchingWriter<'_, W>,
    fault: ServeFault,
) -> ServeFault {
    if fault == ServeFault::Write || writer.flush_now().is_ok() {
        fault
    } else {
        ServeFault::Write
    }
}

/// Serves standard input, each side behind a buffer. The writer's buffer is flushed once the
/// reader's has no further whole line. On a terminal, control characters are escaped.
fn serve_buffered<R: Input + Print + AllocGlobal>(
    rt: &R,
    console: Console,
    server: &mut Server,
    is_extended: bool,
) -> io::Result<Result<(), ServeFault>> {
    let alloc = rt.alloc();
    let has_next_line = Cell::new(false);
    let reader = BufReader::new(alloc, rt.reader())?;
    let mut feed = LookaheadFeed::new(reader, &has_next_line);
    let buffer = BufWriter::new(alloc, io::writer(rt))?;
    let writer = EscapingWriter::new(buffer, console.escapes());
    let mut writer = BatchingWriter::new(writer, &has_next_line);
    let mut sink = WriteSink::new(&mut writer);
    let served = if is_extended {
        server.serve_extended(alloc, &mut feed, &mut sink)
    } else {
        server.serve(alloc, &mut feed, &mut sink)
    };
    match served {
        Ok(_) => Ok(Ok(())),
        Err(fault) => Ok(Err(flush_after(&mut writer, fault))),
    }
}

/// Answers the lines of standard input. The status is 0 once the input is read, and else 1, with
/// the fault's name on standard error; `Memory` also if there is none for the buffers.
fn serve_lines<R: Input + Print + Eprint + AllocGlobal>(
    rt: &R,
    console: Console,
    server: &mut Server,
    is_extended: bool,
) -> ExitCode {
    let fault = match serve_buffered(rt, console, server, is_extended) {
        Ok(Ok(())) => return ExitCode::SUCCESS,
        Ok(Err(fault)) => fault,
        Err(_) => ServeFault::Memory,
    };
    let word = fault.word();
    let hint = console.hint(word);
    let _ = eprintln!(rt; "{word}{hint}");
    ExitCode::from(1)
}

/// The number of locales that a server keeps open, in 1 MB.
const KEPT_LOCALES: usize = 2_048;

/// The number of places that a server keeps, in 1.7 MB.
const KEPT_ITEMS: usize = 4_096;

/// The number of hints that a server keeps, in 3 MB.
const KEPT_HINTS: usize = 262_144;

/// Returns the limits that the options give, or `None` if there are none.
fn limits_of(asked: AskedLimits) -> Option<Limits>
    ensures { AreLimits asked result }
{
    if asked == AskedLimits::none() {
        return None;
    }
    Some(Limits {
        bundle_bytes: asked.bundle_bytes,
        app_bytes: asked.app_bytes,
        apps: asked.apps,
        steps: asked.steps,
        line_bytes: asked.line_bytes,
        reply_bytes: asked.reply_bytes,
        keep_serving: asked.keep_serving,
    })
}

/// Makes room for what an engine keeps to save time. Without memory for it lookups are slower and
/// give the same answers.
fn make_room(alloc: Global, engine: &mut Engine)
    ensures { engine.new ≡ engine.old }
{
    let _ = engine.keep_locales(alloc, KEPT_LOCALES);
    let _ = engine.keep_items(alloc, KEPT_ITEMS);
    let _ = engine.keep_hints(alloc, KEPT_HINTS);
}

/// Starts the server.
fn start_server<'a, R: Files + RandomSource + AllocGlobal>(
    rt: &R,
    serving: &AskedServe<'a>,
) -> Result<Server, StartError<'a>>
    ensures limits { IfOk result (λ server. AreLimits serving.now.limits server.limits) }
    ensures parents { IfOk result
        (λ server. HasParentsFor serving.now.parents (state_of server.engine).start.parents) }
{
    let mut engine = start_engine(rt, serving.parents, &serving.bundles)?;
    make_room(rt.alloc(), &mut engine);
    Ok(Server {
        engine,
        limits: limits_of(serving.limits),
    })
}

/// Answers the lines of standard input on standard output, with the explicit parents `parents`
/// and with `bundles` as ICUDATA, each a `LOCALE=FILE` that is split at
/// its first `=`. A file whose name ends in `.txt` is bundle text, any other a `.res` file.
///
/// The status is 0 once the input is read. It is 2 for an argument that isn't `LOCALE=FILE`, a file
/// that can't be read, and a runtime without random numbers; 1 if a file is refused, with its
/// error's name, out of memory, and if serving ends early, with the name of the error. Each is a
/// line on standard error. All arguments are split before a file is read, and the parents are
/// judged before another file is read. With limits, requests for an application's usage are also
/// answered.
fn serve_files<R: Files + RandomSource + Input + Print + Eprint + AllocGlobal>(
    rt: &R,
    console: Console,
    serving: &AskedServe<'_>,
) -> ExitCode {
    match start_server(rt, serving) {
        Ok(mut server) => serve_lines(rt, console, &mut server, serving.is_extended),
        Err(error) => not_started_on(rt, console, error),
    }
}

/// The command `serve`.
pub struct Serving;

impl Commands for Serving {
    fn run<R>(&self, rt: &R, console: Console, asked: Asked<'_>) -> ExitCode
    where
        R: Files + RandomSource + Clock + AllocGlobal + Input + Print + Eprint + Env + Clone + Drop,
    {
        match asked {
            Asked::Serve(asked) => serve_files(rt, console, &asked),
            _ => lacking(rt),
        }
    }
}
