use crate::devices::{Endless, Full, SlowReader, SlowWriter, Stuck};
use crate::lines::empty_engine;
use rb_requests::{Engine, ReadFeed, ServeFault, WriteSink, serve};
use std::alloc::Global;
use std::test::Fail;

const RUN: &[u8] = b"\
{\"op\":\"install\",\"app\":\"shop\",\"locale\":\"de\",\"text\":\"de{menu{close{\\\"C\\\"}}}\"}
{\"op\":\"install\",\"app\":\"shop\",\"locale\":\"de-at\",\"text\":\"de_AT{menu{open{\\\"O\\\"}}}\"}
{\"op\":\"look\",\"app\":\"shop\",\"locale\":\"de_AT\",\"path\":\"menu/close\"}
{\"op\":\"look\",\"app\":\"bank\",\"locale\":\"de_AT\",\"path\":\"menu/close\"}
{\"op\":\"list\",\"app\":\"shop\"}
{\"op\":\"remove\",\"app\":\"shop\",\"locale\":\"fr\"}
nonsense
";

const REPLIES: &[u8] = b"\
{\"ok\":true}
{\"ok\":true}
{\"actual\":\"de\",\"type\":\"string\",\"valid\":\"de_AT\",\"value\":\"C\"}
{\"error\":\"NoBundle\"}
{\"names\":[\"de\",\"de_AT\"]}
{\"error\":\"Absent\"}
{\"error\":\"BadLine\"}
";

/// More calls than the run has.
const NEVER: usize = 100_000;

fn feeds(bytes: &[u8]) -> usize {
    let mut count = 0usize;
    for byte in bytes {
        if *byte == b'\n' {
            count = count.saturating_add(1);
        }
    }
    count
}

/// Checks whether these are the first replies, each of them whole.
fn are_whole(replies: &[u8]) -> bool {
    REPLIES.starts_with(replies) && (replies.is_empty() || replies.ends_with(b"\n"))
}

/// Serves the stored run with a call of the reader that fails, and returns the fault.
fn ended(
    alloc: Global,
    engine: &mut Engine,
    failing: usize,
    writer: &mut SlowWriter,
) -> Option<ServeFault> {
    let mut feed = ReadFeed::new(SlowReader::new(RUN, failing));
    serve(alloc, engine, &mut feed, &mut WriteSink::new(writer), 9).err()
}

/// Checks whether exactly the lines are answered that end before a call of the reader that fails.
fn answers_before_read(rt: &HostRuntime, failing: usize) -> Option<bool> {
    let mut writer = SlowWriter::new(NEVER);
    let fault = ended(rt.alloc(), &mut empty_engine(rt)?, failing, &mut writer);
    let before = RUN.get(..failing).unwrap_or(RUN);
    Some(
        fault == Some(ServeFault::Read)
            && are_whole(writer.written())
            && feeds(writer.written()) == feeds(before),
    )
}

/// Checks each call of the reader, of which the last one reports the end.
fn answers_before_each(rt: &HostRuntime) -> bool {
    for failing in 0..RUN.len() + 1 {
        if answers_before_read(rt, failing) != Some(true) {
            return false;
        }
    }
    true
}

#[test]
fn answers_the_lines_before_each_failed_read(rt: HostRuntime) {
    assert!(rt; answers_before_each(&rt));
}

/// Checks whether this many calls of the writer wrote these bytes. Each call takes a byte or flushes a
/// reply, and the next call may be one that flushes.
fn wrote(calls: usize, replies: &[u8]) -> bool {
    let settled = replies.len().saturating_add(feeds(replies));
    REPLIES.starts_with(replies)
        && (settled == calls || (replies.ends_with(b"\n") && settled == calls.saturating_add(1)))
}

/// Checks whether the replies up to a call of the writer that fails are written.
fn writes_before_failure(rt: &HostRuntime, failing: usize) -> Option<bool> {
    let mut writer = SlowWriter::new(failing);
    let fault = ended(rt.alloc(), &mut empty_engine(rt)?, NEVER, &mut writer);
    Some(fault == Some(ServeFault::Write) && wrote(failing, writer.written()))
}

fn writes_before_each(rt: &HostRuntime) -> bool {
    let calls = REPLIES.len().saturating_add(feeds(REPLIES));
    for failing in 0..calls {
        if writes_before_failure(rt, failing) != Some(true) {
            return false;
        }
    }
    true
}

#[test]
fn writes_a_part_before_each_failed_write(rt: HostRuntime) {
    assert!(rt; writes_before_each(&rt));
}

/// Checks whether whole replies to the first lines are written if memory runs out, and else all.
fn answers_within_memory(alloc: Global, engine: &mut Engine) -> bool {
    let mut writer = SlowWriter::new(NEVER);
    match ended(alloc, engine, NEVER, &mut writer) {
        None => writer.written() == REPLIES,
        Some(fault) => fault == ServeFault::Memory && are_whole(writer.written()),
    }
}

#[test]
fn answers_the_lines_before_memory_runs_out(rt: HostRuntime) -> Result<(), Fail> {
    let mut engine = empty_engine(&rt).ok_or("no engine")?;
    assert!(rt; answers_within_memory(rt.alloc(), &mut engine));
    Ok(())
}

/// Checks whether serving fails at a writer that takes nothing, and keeps the first bundle.
fn keeps_a_bundle(alloc: Global, engine: &mut Engine) -> bool {
    let mut feed = ReadFeed::new(RUN);
    let ended = serve(alloc, engine, &mut feed, &mut WriteSink::new(Full), 9);
    ended.err() == Some(ServeFault::Write)
        && engine.look(b"shop", b"de", b"menu").is_ok()
        && engine.look(b"shop", b"de_AT", b"menu/open").is_err()
}

#[test]
fn keeps_a_bundle_whose_reply_is_not_written(rt: HostRuntime) -> Result<(), Fail> {
    let mut engine = empty_engine(&rt).ok_or("no engine")?;
    assert!(rt; keeps_a_bundle(rt.alloc(), &mut engine));
    Ok(())
}

/// Serves the stored run to a writer that flushes nothing, and returns the fault.
fn unflushed(alloc: Global, engine: &mut Engine) -> Option<ServeFault> {
    let mut feed = ReadFeed::new(RUN);
    serve(alloc, engine, &mut feed, &mut WriteSink::new(Stuck), 9).err()
}

#[test]
fn tells_of_a_reply_that_is_not_handed_on(rt: HostRuntime) -> Result<(), Fail> {
    let mut engine = empty_engine(&rt).ok_or("no engine")?;
    assert!(rt; unflushed(rt.alloc(), &mut engine) == Some(ServeFault::Write));
    Ok(())
}

/// The replies to three lines that are no requests.
const THREE: &[u8] = b"\
{\"error\":\"BadLine\"}
{\"error\":\"BadLine\"}
{\"error\":\"BadLine\"}
";

/// Checks whether serving lines without an end stops at the third one.
fn stops_at_three(alloc: Global, engine: &mut Engine) -> bool {
    let mut writer = SlowWriter::new(NEVER);
    let mut sink = WriteSink::new(&mut writer);
    let ended = serve(alloc, engine, &mut Endless, &mut sink, 3);
    ended.err() == Some(ServeFault::LineLimit) && writer.written() == THREE
}

#[test]
fn stops_at_lines_without_an_end(rt: HostRuntime) -> Result<(), Fail> {
    let mut engine = empty_engine(&rt).ok_or("no engine")?;
    assert!(rt; stops_at_three(rt.alloc(), &mut engine));
    Ok(())
}
