//! Tests where serving lines ends. `tests/replies.sh` compares the replies to lines.
use rb_parents::Parents;
use rb_requests::{Engine, ReadFeed, ServeFault, WriteSink, serve};
use std::alloc::Global;
use std::hash::RandomState;
use std::test::Fail;

pub fn empty_engine(rt: &HostRuntime) -> Option<Engine> {
    let alloc = rt.alloc();
    let state = RandomState::new(rt).ok()?;
    Engine::start(alloc, state, Vec::new(alloc), Parents::none(alloc)).ok()
}

const BAD: &[u8] = b"{\"error\":\"BadLine\"}\n";

/// Serves an input of lines that are no requests. Checks how serving ends, and the number of replies.
fn serves(
    alloc: Global,
    engine: &mut Engine,
    (input, max_lines): (&[u8], u64),
    ended: Result<u64, ServeFault>,
    replies: usize,
) -> bool {
    let mut written: Vec<u8> = Vec::new(alloc);
    let mut feed = ReadFeed::new(input);
    let mut sink = WriteSink::new(&mut written);
    let served = serve(alloc, engine, &mut feed, &mut sink, max_lines);
    match BAD.repeat(alloc, replies) {
        Ok(wanted) => served.map(|served| served.lines) == ended && written == wanted,
        Err(_) => false,
    }
}

fn stops(alloc: Global, engine: &mut Engine) -> bool {
    serves(alloc, engine, (b"\n\n", 1), Err(ServeFault::LineLimit), 1)
        && serves(alloc, engine, (b"x", 9), Ok(1), 1)
        && serves(alloc, engine, (b"", 9), Ok(0), 0)
        && serves(alloc, engine, (b"\xFF\n", 9), Ok(1), 1)
        && serves(alloc, engine, (b"\0\n\0", 9), Ok(2), 2)
}

#[test]
fn stops_at_the_last_line(rt: HostRuntime) -> Result<(), Fail> {
    let mut engine = empty_engine(&rt).ok_or("no engine")?;
    assert!(rt; stops(rt.alloc(), &mut engine));
    Ok(())
}

#[test]
fn names_faults(rt: HostRuntime) {
    assert_eq!(rt; ServeFault::LineTooLong.word(), "LineTooLong");
}
