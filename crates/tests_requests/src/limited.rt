use crate::lines::empty_engine;
use rb_replies::{ReplyLine, found_is_above, reply_is_above};
use rb_requests::{Engine, Payload, Reply, Request};
use rb_tree::ByteList;
use std::alloc::{AllocError, Global};
use std::test::Fail;

fn bytes(alloc: Global, text: &str) -> Result<ByteList, AllocError> {
    Ok(ByteList::from_vec(text.as_bytes().to_vec(alloc)?))
}

const BUNDLE: &str = "de{s{\"Ha\\\"llo\"} t{b{\"B\"} a{\"A\"}} v:intvector{1,-2} b:bin{0aff}}";

fn engine(rt: &HostRuntime) -> Option<Engine> {
    let alloc = rt.alloc();
    let mut engine = empty_engine(rt)?;
    let request = Request::Install {
        app: bytes(alloc, "shop").ok()?,
        locale: bytes(alloc, "de").ok()?,
        payload: Payload::Text(bytes(alloc, BUNDLE).ok()?),
    };
    match engine.handle(alloc, request) {
        Reply::Done => Some(engine),
        _ => None,
    }
}

/// Writes the reply to a request, and checks whether it is above a limit. The request is
/// `look PATH`, or `list`.
fn is_above(
    alloc: Global,
    engine: &mut Engine,
    line: &mut ReplyLine,
    request: &str,
    most: Option<u64>,
) -> Result<bool, AllocError> {
    match request.strip_prefix("look ") {
        Some(path) => {
            let found = engine.look(b"shop", b"de", path.as_bytes());
            line.tell_look(alloc, &found)?;
            Ok(match &found {
                Ok(item) => found_is_above(item, most),
                Err(_) => false,
            })
        }
        None => {
            let app = bytes(alloc, "shop")?;
            let reply = engine.handle(alloc, Request::List { app });
            line.tell_reply(alloc, &reply)?;
            Ok(reply_is_above(&reply, most))
        }
    }
}

/// Requests with their replies, each of which may be limited.
const LIMITED: &str = r#"look s|{"actual":"de","type":"string","valid":"de","value":"Ha\"llo"}
look t|{"actual":"de","keys":["a","b"],"type":"table","valid":"de"}
look v|{"actual":"de","type":"intvector","valid":"de","values":[1,-2]}
look b|{"actual":"de","hex":"0aff","type":"bin","valid":"de"}
list|{"names":["de"]}"#;

/// Checks whether a request gets its whole reply within a limit.
fn is_whole(
    alloc: Global,
    engine: &mut Engine,
    request: &str,
    text: &str,
    most: Option<u64>,
) -> bool {
    let mut line = ReplyLine::new(alloc);
    match is_above(alloc, engine, &mut line, request, most) {
        Ok(false) => line.as_bytes().strip_suffix(b"\n") == Some(text.as_bytes()),
        _ => false,
    }
}

/// Checks a reply without a limit, at the limit of its length, and around it.
fn keeps_limit(alloc: Global, engine: &mut Engine, request: &str, text: &str) -> bool {
    // with the line feed
    let len = text.len() as u64 + 1;
    is_whole(alloc, engine, request, text, None)
        && is_whole(alloc, engine, request, text, Some(len + 1))
        && is_whole(alloc, engine, request, text, Some(len))
        && !is_whole(alloc, engine, request, text, Some(len - 1))
        && !is_whole(alloc, engine, request, text, Some(1))
}

fn keeps_limits(alloc: Global, engine: &mut Engine) -> bool {
    for row in LIMITED.lines() {
        let Some((request, text)) = row.split_once('|') else {
            return false;
        };
        if !keeps_limit(alloc, engine, request, text) {
            return false;
        }
    }
    true
}

#[test]
fn tells_within_a_limit(rt: HostRuntime) -> Result<(), Fail> {
    let mut engine = engine(&rt).ok_or("no engine")?;
    assert!(rt; keeps_limits(rt.alloc(), &mut engine));
    Ok(())
}

#[test]
fn tells_errors_whatever_the_limit(rt: HostRuntime) -> Result<(), Fail> {
    let mut engine = engine(&rt).ok_or("no engine")?;
    let missing = "{\"error\":\"Missing\"}";
    assert!(rt; is_whole(rt.alloc(), &mut engine, "look x", missing, Some(0)));
    Ok(())
}

#[test]
fn tells_usage(rt: HostRuntime) -> Result<(), Fail> {
    let mut line = ReplyLine::new(rt.alloc());
    line.tell_usage(rt.alloc(), 1024, 3)?;
    assert!(rt; line.as_bytes() == "{\"app_bytes\":1024,\"bundles\":3}\n".as_bytes());
    Ok(())
}
