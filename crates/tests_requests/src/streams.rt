use crate::lines::empty_engine;
use rb_replies::ReplyLine;
use rb_requests::{
    Engine, Limits, Payload, ReadFeed, Reply, Request, ServeFault, WriteSink, serve_limited,
};
use rb_tree::ByteList;
use std::alloc::{AllocError, Global};
use std::io;
use std::io::{ErrorKind, Write};

/// The most bytes of a piece.
const PIECE: usize = 65_536;

/// A writer that takes whole pieces, up to the one that fails.
#[derive(Drop)]
struct Pieces {
    bytes: Vec<u8>,
    largest: usize,
    left: usize,
}

impl Pieces {
    /// Returns a writer that takes this many pieces.
    fn new(alloc: Global, left: usize) -> Pieces {
        Pieces {
            bytes: Vec::new(alloc),
            largest: 0,
            left,
        }
    }
}

impl Write for Pieces {
    fn write(&mut self, buf: &[u8]) -> io::Result<usize> {
        if self.left == 0 {
            return Err(io::Error::from(ErrorKind::BrokenPipe));
        }
        self.left = self.left.saturating_sub(1);
        self.largest = self.largest.max(buf.len());
        match self.bytes.extend_from_slice(buf) {
            Ok(()) => Ok(buf.len()),
            Err(_) => Err(io::Error::from(ErrorKind::OutOfMemory)),
        }
    }

    fn flush(&mut self) -> io::Result<()> {
        Ok(())
    }
}

/// Bundles with one long item, of each kind that can be long: the path of the item, the text before
/// its parts, a part, the number of parts, and the text after them.
const ITEMS: &str = r#"s|de{s{"|Hallo, Welt |20000|"}}
s|de{s{"|a\"b\\c\nd\u0001e|20000|"}}
s|de{s{"|\u00e4\u20ac\U0001F600x|20000|"}}
s|de{s{"|ab\uD800 |20000|"}}
v|de{v:intvector{|2147483647,-1,0,|10000|7}}
b|de{b:bin{|00ff7a|30000|}}
s|de{s{"|x|10001|"}}"#;

/// Returns the path of a row's item, and the text of its bundle.
fn text_of<'a>(alloc: Global, row: &'a str) -> Option<(&'a str, Vec<u8>)> {
    let mut fields = row.split('|');
    let (path, before, part) = (fields.next()?, fields.next()?, fields.next()?);
    let (count, after) = (fields.next()?, fields.next()?);
    let parts = part.repeat(alloc, count.parse().ok()?).ok()?;
    let mut text = before.as_bytes().to_vec(alloc).ok()?;
    text.extend_from_slice(parts.as_bytes()).ok()?;
    text.extend_from_slice(after.as_bytes()).ok()?;
    Some((path, text))
}

/// Returns the text of a bundle with a table of this many keys.
fn table_of(alloc: Global, keys: u32) -> Result<Vec<u8>, AllocError> {
    let mut text = "de{t{".as_bytes().to_vec(alloc)?;
    for key in 0..keys {
        let entry = format!(in alloc; "\"key\\\"{key}\"{{\"\"}}")?;
        text.extend_from_slice(entry.as_bytes())?;
    }
    text.extend_from_slice(b"}}")?;
    Ok(text)
}

fn engine_of(rt: &HostRuntime, text: Vec<u8>) -> Option<Engine> {
    let alloc = rt.alloc();
    let mut engine = empty_engine(rt)?;
    let request = Request::Install {
        app: ByteList::from_vec(b"shop".to_vec(alloc).ok()?),
        locale: ByteList::from_vec(b"de".to_vec(alloc).ok()?),
        payload: Payload::Text(ByteList::from_vec(text)),
    };
    match engine.handle(alloc, request) {
        Reply::Done => Some(engine),
        _ => None,
    }
}

/// Returns the line of the reply to a lookup.
fn whole(alloc: Global, engine: &Engine, path: &str) -> Result<ReplyLine, AllocError> {
    let mut line = ReplyLine::new(alloc);
    line.tell_look(alloc, &engine.look(b"shop", b"de", path.as_bytes()))?;
    Ok(line)
}

fn serve_look(
    alloc: Global,
    engine: &mut Engine,
    path: &str,
    most: Option<u64>,
    pieces: &mut Pieces,
) -> Result<Option<ServeFault>, AllocError> {
    let line = format!(in alloc;
        "{{\"op\":\"look\",\"app\":\"shop\",\"locale\":\"de\",\"path\":\"{path}\"}}\n"
    )?;
    let limits = Limits {
        reply_bytes: most,
        ..Limits::NONE
    };
    let mut feed = ReadFeed::new(line.as_bytes());
    let mut sink = WriteSink::new(pieces);
    Ok(serve_limited(alloc, engine, &limits, &mut feed, &mut sink, 9).err())
}

/// Checks whether a lookup within a limit gets its reply in pieces of at most `PIECE` bytes.
fn is_whole(
    alloc: Global,
    engine: &mut Engine,
    path: &str,
    most: Option<u64>,
    wanted: &[u8],
) -> bool {
    let mut pieces = Pieces::new(alloc, usize::MAX);
    let ended = serve_look(alloc, engine, path, most, &mut pieces);
    matches!(ended, Ok(None)) && pieces.bytes.as_slice() == wanted && pieces.largest <= PIECE
}

const TOO_LONG: &[u8] = b"{\"error\":\"ReplyTooLong\"}\n";

/// Checks a reply at limits that it keeps and at one that it exceeds, and at a writer that fails
/// after each number of pieces.
fn is_streamed_to(alloc: Global, engine: &mut Engine, path: &str, line: &[u8]) -> bool {
    let len = line.len() as u64;
    is_whole(alloc, engine, path, None, line)
        && is_whole(alloc, engine, path, Some(len), line)
        && is_whole(alloc, engine, path, Some(u64::MAX), line)
        && is_whole(alloc, engine, path, Some(len.saturating_sub(1)), TOO_LONG)
        && breaks_off_at_each(alloc, engine, path, line)
}

/// Installs a bundle, and checks the reply to a lookup of its long item.
fn is_streamed(rt: &HostRuntime, text: Vec<u8>, path: &str) -> bool {
    let Some(mut engine) = engine_of(rt, text) else {
        return false;
    };
    match whole(rt.alloc(), &engine, path) {
        Ok(line) => is_streamed_to(rt.alloc(), &mut engine, path, line.as_bytes()),
        Err(_) => false,
    }
}

/// Checks whether a writer that takes some pieces and then fails has the start of a reply.
fn breaks_off(alloc: Global, engine: &mut Engine, path: &str, line: &[u8], taken: usize) -> bool {
    let mut pieces = Pieces::new(alloc, taken);
    let ended = serve_look(alloc, engine, path, None, &mut pieces);
    matches!(ended, Ok(Some(ServeFault::Write)))
        && line.starts_with(pieces.bytes.as_slice())
        && pieces.bytes.len() != line.len()
}

fn breaks_off_at_each(alloc: Global, engine: &mut Engine, path: &str, line: &[u8]) -> bool {
    for taken in 0..line.len() / PIECE + 1 {
        if !breaks_off(alloc, engine, path, line, taken) {
            return false;
        }
    }
    true
}

fn is_item_streamed(rt: &HostRuntime, row: &str) -> bool {
    match text_of(rt.alloc(), row) {
        Some((path, text)) => is_streamed(rt, text, path),
        None => false,
    }
}

fn are_items_streamed(rt: &HostRuntime) -> bool {
    for row in ITEMS.lines() {
        if !is_item_streamed(rt, row) {
            return false;
        }
    }
    true
}

#[test]
fn puts_long_items_piece_by_piece(rt: HostRuntime) {
    assert!(rt; are_items_streamed(&rt));
}

fn is_table_streamed(rt: &HostRuntime, keys: u32) -> bool {
    match table_of(rt.alloc(), keys) {
        Ok(text) => is_streamed(rt, text, "t"),
        Err(_) => false,
    }
}

#[test]
fn puts_long_tables_piece_by_piece(rt: HostRuntime) {
    assert!(rt; is_table_streamed(&rt, 2_000) && is_table_streamed(&rt, 20_000));
}
