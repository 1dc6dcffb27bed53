//! Output that is printed piece by piece, with the characters escaped that a terminal acts on.
ghost use Rattle.std.specs.Prelude.{⊤};

use crate::console::{Console, is_control, is_escaped_in_json};
use rb_json::Outlet;
use std::io;
use std::io::{BufWriter, Write};

/// Says which characters of an output are escaped, such as `\u009b`.
#[derive(Clone, Copy, PartialEq, Eq)]
pub enum Escapes {
    /// None: the output is no terminal.
    Nothing,
    /// Those that each whole bundle as JSON has escaped, on a terminal or not.
    Json,
    /// All on which a terminal acts, except line feeds and tabs.
    Terminal,
}

impl Escapes {
    /// Checks whether a character is escaped.
    fn has(self, c: char) -> bool {
        match self {
            Escapes::Nothing => false,
            Escapes::Json => is_control(c) && is_escaped_in_json(c),
            Escapes::Terminal => is_control(c) && c != '\n' && c != '\t',
        }
    }

    /// Returns the first character of some bytes and its length, if it is escaped. None of those has
    /// four bytes.
    fn first(self, bytes: &[u8]) -> Option<(char, usize)> {
        let (code, len) = match bytes {
            [first, ..] if *first < 0x80 => (u32::from(*first), 1),
            [first @ 0xC2..=0xDF, second @ 0x80..=0xBF, ..] => {
                (joined(u32::from(*first & 0x1F), *second), 2)
            }
            [
                first @ 0xE0..=0xEF,
                second @ 0x80..=0xBF,
                third @ 0x80..=0xBF,
                ..
            ] => { (joined(joined(u32::from(*first & 0x0F), *second), *third), 3) }
            _ => return None,
        };
        let c = char::from_u32(code)?;
        if self.has(c) { Some((c, len)) } else { None }
    }

    /// Returns the index of the first character that is escaped, itself and its length.
    fn find(self, bytes: &[u8]) -> Option<(usize, char, usize)> {
        for (at, byte) in bytes.iter().enumerate() {
            if 0x20 <= *byte && *byte < 0x7F {
                continue;
            }
            if let Some((c, len)) = self.first(bytes.get(at..)?) {
                return Some((at, c, len));
            }
        }
        None
    }

    /// Writes whole characters.
    fn write<W: Write>(self, out: &mut W, bytes: &[u8]) -> io::Result<()> {
        let mut rest = bytes;
        for _ in 0..bytes.len() {
            let Some((at, c, len)) = self.find(rest) else {
                break;
            };
            out.write_all(rest.get(..at).unwrap_or(b""))?;
            let code = u32::from(c);
            write!(out, "\\u{code:04x}")?;
            rest = rest.get(at.saturating_add(len)..).unwrap_or(b"");
        }
        out.write_all(rest)
    }
}

/// Appends the bits of a character's further byte to those before it.
fn joined(bits: u32, further: u8) -> u32 {
    (bits << 6) | u32::from(further & 0x3F)
}

/// Checks whether bytes are the beginning of a character of two or three bytes, and not all of it.
fn is_cut(bytes: &[u8]) -> bool {
    matches!(bytes, [0xC2..=0xEF] | [0xE0..=0xEF, 0x80..=0xBF])
}

/// Splits bytes before a character that is cut at their end.
fn split_cut(bytes: &[u8]) -> (&[u8], &[u8]) {
    for len in [2, 1] {
        let at = bytes.len().saturating_sub(len);
        let (whole, cut) = bytes.split_at(at);
        if is_cut(cut) {
            return (whole, cut);
        }
    }
    (bytes, b"")
}

/// The beginning of a character that a piece ended in.
#[derive(Clone, Copy)]
struct Beginning {
    bytes: [u8; 3],
    len: usize,
}

impl Beginning {
    const NONE: Beginning = Beginning {
        bytes: [0; 3],
        len: 0,
    };

    fn as_slice(&self) -> &[u8] {
        self.bytes.get(..self.len).unwrap_or(&self.bytes)
    }

    fn push(&mut self, byte: u8) {
        if let Some(next) = self.bytes.get_mut(self.len) {
            *next = byte;
            self.len = self.len.saturating_add(1);
        }
    }
}

/// Writes to another writer, and escapes what is asked for. A piece may end inside a character.
#[derive(Drop)]
pub struct EscapingWriter<W: Write + Drop> {
    inner: W,
    escapes: Escapes,
    cut: Beginning,
}

impl<W: Write + Drop> EscapingWriter<W> {
    pub fn new(inner: W, escapes: Escapes) -> Self {
        EscapingWriter {
            inner,
            escapes,
            cut: Beginning::NONE,
        }
    }

    /// Writes the character that the piece before was cut in, and returns how many bytes of this
    /// piece it has.
    fn end_cut(&mut self, bytes: &[u8]) -> io::Result<usize> {
        for (i, byte) in bytes.iter().enumerate() {
            if self.cut.len == 0 {
                return Ok(i);
            }
            self.cut.push(*byte);
            if !is_cut(self.cut.as_slice()) {
                let cut = self.cut;
                self.cut = Beginning::NONE;
                self.escapes.write(&mut self.inner, cut.as_slice())?;
            }
        }
        Ok(bytes.len())
    }

    /// Writes a piece.
    fn write_piece(&mut self, bytes: &[u8]) -> io::Result<()> {
        let begun = self.end_cut(bytes)?;
        let (whole, cut) = split_cut(bytes.get(begun..).unwrap_or(b""));
        for byte in cut {
            self.cut.push(*byte);
        }
        self.escapes.write(&mut self.inner, whole)
    }
}

impl<W: Write + Drop> Write for EscapingWriter<W> {
    fn write(&mut self, bytes: &[u8]) -> io::Result<usize> {
        if self.escapes == Escapes::Nothing {
            return self.inner.write(bytes);
        }
        self.write_piece(bytes)?;
        Ok(bytes.len())
    }

    fn flush(&mut self) -> io::Result<()> {
        let cut = self.cut;
        self.cut = Beginning::NONE;
        self.inner.write_all(cut.as_slice())?;
        self.inner.flush()
    }
}

/// Prints bytes to standard output. On a terminal, characters on which it acts are escaped.
pub fn print_bytes<R: Print>(rt: &R, console: Console, bytes: &[u8]) -> io::Result<()> {
    if !console.is_output_terminal {
        return rt.write_all(bytes);
    }
    let mut out = EscapingWriter::new(io::writer(rt), Escapes::Terminal);
    out.write_all(bytes)?;
    out.flush()
}

/// Prints what it takes. After a call of the writer has failed, the remaining bytes are dropped. No
/// contract speaks of what a device takes, so that it is printed is tested.
#[derive(Drop)]
pub struct Printing<W: Write + Drop> {
    writer: EscapingWriter<BufWriter<W>>,
    failed: Option<io::ErrorKind>,
}

impl<W: Write + Drop> Printing<W> {
    pub fn new(writer: BufWriter<W>, escapes: Escapes) -> Self {
        Printing {
            writer: EscapingWriter::new(writer, escapes),
            failed: None,
        }
    }

    /// Checks whether a call of the writer has failed.
    pub fn has_failed(&self) -> bool {
        self.failed.is_some()
    }

    /// Ends the line and flushes it. Fails if a call of the writer has failed.
    pub fn end_line(&mut self) -> io::Result<()> {
        self.put(b"\n");
        self.end()
    }

    /// Flushes what was taken. Fails if a call of the writer has failed.
    pub fn end(&mut self) -> io::Result<()> {
        match self.failed {
            Some(kind) => Err(io::Error::from(kind)),
            None => self.writer.flush(),
        }
    }
}

impl<W: Write + Drop> Outlet for Printing<W> {
    ghost takes = { λ _ _ _. ⊤ };

    ghost nothing = { λ _. tt };

    ghost joined = { λ _ _ _ _ _ _ _. tt };

    fn put(&mut self, bytes: &[u8]) {
        if self.failed.is_some() {
            return;
        }
        if let Err(error) = self.writer.write_all(bytes) {
            self.failed = Some(error.kind());
        }
    }

    fn skips(&mut self, _least: u64) -> bool {
        self.failed.is_some()
    }
}
