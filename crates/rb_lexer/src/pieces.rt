//! Splits a text that may have any errors into pieces, by the lexer's white space, comments and
//! escapes.
ghost use Rattle.std.specs.Prelude.{◌≡◌, ◌<◌, ◌≤◌, ◌∷◌, [], length, false, MatchOption, IfSome};
ghost use Rattle.std.specs.Str.{chars};
ghost use Rattle.rb_lexer.specs.Lexeme.{begins_comment, quote, slash};
ghost use Rattle.rb_lexer.specs.Pieces.{IsFirstPart, IsFirstPiece, IsUpTo, Passes, closes, ends_run};

use crate::comment::{skip_block_comment, skip_line_comment};
use crate::escape::escape;
use crate::front::{split_first, strip};
use crate::unquoted::{ends_run, is_white, skip_white};

#[derive(Clone, Copy, PartialEq, Eq)]
pub enum PieceKind {
    White,
    /// A comment with its line end.
    LineComment,
    BlockComment,
    /// A block comment that is never closed.
    OpenComment,
    LeftBrace,
    RightBrace,
    Colon,
    Comma,
    Quoted,
    /// A quoted piece that is never closed.
    OpenQuote,
    /// An unquoted piece, up to a comment in it.
    Run,
}

/// A character or an escape of a quoted piece or a run.
#[derive(Clone, Copy, PartialEq, Eq)]
pub enum TextPart {
    Plain(char),
    /// The code point of an escape, or `None` if the backslash begins none.
    Escape(Option<u32>),
}

impl TextPart {
    /// Checks for the quote that closes a quoted piece.
    fn closes(self) -> bool
        ensures { result ≡ closes self [] }
    {
        match self {
            TextPart::Plain(c) => c == '"',
            TextPart::Escape(_) => false,
        }
    }

    /// Checks whether a part, given what follows it, ends a run.
    fn ends_run(self, after: &str) -> bool
        ensures { result ≡ ends_run self (chars after.now) }
    {
        match self {
            TextPart::Plain(c) => ends_run(c, after),
            TextPart::Escape(_) => false,
        }
    }
}

/// Takes the first character or escape of a text. A backslash that begins no escape is taken with
/// the character after it.
pub fn first_part(text: &str) -> Option<(TextPart, &str)>
    ensures taken { MatchOption result (chars text.now ≡ [])
        (λ x. IsFirstPart x.0 (chars text.now) (chars x.1.now)) }
    ensures shorter { IfSome result (λ x. length x.1.now < length text.now) }
{
    let (c, after) = split_first(text)?;
    if c != '\\' {
        return Some((TextPart::Plain(c), after));
    }
    if let Some((code, rest)) = escape(after) {
        return Some((TextPart::Escape(Some(code)), rest));
    }
    match split_first(after) {
        Some((_, rest)) => Some((TextPart::Escape(None), rest)),
        None => Some((TextPart::Escape(None), after)),
    }
}

/// Skips a quoted piece, from after its first quote; None if it is never closed.
fn skip_quoted(text: &str) -> Option<&str>
    ensures taken { MatchOption result (Passes closes (chars text.now) [])
        (λ rest. Passes closes (chars text.now) (quote ∷ chars rest.now)) }
    ensures no_longer { IfSome result (λ rest. length rest.now ≤ length text.now) }
{
    let mut rest = text;
    'parts: while let Some((part, after)) = first_part(rest) {
        if part.closes() {
            return Some(after);
        }
        rest = after;
    }
    None
}

/// Skips the rest of a run.
fn skip_run(text: &str) -> &str
    ensures taken { IsUpTo ends_run (chars text.now) (chars result.now) }
    ensures no_longer { length result.now ≤ length text.now }
{
    let mut rest = text;
    'parts: while let Some((part, after)) = first_part(rest) {
        if part.ends_run(after) {
            return rest;
        }
        rest = after;
    }
    rest
}

/// Takes the comment that a slash begins, given what follows the slash.
fn first_comment(after: &str) -> Option<(PieceKind, &str)>
    ensures taken { MatchOption result (begins_comment (slash ∷ chars after.now) ≡ false)
        (λ x. IsFirstPiece x.0 (slash ∷ chars after.now) (chars x.1.now)) }
    ensures no_longer { IfSome result (λ x. length x.1.now ≤ length after.now) }
{
    if let Some(inside) = strip(after, '/') {
        return Some((PieceKind::LineComment, skip_line_comment(inside)));
    }
    let inside = strip(after, '*')?;
    match skip_block_comment(inside) {
        Some(rest) => Some((PieceKind::BlockComment, rest)),
        None => Some((PieceKind::OpenComment, "")),
    }
}

/// Takes the first piece of a text, which may have any errors. Returns its kind and the remaining
/// text, or None at the end.
///
/// ```rust
/// first_piece("a{\"b\"}") // `Run`, and the text from the brace on
/// ```
pub fn first_piece(text: &str) -> Option<(PieceKind, &str)>
    ensures taken { MatchOption result (chars text.now ≡ [])
        (λ x. IsFirstPiece x.0 (chars text.now) (chars x.1.now)) }
    ensures shorter { IfSome result (λ x. length x.1.now < length text.now) }
{
    let (c, after) = split_first(text)?;
    match c {
        '{' => return Some((PieceKind::LeftBrace, after)),
        '}' => return Some((PieceKind::RightBrace, after)),
        ':' => return Some((PieceKind::Colon, after)),
        ',' => return Some((PieceKind::Comma, after)),
        _ => {}
    }
    if is_white(c) {
        return Some((PieceKind::White, skip_white(after)));
    }
    if c == '"' {
        return match skip_quoted(after) {
            Some(rest) => Some((PieceKind::Quoted, rest)),
            None => Some((PieceKind::OpenQuote, "")),
        };
    }
    if c == '/' {
        if let Some(found) = first_comment(after) {
            return Some(found);
        }
    }
    let (_, past) = first_part(text)?;
    Some((PieceKind::Run, skip_run(past)))
}
