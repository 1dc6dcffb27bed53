ghost use Rattle.rb_lexer.specs.declared.scan.Scanned.TheVariants.{Punctuation, Run};
ghost use Rattle.std.specs.Prelude.{◌≡◌, ◌<◌, ◌≤◌, ◌∷◌, [], ℕ, List, true, false, MatchOption};
ghost use Rattle.std.specs.Prelude.{MatchResult, IfOk, IfSome, OnSome, length};
ghost use Rattle.std.specs.Str.{chars};
ghost use Rattle.rb_lexer.specs.Lexeme.{is_punctuation, slash, backslash};
ghost use Rattle.rb_lexer.specs.Tokens.{punctuation_mark};
ghost use Rattle.rb_lexer.specs.Atom.{Begins, Stops};

use crate::comment::{skip_block_comment, skip_line_comment};
use crate::escape::escape;
use crate::fault::{LexError, SourceKind};
use crate::front::{split_first, strip, width};
use crate::quoted::quoted;
use crate::token::Mark;
use crate::units::UnitSink;
use crate::unquoted::{is_white, run, skip_white};

/// The kind of an item. An unquoted piece has one or more runs, with comments between them.
#[derive(Drop)]
pub enum Scanned {
    White,
    Comment,
    Punctuation(Mark),
    Quoted,
    Run,
}

fn punctuation(c: char) -> Option<Mark>
    ensures { MatchOption result (is_punctuation c ≡ false)
        (λ mark. (is_punctuation c ≡ true) × (mark ≡ punctuation_mark c)) }
{
    match c {
        '{' => Some(Mark::LeftBrace),
        '}' => Some(Mark::RightBrace),
        ':' => Some(Mark::Colon),
        ',' => Some(Mark::Comma),
        _ => None,
    }
}

/// Returns the punctuation mark that a text begins with, and the remaining text.
#[inline(always)]
pub fn first_mark(text: &str) -> Option<(Mark, &str)>
    ensures taken { IfSome result
        (λ x. Begins (chars text.now) (Punctuation x.0) [] (chars x.1.now)) }
    ensures shorter { IfSome result (λ x. length x.1.now < length text.now) }
{
    let (c, after) = split_first(text)?;
    let mark = punctuation(c)?;
    Some((mark, after))
}

/// Reads the run that a backslash begins into an empty sink. Returns the remaining text.
fn escaped<'a, U: UnitSink>(units: &mut U, after: &'a str) -> Result<&'a str, LexError>
    requires { U.has units.old [] }
    ensures taken { MatchResult result
        (λ rest. (us : List ℕ) × U.has units.new us
        × Begins (backslash ∷ chars after.now) Run us (chars rest.now))
        (λ stop. Stops stop (backslash ∷ chars after.now)) }
    ensures no_longer { IfOk result (λ rest. length rest.now ≤ length after.now) }
{
    let Some((code, past)) = escape(after) else {
        return Err(LexError {
            kind: SourceKind::BadEscape,
            left: width(after) + 1,
        });
    };
    let rest = run(units, code, past)?;
    Ok(rest)
}

/// Reads what a slash begins: a comment, or a run.
fn slashed<'a, U: UnitSink>(units: &mut U, after: &'a str) -> Result<(Scanned, &'a str), LexError>
    requires { U.has units.old [] }
    ensures taken { MatchResult result
        (λ x. (us : List ℕ) × U.has units.new us
        × Begins (slash ∷ chars after.now) x.0 us (chars x.1.now))
        (λ stop. Stops stop (slash ∷ chars after.now)) }
    ensures no_longer { IfOk result (λ x. length x.1.now ≤ length after.now) }
{
    if let Some(inside) = strip(after, '/') {
        return Ok((Scanned::Comment, skip_line_comment(inside)));
    }
    if let Some(inside) = strip(after, '*') {
        let Some(rest) = skip_block_comment(inside) else {
            return Err(LexError {
                kind: SourceKind::OpenComment,
                left: 0,
            });
        };
        return Ok((Scanned::Comment, rest));
    }
    let rest = run(units, '/' as u32, after)?;
    Ok((Scanned::Run, rest))
}

/// Reads the first item of a text; the units of a piece go into an empty sink. Returns the item and
/// the remaining text, or None at the end.
pub fn scan_first<'a, U: UnitSink>(
    units: &mut U,
    text: &'a str,
) -> Result<Option<(Scanned, &'a str)>, LexError>
    requires { U.has units.old [] }
    ensures taken { MatchResult result
        (λ found. MatchOption found (chars text.now ≡ [])
        (λ x. (us : List ℕ) × U.has units.new us × Begins (chars text.now) x.0 us (chars x.1.now)))
        (λ stop. Stops stop (chars text.now)) }
    ensures shorter { IfOk result (λ found. IfSome found (λ x. length x.1.now < length text.now)) }
{
    let Some((c, after)) = split_first(text) else {
        return Ok(None);
    };
    if is_white(c) {
        return Ok(Some((Scanned::White, skip_white(after))));
    }
    if let Some(mark) = punctuation(c) {
        return Ok(Some((Scanned::Punctuation(mark), after)));
    }
    if c == '"' {
        let rest = quoted(units, after)?;
        return Ok(Some((Scanned::Quoted, rest)));
    }
    if c == '\\' {
        let rest = escaped(units, after)?;
        return Ok(Some((Scanned::Run, rest)));
    }
    if c == '/' {
        return Ok(Some(slashed(units, after)?));
    }
    let rest = run(units, c as u32, after)?;
    Ok(Some((Scanned::Run, rest)))
}
