ghost use Rattle.std.specs.Prelude.{◌≡◌, ◌≤◌, ◌∷◌, [], ◌||◌, ◌==◌, ℕ, List, length, IfOk};
ghost use Rattle.std.specs.Str.{chars};
ghost use Rattle.rb_lexer.specs.Lexeme.{quote, is_white, is_punctuation, begins_comment, units_of};
ghost use Rattle.rb_lexer.specs.Atom.{IsPastRun, blanks, atoms_chars, AreAtoms};

use crate::escape::{escape, push_code};
use crate::front::{split_first, strip};
use crate::units::UnitSink;
use std::alloc::AllocError;

pub fn is_white(c: char) -> bool
    ensures { result ≡ is_white c }
{
    c == '\t' || c == '\n' || c == '\r' || c == ' ' || c == '\u{2029}' || c == '\u{FEFF}'
}

pub fn skip_white(text: &str) -> &str
    ensures taken { (cs : List ℕ) × (chars text.now ≡ atoms_chars (blanks cs) (chars result.now))
        × AreAtoms (blanks cs) (chars result.now) }
    ensures no_longer { length result.now ≤ length text.now }
{
    let mut rest = text;
    'white: while let Some((c, after)) = split_first(rest) {
        if !is_white(c) {
            return rest;
        }
        rest = after;
    }
    rest
}

fn is_punctuation(c: char) -> bool
    ensures { result ≡ is_punctuation c }
{
    c == '{' || c == '}' || c == ',' || c == ':'
}

fn begins_comment(c: char, after: &str) -> bool
    ensures { result ≡ begins_comment (c ∷ chars after.now) }
{
    c == '/' && (strip(after, '/').is_some() || strip(after, '*').is_some())
}

/// Checks whether a character ends a run. Inlined: it is called for each character of a piece.
#[inline(always)]
pub fn ends_run(c: char, after: &str) -> bool
    ensures { result
        ≡ (is_white c || (c == quote) || is_punctuation c || begins_comment (c ∷ chars after.now)) }
{
    match c {
        '/' => begins_comment(c, after),
        _ => is_white(c) || c == '"' || is_punctuation(c),
    }
}

/// Reads a run of an unquoted piece into an empty sink, from after its first code point. Returns
/// the remaining text. A run ends with the piece, before a comment, and before a bad escape.
pub fn run<'a, U: UnitSink>(units: &mut U, first: u32, text: &'a str) -> Result<&'a str, AllocError>
    requires first { first ≤ 0x10FFFF }
    requires empty { U.has units.old [] }
    ensures taken { IfOk result (λ rest. (us : List ℕ) × U.has units.new us
        × IsPastRun (units_of first) (chars text.now) us (chars rest.now)) }
    ensures no_longer { IfOk result (λ rest. length rest.now ≤ length text.now) }
{
    push_code(units, first)?;
    let mut rest = text;
    'parts: while let Some((c, after)) = split_first(rest) {
        if c == '\\' {
            let Some((code, past)) = escape(after) else {
                return Ok(rest);
            };
            push_code(units, code)?;
            rest = past;
        } else {
            if ends_run(c, after) {
                return Ok(rest);
            }
            push_code(units, c as u32)?;
            rest = after;
        }
    }
    Ok(rest)
}
