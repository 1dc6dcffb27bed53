//! Checks a whole text for errors before the first token, without allocating.
ghost use Rattle.std.specs.Prelude.{◌≡◌, ◌≤◌, ◌-◌, List, length, OnOk, IfOk, IfErr, MatchResult};
ghost use Rattle.std.specs.Prelude.{IsTrue, encode_utf8_all};
ghost use Rattle.rb_lexer.specs.declared.fault.SourceKind.TheVariants.{Memory};
ghost use Rattle.rb_lexer.specs.Tokens.{line_of};
ghost use Rattle.rb_lexer.specs.Faults.{IsRefusal};
ghost use Rattle.std.specs.Str.{chars, all_scalars};
ghost use Rattle.rb_lexer.specs.Atom.{Atom, atoms_chars, AreAtoms};
ghost use Rattle.rb_lexer.specs.inner.Passing.{IsUnbroken, BreaksSo};
ghost use Rattle.rb_lexer.specs.Limits.{source_limit};

use crate::fault::{LexError, SourceFault, SourceKind};
use crate::front::split_first;
use crate::scan::scan_first;
use crate::text::{line_at, text_of};
use crate::units::NoUnits;

/// Skips all characters before a quote, a backslash or a slash: no error begins at them.
fn skip_plain(text: &str) -> &str
    ensures taken { (xs : List Atom) × (chars text.now ≡ atoms_chars xs (chars result.now))
        × AreAtoms xs (chars result.now) }
    ensures no_longer { length result.now ≤ length text.now }
{
    let mut rest = text;
    'plain: while let Some((c, after)) = split_first(rest) {
        if c == '"' || c == '\\' || c == '/' {
            return rest;
        }
        rest = after;
    }
    rest
}

fn check_text(text: &str) -> Result<(), LexError>
    ensures ends { MatchResult result (λ _. IsUnbroken (chars text.now))
        (λ stop. BreaksSo stop (chars text.now)) }
    ensures scalars { IsTrue (all_scalars (chars text.now)) }
    ensures bytes { encode_utf8_all (chars text.now) ≡ text.now }
{
    let mut rest = skip_plain(text);
    'items: while let Some((_, after)) = scan_first(&mut NoUnits, rest)? {
        rest = skip_plain(after);
    }
    Ok(())
}

/// Adds the line to an error.
pub fn located(bytes: &[u8], error: LexError) -> SourceFault
    requires { (error.kind ≡ Memory → ⊥) → error.left ≤ length bytes.now }
    ensures kind { result.kind ≡ error.kind }
    ensures line { (error.kind ≡ Memory → ⊥)
        → result.line ≡ line_of bytes.now (length bytes.now - error.left) }
    ensures no_line { error.kind ≡ Memory → result.line ≡ 0 }
{
    let line = match error.kind {
        SourceKind::Memory => 0,
        _ => line_at(bytes, bytes.len() - error.left),
    };
    SourceFault {
        kind: error.kind,
        line,
    }
}

pub fn good_text(bytes: &[u8]) -> Result<&str, SourceFault>
    ensures short { OnOk result (length bytes.now ≤ source_limit) }
    ensures same { IfOk result (λ text. text.now ≡ bytes.now) }
    ensures unbroken { IfOk result (λ text. IsUnbroken (chars text.now)) }
    ensures scalars { IfOk result (λ text. IsTrue (all_scalars (chars text.now))) }
    ensures encoded { IfOk result (λ text. encode_utf8_all (chars text.now) ≡ bytes.now) }
    ensures fault { IfErr result (λ e. IsRefusal bytes.now e) }
{
    let text = text_of(bytes)?;
    match check_text(text) {
        Ok(()) => Ok(text),
        Err(error) => Err(located(bytes, error)),
    }
}
