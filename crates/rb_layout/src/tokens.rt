//! Compares the tokens of two texts, apart from their places.
ghost use Rattle.std.specs.Prelude.{◌≡◌, ◌∷◌, [], drop, true, IfOk};
ghost use Rattle.rb_lexer.specs.declared.token.Token.{Token};
ghost use Rattle.rb_grammar.specs.Form.{marks};

use rb_lexer::{Mark, Tokens};
use std::alloc::AllocError;

fn is_same_mark(a: &Mark, b: &Mark) -> bool
    ensures { result ≡ true → a.now ≡ b.now }
{
    match (a, b) {
        (Mark::Text(units), Mark::Text(others)) => units.as_slice() == others.as_slice(),
        (Mark::LeftBrace, Mark::LeftBrace) => true,
        (Mark::RightBrace, Mark::RightBrace) => true,
        (Mark::Colon, Mark::Colon) => true,
        (Mark::Comma, Mark::Comma) => true,
        _ => false,
    }
}

/// Checks whether two lists of tokens begin with the same mark.
fn begin_same(a: &Tokens<'_>, b: &Tokens<'_>) -> bool
    ensures { result ≡ true → (t : Token) × (u : Token) × (a.now ≡ t ∷ drop 1 a.now)
        × (b.now ≡ u ∷ drop 1 b.now) × (t.what ≡ u.what) }
{
    match (a.first(), b.first()) {
        (Some(t), Some(u)) => is_same_mark(&t.what, &u.what),
        _ => false,
    }
}

/// Checks whether two lists are at their end.
fn are_at_end(a: &Tokens<'_>, b: &Tokens<'_>) -> bool
    ensures { result ≡ true → (a.now ≡ []) × (b.now ≡ []) }
{
    a.first().is_none() && b.first().is_none()
}

/// Checks whether two lists of tokens have the same marks, and takes those.
pub(crate) fn have_same_marks(a: &mut Tokens<'_>, b: &mut Tokens<'_>) -> Result<bool, AllocError>
    ensures { IfOk result (λ same. same ≡ true → marks a.old ≡ marks b.old) }
{
    'tokens: while begin_same(a, b) {
        a.skip()?;
        b.skip()?;
    }
    Ok(are_at_end(a, b))
}
