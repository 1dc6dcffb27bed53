ghost use Rattle.std.specs.Prelude.{◌≡◌, ◌⊎◌, ℕ, List, length, MatchResult, IfOk, IfErr};
ghost use Rattle.rb_lexer.specs.declared.fault.SourceKind.{SourceKind};
ghost use Rattle.rb_lexer.specs.declared.fault.SourceKind.TheVariants.{Memory};
ghost use Rattle.rb_lexer.specs.declared.token.Token.{Token};
ghost use Rattle.rb_lexer.specs.Tokens.{LexesTo, AreInOrder};
ghost use Rattle.rb_lexer.specs.Faults.{IsSourceFault, IsRefusal};

use crate::fault::SourceFault;
use crate::stream::Tokens;
use crate::token::Token;
use std::alloc::Global;

/// Splits a source in the syntax of ICU's `genrb` into tokens with their spans and lines. A text
/// token has the UTF-16 units of all pieces that only white space and comments separate.
///
/// # Errors
///
/// Returns `TooLong` (line 1) if the source has more than 8,388,608 bytes, else `NotUtf8` at the
/// first byte at which no character begins, else the first in the text of `BadEscape`, `OpenQuote`
/// and `OpenComment`. Returns `Memory` (line 0) if an allocation fails.
///
/// ```rust
/// let tokens = lex(alloc, b"a{\"b\" c}")?;
/// // Four tokens; `tokens[2]` is the text `b c`, of the bytes 2 to 6, in line 1.
/// ```
pub fn lex(alloc: Global, bytes: &[u8]) -> Result<Vec<Token>, SourceFault>
    ensures found { IfOk result (λ tokens. LexesTo bytes.now tokens.items) }
    ensures in_order { IfOk result (λ tokens. AreInOrder 0 tokens.items (length bytes.now)) }
    ensures fault { IfErr result (λ e. IsRefusal bytes.now e) }
    // A source that has tokens is accepted, unless memory runs out.
    ensures only { (tokens : List Token) → LexesTo bytes.now tokens
        → MatchResult result (λ found. found.items ≡ tokens) (λ e. e.kind ≡ Memory) }
    // A source that has an error is rejected for it, unless memory runs out.
    ensures refused { (kind : SourceKind) (line : ℕ) → IsSourceFault bytes.now kind line
        → MatchResult result (λ _. ⊥)
        (λ e. (e.kind ≡ Memory) ⊎ ((e.kind ≡ kind) × (e.line ≡ line))) }
{
    let mut rest = Tokens::of(alloc, bytes)?;
    let mut tokens = Vec::new(alloc);
    'tokens: while let Some(token) = rest.pop()? {
        tokens.push(token)?;
    }
    Ok(tokens)
}
