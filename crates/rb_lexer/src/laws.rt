ghost use Rattle.std.specs.Prelude.{◌≡◌, ◌⊎◌, ℕ, List};
ghost use Rattle.rb_lexer.specs.declared.token.Token.{Token};
ghost use Rattle.rb_lexer.specs.declared.fault.SourceKind.{SourceKind};
ghost use Rattle.rb_lexer.specs.Tokens.{HasTokens, LexesTo};
ghost use Rattle.rb_lexer.specs.Faults.{HasFault, IsSourceFault};

/// Proves that a source has either one list of tokens or one error. A text over the limit, which
/// `lex` reports as `TooLong`, has at most one list of tokens too, and none if it has a lexical
/// error.
pub fn decided()
    ensures answered { (bytes : List ℕ) → ((ts : List Token) × LexesTo bytes ts)
        ⊎ ((kind : SourceKind) × ((line : ℕ) × IsSourceFault bytes kind line)) }
    ensures tokens { (bytes : List ℕ) (ts us : List Token) → LexesTo bytes ts → LexesTo bytes us
        → ts ≡ us }
    ensures faults { (bytes : List ℕ) (kind other : SourceKind) (line at : ℕ)
        → IsSourceFault bytes kind line → IsSourceFault bytes other at
        → (kind ≡ other) × (line ≡ at) }
    ensures apart { (bytes : List ℕ) (ts : List Token) (kind : SourceKind) (line : ℕ)
        → LexesTo bytes ts → IsSourceFault bytes kind line → ⊥ }
    ensures long_tokens { (bytes : List ℕ) (ts us : List Token) → HasTokens bytes ts
        → HasTokens bytes us → ts ≡ us }
    ensures long_apart { (bytes : List ℕ) (ts : List Token) (kind : SourceKind) (line : ℕ)
        → HasTokens bytes ts → HasFault bytes kind line → ⊥ }
{}
