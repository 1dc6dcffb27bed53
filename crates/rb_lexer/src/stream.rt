ghost use Rattle.std.specs.Prelude.{◌≡◌, ◌∷◌, [], List, IfOk, IfErr, MatchOption, MatchResult};
ghost use Rattle.std.specs.Prelude.{drop};
ghost use Rattle.rb_lexer.specs.declared.fault.SourceKind.TheVariants.{Memory};
ghost use Rattle.rb_lexer.specs.declared.token.Token.{Token};
ghost use Rattle.rb_lexer.specs.Tokens.{LexesTo};
ghost use Rattle.rb_lexer.specs.Faults.{IsRefusal};

use crate::check::{good_text, located};
use crate::fault::{LexError, SourceFault};
use crate::reader::Reader;
use crate::token::Token;
use std::alloc::{AllocError, Global};
use std::marker::Model;

/// The remaining tokens of a source without lexical errors; contracts see them as a list. They are
/// read as they are taken, with a small buffer.
#[derive(Drop)]
pub struct Tokens<'a> {
    reader: Reader<'a>,
}

impl<'a> Model for Tokens<'a> {
    ghost use Rattle.std.specs.Prelude.{List};
    ghost use Rattle.rb_lexer.specs.declared.token.Token.{Token};

    ghost Value = { List Token };

    ghost use Rattle.rb_lexer.specs.inner.Left.{Left};
    ghost use Rattle.rb_lexer.specs.Coming.{left};

    ghost view = { λ a. left a.reader };

    ghost invariant = { λ a. Left a.reader (left a.reader) };
}

/// Converts an error that can only be out of memory.
fn memory_error(_error: LexError) -> AllocError
    requires { _error.kind ≡ Memory }
{
    AllocError
}

impl<'a> Tokens<'a> {
    /// Checks the whole source for errors and returns its tokens. Fails as `lex` does.
    pub fn of(alloc: Global, bytes: &'a [u8]) -> Result<Tokens<'a>, SourceFault>
        ensures found { IfOk result (λ tokens. LexesTo bytes.now tokens) }
        ensures fault { IfErr result (λ e. IsRefusal bytes.now e) }
        // A source that has tokens is accepted, unless memory runs out.
        ensures only { (ts : List Token) → LexesTo bytes.now ts
            → MatchResult result (λ tokens. tokens ≡ ts) (λ e. e.kind ≡ Memory) }
    {
        let text = good_text(bytes)?;
        let mut reader = Reader::new(alloc, text);
        match reader.fill() {
            Ok(()) => Ok(Tokens { reader }),
            Err(error) => Err(located(bytes, error)),
        }
    }

    fn none(alloc: Global) -> Tokens<'a>
        ensures { result ≡ [] }
    {
        Tokens {
            reader: Reader::new(alloc, ""),
        }
    }

    pub fn first(&self) -> Option<&Token>
        ensures { MatchOption result (self.now ≡ []) (λ t. self.now ≡ t.now ∷ drop 1 self.now) }
    {
        self.reader.builder.first()
    }

    pub fn second(&self) -> Option<&Token>
        ensures { MatchOption result (drop 1 self.now ≡ [])
            (λ t. drop 1 self.now ≡ t.now ∷ drop 1 (drop 1 self.now)) }
    {
        self.reader.builder.second()
    }

    /// Takes the next token, or returns `None` at the end. If the allocation for a later token
    /// fails, returns `AllocError`; the token is lost then, and no tokens remain.
    pub fn pop(&mut self) -> Result<Option<Token>, AllocError>
        ensures token { IfOk result
            (λ found. MatchOption found (self.old ≡ []) (λ t. self.old ≡ t ∷ self.new)) }
        ensures left { MatchResult result (λ _. self.new ≡ drop 1 self.old) (λ _. self.new ≡ []) }
    {
        let token = self.reader.builder.pop();
        match self.reader.fill() {
            Ok(()) => Ok(token),
            Err(error) => {
                *self = Tokens::none(self.reader.alloc);
                Err(memory_error(error))
            }
        }
    }

    /// Takes and drops the next token, if there is one. Fails as `pop` does.
    pub fn skip(&mut self) -> Result<(), AllocError>
        ensures { MatchResult result (λ _. self.new ≡ drop 1 self.old) (λ _. self.new ≡ []) }
    {
        drop(self.reader.builder.pop());
        match self.reader.fill() {
            Ok(()) => Ok(()),
            Err(error) => {
                let alloc = self.reader.alloc;
                *self = Tokens::none(alloc);
                Err(memory_error(error))
            }
        }
    }
}
