ghost use Rattle.std.specs.Prelude.{◌≡◌, ◌≢◌, ◌||◌, ◌∷◌, [], ◌<◌, ◌≤◌, length, if◌then◌else◌};
ghost use Rattle.std.specs.Prelude.{IsTrue, ◌↔◌, is_some};
ghost use Rattle.std.specs.Prelude.{MatchOption, MatchResult, Some, None, Ok, Err, OnOk, IfOk};
ghost use Rattle.rb_grammar.specs.Faults.{line_at};
ghost use Rattle.rb_lexer.specs.declared.fault.SourceKind.TheVariants.{TooDeep, Unexpected, Memory};
ghost use Rattle.rb_grammar.specs.Reading.{left, colon, begins, is_punctuation, tail, first_text};
ghost use Rattle.rb_grammar.specs.Reading.{is_no_fallback_text};
ghost use Rattle.rb_grammar.specs.Reading.{punctuation_at, text_at, word_at, guess, guess_second};
ghost use Rattle.rb_parser.specs.inner.Reads.{located, Reads};
ghost use Rattle.rb_parser.specs.inner.Views.{punctuation_of, next_of, guessed, word_of};

use crate::word::{Word, is_no_fallback_table, word_fault};
use rb_lexer::{Mark, SourceFault, SourceKind, Token, Tokens};
use rb_tree::UnitList;
use std::alloc::AllocError;

#[derive(Clone, Copy)]
pub enum Punctuation {
    Left,
    Right,
    Colon,
    Comma,
}

/// The next token, as far as the start of a value depends on it.
#[derive(Clone, Copy)]
pub enum Lookahead {
    Text,
    Left,
    Colon,
    Other,
}

/// The kind of a body without a type.
#[derive(Clone, Copy)]
pub enum Guess {
    Text,
    Table,
    Array,
}

/// The remaining tokens, and the line in which the text ends. Two tokens of lookahead are enough
/// for the grammar.
#[derive(Drop)]
pub struct Cursor<'a> {
    pub rest: Tokens<'a>,
    pub end: u64,
}

impl<'a> Cursor<'a> {
    fn first(&self) -> Option<&Token>
        ensures { MatchOption result (self.now.rest ≡ [])
            (λ t. self.now.rest ≡ t.now ∷ tail self.now.rest) }
    {
        self.rest.first()
    }

    fn second(&self) -> Option<&Token>
        ensures { MatchOption result (tail self.now.rest ≡ [])
            (λ t. tail self.now.rest ≡ t.now ∷ tail (tail self.now.rest)) }
    {
        self.rest.second()
    }

    #[tactic(auto, using(crate::proofs::Takes::dropped))]
    fn pop(&mut self) -> Result<Option<Token>, AllocError>
        ensures same_end { self.new.end ≡ self.old.end }
        ensures token { IfOk result (λ found. MatchOption found (self.old.rest ≡ [])
            (λ t. self.old.rest ≡ t ∷ self.new.rest)) }
        ensures rest { OnOk result (self.new.rest ≡ tail self.old.rest) }
    {
        self.rest.pop()
    }

    pub fn skip(&mut self) -> Result<(), AllocError>
        ensures same_end { self.new.end ≡ self.old.end }
        ensures rest { OnOk result (self.new.rest ≡ tail self.old.rest) }
    {
        self.rest.skip()
    }

    pub fn is_at_end(&self) -> bool
        ensures { IsTrue result ↔ (self.now.rest ≡ []) }
    {
        self.first().is_none()
    }

    /// Returns the line of the next token, or of the end.
    fn line(&self) -> u64
        ensures { result ≡ line_at self.now.end self.now.rest }
    {
        match self.first() {
            Some(token) => token.line,
            None => self.end,
        }
    }

    /// Makes an error at the next token, or at the end.
    pub fn fault(&self, kind: SourceKind) -> SourceFault
        ensures kind { result.kind ≡ kind }
        ensures line { result.line ≡ line_at self.now.end self.now.rest }
    {
        SourceFault {
            kind,
            line: self.line(),
        }
    }

    pub fn is_at(&self, punctuation: Punctuation) -> bool
        ensures { result ≡ begins (punctuation_of punctuation) self.now.rest }
    {
        match self.first() {
            Some(token) => is_punctuation(&token.what, punctuation),
            None => false,
        }
    }

    pub fn is_at_body(&self) -> bool
        ensures { result ≡ begins colon self.now.rest || begins left self.now.rest }
    {
        self.is_at(Punctuation::Colon) || self.is_at(Punctuation::Left)
    }

    pub fn next(&self) -> Lookahead
        ensures { result ≡ next_of self.now.rest }
    {
        let Some(first) = self.first() else {
            return Lookahead::Other;
        };
        match first.what {
            Mark::Text(_) => Lookahead::Text,
            Mark::LeftBrace => Lookahead::Left,
            Mark::Colon => Lookahead::Colon,
            Mark::RightBrace | Mark::Comma => Lookahead::Other,
        }
    }

    /// Makes the error where no deeper value is allowed: `TooDeep` if one begins, or `Unexpected`.
    pub fn depth_error(&self) -> SourceFault
        ensures kind { result.kind ≡ (if begins colon self.now.rest || begins left self.now.rest
            then TooDeep else Unexpected) }
        ensures line { result.line ≡ line_at self.now.end self.now.rest }
    {
        if self.is_at_body() {
            self.fault(SourceKind::TooDeep)
        } else {
            self.fault(SourceKind::Unexpected)
        }
    }

    /// Takes a punctuation mark, if it comes next. Returns whether it did.
    pub fn take(&mut self, punctuation: Punctuation) -> Result<bool, AllocError>
        ensures same_end { self.new.end ≡ self.old.end }
        ensures value { IfOk result
            (λ comes. comes ≡ begins (punctuation_of punctuation) self.old.rest) }
        ensures rest { OnOk result (self.new.rest
            ≡ (if begins (punctuation_of punctuation) self.old.rest then tail self.old.rest
            else self.old.rest)) }
        ensures shorter { IfOk result
            (λ comes. IsTrue comes → length self.new.rest < length self.old.rest) }
        ensures no_longer { OnOk result (length self.new.rest ≤ length self.old.rest) }
    {
        let comes = self.is_at(punctuation);
        if comes {
            self.skip()?;
        }
        Ok(comes)
    }

    /// Takes a punctuation mark, or fails with `Unexpected`.
    pub fn expect(&mut self, punctuation: Punctuation) -> Result<(), SourceFault>
        ensures same_end { self.new.end ≡ self.old.end }
        ensures exact { MatchResult result
            (λ _. punctuation_at (punctuation_of punctuation) self.old.rest ≡ Ok self.new.rest)
            (λ e. e.kind ≢ Memory → located self.old.end
            (punctuation_at (punctuation_of punctuation) self.old.rest) ≡ Err e) }
        ensures shorter { OnOk result (length self.new.rest < length self.old.rest) }
    {
        if self.take(punctuation)? {
            Ok(())
        } else {
            Err(self.fault(SourceKind::Unexpected))
        }
    }

    fn is_at_text(&self) -> bool
        ensures { result ≡ is_some (first_text self.now.rest) }
    {
        match self.first() {
            Some(token) => matches!(token.what, Mark::Text(_)),
            None => false,
        }
    }

    pub fn take_text(&mut self) -> Result<Option<UnitList>, AllocError>
        ensures same_end { self.new.end ≡ self.old.end }
        ensures text { IfOk result (λ found. first_text self.old.rest ≡ found) }
        ensures rest { IfOk result (λ found. MatchOption found (self.new.rest ≡ self.old.rest)
            (λ _. self.new.rest ≡ tail self.old.rest)) }
        ensures shorter { IfOk result
            (λ found. MatchOption found (length self.new.rest ≤ length self.old.rest)
            (λ _. length self.new.rest < length self.old.rest)) }
    {
        if !self.is_at_text() {
            return Ok(None);
        }
        match self.pop()? {
            Some(
                Token {
                    what: Mark::Text(text),
                    ..
                },
            ) => Ok(Some(text)),
            _ => unreachable!(),
        }
    }

    /// Takes a text, or fails with `Unexpected`.
    pub fn text(&mut self) -> Result<UnitList, SourceFault>
        ensures same_end { self.new.end ≡ self.old.end }
        ensures exact { MatchResult result (λ s. text_at self.old.rest ≡ Ok (s, self.new.rest))
            (λ e. e.kind ≢ Memory → located self.old.end (text_at self.old.rest) ≡ Err e) }
        ensures shorter { OnOk result (length self.new.rest < length self.old.rest) }
    {
        match self.take_text()? {
            Some(text) => Ok(text),
            None => Err(self.fault(SourceKind::Unexpected)),
        }
    }

    fn is_at_no_fallback_table(&self) -> bool
        ensures { result ≡ is_no_fallback_text (first_text self.now.rest) }
    {
        match self.first() {
            Some(token) => match &token.what {
                Mark::Text(text) => is_no_fallback_table(text.as_slice()),
                _ => false,
            },
            None => false,
        }
    }

    /// Takes the text `table(nofallback)`, if it comes next. Returns whether it did.
    pub fn take_no_fallback_table(&mut self) -> Result<bool, AllocError>
        ensures same_end { self.new.end ≡ self.old.end }
        ensures value { IfOk result
            (λ comes. comes ≡ is_no_fallback_text (first_text self.old.rest)) }
        ensures rest { OnOk result (self.new.rest
            ≡ (if is_no_fallback_text (first_text self.old.rest) then tail self.old.rest
            else self.old.rest)) }
    {
        let comes = self.is_at_no_fallback_table();
        if comes {
            self.skip()?;
        }
        Ok(comes)
    }

    /// Guesses the kind of a body without a type from the two tokens after its brace.
    pub fn guess(&self) -> Result<Guess, SourceFault>
        ensures { result ≡ guessed self.now.end (guess self.now.rest) }
    {
        let Some(first) = self.first() else {
            return Err(self.fault(SourceKind::Unexpected));
        };
        match first.what {
            Mark::Text(_) => self.guess_after_text(),
            Mark::LeftBrace | Mark::Colon | Mark::RightBrace => Ok(Guess::Array),
            Mark::Comma => Err(self.fault(SourceKind::Unexpected)),
        }
    }

    fn guess_after_text(&self) -> Result<Guess, SourceFault>
        ensures { result ≡ guessed self.now.end (guess_second (tail self.now.rest)) }
    {
        let kind = SourceKind::Unexpected;
        let Some(second) = self.second() else {
            let line = self.end;
            return Err(SourceFault { kind, line });
        };
        match second.what {
            Mark::Comma => Ok(Guess::Array),
            Mark::RightBrace => Ok(Guess::Text),
            Mark::LeftBrace | Mark::Colon => Ok(Guess::Table),
            Mark::Text(_) => {
                let line = second.line;
                Err(SourceFault { kind, line })
            }
        }
    }

    /// Takes the type of a value, or fails with `Unexpected` or `UnknownType`.
    pub fn word(&mut self) -> Result<Word, SourceFault>
        ensures same_end { self.new.end ≡ self.old.end }
        ensures exact { Reads (λ w v. w ≡ word_of v) self.old.end result self.new.rest
            (word_at self.old.rest) }
        ensures shorter { OnOk result (length self.new.rest < length self.old.rest) }
    {
        let line = self.line();
        let text = self.text()?;
        match Word::read(text.as_slice()) {
            Some(word) => Ok(word),
            None => Err(SourceFault {
                kind: word_fault(text.as_slice()),
                line,
            }),
        }
    }
}

fn is_punctuation(mark: &Mark, punctuation: Punctuation) -> bool
    ensures { result ≡ is_punctuation (punctuation_of punctuation) mark.now }
{
    match punctuation {
        Punctuation::Left => matches!(mark, Mark::LeftBrace),
        Punctuation::Right => matches!(mark, Mark::RightBrace),
        Punctuation::Colon => matches!(mark, Mark::Colon),
        Punctuation::Comma => matches!(mark, Mark::Comma),
    }
}
