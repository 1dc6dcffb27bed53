ghost use Rattle.std.specs.Prelude.{◌≡◌, ◌++◌, ℕ, List, [], ◌&&◌, is_some, None, Some};
ghost use Rattle.std.specs.Prelude.{false, ◌∷◌, drop, length, MatchOption, OnOk, IfOk, IfErr};
ghost use Rattle.rb_lexer.specs.declared.fault.SourceKind.TheVariants.{Memory};
ghost use Rattle.rb_lexer.specs.declared.scan.Scanned.TheVariants.{Punctuation};
ghost use Rattle.rb_lexer.specs.Merging.{flushed, grown};
ghost use Rattle.rb_lexer.specs.Atom.{extended};
ghost use Rattle.rb_lexer.specs.inner.Added.{Adds};

use crate::fault::LexError;
use crate::pending::PendingText;
use crate::scan::Scanned;
use crate::span::Span;
use crate::token::{Mark, Token};
use rb_tree::UnitList;
use std::alloc::Global;
use std::collections::VecDeque;

/// The tokens so far, and the pending text after them. `is_open` means that its last, unquoted
/// piece may continue.
#[derive(Drop)]
pub struct Builder {
    pub tokens: VecDeque<Token>,
    pub pending: Option<PendingText>,
    pub is_open: bool,
}

impl Builder {
    pub fn new(alloc: Global) -> Builder
        ensures tokens { result.tokens.items ≡ [] }
        ensures pending { result.pending ≡ None }
        ensures closed { result.is_open ≡ false }
    {
        Builder {
            tokens: VecDeque::new(alloc),
            pending: None,
            is_open: false,
        }
    }

    /// Turns the pending text into a token.
    #[inline(always)]
    pub fn flush(&mut self) -> Result<(), LexError>
        ensures memory { IfErr result (λ e. e.kind ≡ Memory) }
        ensures flushed { OnOk result ((self.new.tokens.items
            ≡ self.old.tokens.items ++ flushed self.old.pending []) × (self.new.pending ≡ None)) }
    {
        if self.pending.is_none() {
            return Ok(());
        }
        if let Some(pending) = self.pending.take() {
            self.tokens.push_back(Token {
                what: Mark::Text(pending.units),
                first: pending.first,
                past: pending.past,
                line: pending.line,
            })?;
        }
        Ok(())
    }

    fn join(&mut self, piece: PendingText) -> Result<(), LexError>
        ensures memory { IfErr result (λ e. e.kind ≡ Memory) }
        ensures joined { OnOk result ((self.new.tokens.items ≡ self.old.tokens.items)
            × (self.new.pending ≡ Some (grown self.old.pending piece))) }
    {
        match self.pending.take() {
            None => self.pending = Some(piece),
            Some(mut pending) => {
                pending.join(&piece)?;
                self.pending = Some(pending);
            }
        }
        Ok(())
    }

    fn may_continue(&self) -> bool
        ensures { result ≡ (self.now.is_open && is_some self.now.pending) }
    {
        self.is_open && self.pending.is_some()
    }

    /// Appends to the last piece of the pending text.
    fn extend(&mut self, units: &UnitList, past: usize) -> Result<(), LexError>
        ensures memory { IfErr result (λ e. e.kind ≡ Memory) }
        ensures longer { OnOk result ((self.new.tokens.items ≡ self.old.tokens.items) ×
            (self.new.pending ≡ extended self.old.pending units.now past)
            × (self.new.is_open ≡ self.old.is_open)) }
    {
        if let Some(mut pending) = self.pending.take() {
            pending.units.extend(units)?;
            pending.past = past;
            self.pending = Some(pending);
        }
        Ok(())
    }

    #[inline(always)]
    pub fn add_mark(&mut self, what: Mark, at: Span) -> Result<(), LexError>
        ensures memory { IfErr result (λ e. e.kind ≡ Memory) }
        ensures added { OnOk result ((us : List ℕ)
            → Adds self.old self.new (Punctuation what) us at) }
    {
        self.flush()?;
        self.is_open = false;
        self.tokens.push_back(Token {
            what,
            first: at.first,
            past: at.past,
            line: at.line,
        })?;
        Ok(())
    }

    pub fn add(&mut self, item: Scanned, units: UnitList, at: Span) -> Result<(), LexError>
        ensures memory { IfErr result (λ e. e.kind ≡ Memory) }
        ensures added { OnOk result (Adds self.old self.new item units at) }
    {
        match item {
            Scanned::White => self.is_open = false,
            Scanned::Comment => {}
            Scanned::Punctuation(what) => self.add_mark(what, at)?,
            Scanned::Quoted => {
                self.join(PendingText {
                    units,
                    is_quoted: true,
                    first: at.first,
                    past: at.past,
                    line: at.line,
                })?;
                self.is_open = false;
            }
            Scanned::Run => {
                if self.may_continue() {
                    self.extend(&units, at.past)?;
                    return Ok(());
                }
                self.join(PendingText {
                    units,
                    is_quoted: false,
                    first: at.first,
                    past: at.past,
                    line: at.line,
                })?;
                self.is_open = true;
            }
        }
        Ok(())
    }

    pub fn first(&self) -> Option<&Token>
        ensures { MatchOption result (self.now.tokens.items ≡ [])
            (λ t. self.now.tokens.items ≡ t.now ∷ drop 1 self.now.tokens.items) }
    {
        self.tokens.front()
    }

    pub fn second(&self) -> Option<&Token>
        ensures { MatchOption result (drop 1 self.now.tokens.items ≡ [])
            (λ t. drop 1 self.now.tokens.items ≡ t.now ∷ drop 1 (drop 1 self.now.tokens.items)) }
    {
        self.tokens.get(1)
    }

    pub fn pop(&mut self) -> Option<Token>
        ensures token { MatchOption result (self.old.tokens.items ≡ [])
            (λ t. self.old.tokens.items ≡ t ∷ self.new.tokens.items) }
        ensures rest { self.new.tokens.items ≡ drop 1 self.old.tokens.items }
        ensures pending { self.new.pending ≡ self.old.pending }
        ensures same_open { self.new.is_open ≡ self.old.is_open }
    {
        self.tokens.pop_front()
    }

    pub fn count(&self) -> usize
        ensures { result ≡ length self.now.tokens.items }
    {
        self.tokens.len()
    }
}
