ghost use Rattle.std.specs.Prelude.{◌≡◌, ◌<◌, ◌≤◌, ◌+◌, List, length, OnOk, IfOk, MatchResult};
ghost use Rattle.std.specs.Prelude.{IsTrue, false};
ghost use Rattle.std.specs.Str.{chars};
ghost use Rattle.rb_lexer.specs.declared.fault.SourceKind.TheVariants.{Memory};
ghost use Rattle.rb_lexer.specs.declared.token.Token.{Token};
ghost use Rattle.rb_lexer.specs.Tokens.{width};
ghost use Rattle.rb_lexer.specs.inner.Left.{IsAtStart, IsPlaced, Gives, IsDone, Left};

use crate::builder::Builder;
use crate::fault::LexError;
use crate::front::width;
use crate::scan::{first_mark, scan_first};
use crate::span::Span;
use crate::text::line_feeds;
use rb_tree::UnitList;
use std::alloc::Global;

/// `fill_buffer` buffers this many tokens, so that most are taken without a call.
const AHEAD: usize = 16;

/// A source without lexical errors: its unread rest, the byte and the line where that begins, and
/// the tokens before it.
#[derive(Drop)]
pub struct Reader<'a> {
    pub alloc: Global,
    text: &'a str,
    rest: &'a str,
    first: usize,
    line: u64,
    pub builder: Builder,
}

impl<'a> Reader<'a> {
    pub fn new(alloc: Global, text: &'a str) -> Reader<'a>
        ensures { IsAtStart result text.now }
    {
        Reader {
            alloc,
            text,
            rest: text,
            first: 0,
            line: 1,
            builder: Builder::new(alloc),
        }
    }

    /// Reads one item. Returns false at the end.
    fn step(&mut self) -> Result<bool, LexError>
        requires { IsPlaced self.old }
        ensures placed { OnOk result (IsPlaced self.new) }
        ensures same { (ts : List Token) → Gives self.old ts
            → MatchResult result (λ _. Gives self.new ts) (λ e. e.kind ≡ Memory) }
        ensures shorter { IfOk result
            (λ more. IsTrue more → length self.new.rest.now < length self.old.rest.now) }
        ensures done { IfOk result (λ more. more ≡ false → IsDone self.new) }
    {
        if let Some((mark, after)) = first_mark(self.rest) {
            let at = self.span_to(after);
            self.builder.add_mark(mark, at)?;
            self.advance(at.past, after);
            return Ok(true);
        }
        let mut units = UnitList::new(self.alloc);
        let Some((item, after)) = scan_first(&mut units, self.rest)? else {
            self.builder.flush()?;
            return Ok(false);
        };
        let at = self.span_to(after);
        self.builder.add(item, units, at)?;
        self.advance(at.past, after);
        Ok(true)
    }

    /// Returns the span of the next item, given the text after it.
    #[inline(always)]
    fn span_to(&self, after: &str) -> Span
        requires placed { IsPlaced self.now }
        requires within { width (chars after.now) ≤ width (chars self.now.rest.now) }
        ensures first { result.first ≡ self.now.first }
        ensures line { result.line ≡ self.now.line }
        ensures past { result.past + width (chars after.now) ≡ length self.now.text.now }
    {
        Span {
            first: self.first,
            past: width(self.text) - width(after),
            line: self.line,
        }
    }

    #[inline(always)]
    fn advance(&mut self, past: usize, after: &'a str)
        requires placed { IsPlaced self.old }
        requires order { self.old.first ≤ past }
        requires follows { past + width (chars after.now) ≡ length self.old.text.now }
        ensures placed { IsPlaced self.new }
        ensures first { self.new.first ≡ past }
        ensures rest { self.new.rest.now ≡ after.now }
        ensures same_text { self.new.text.now ≡ self.old.text.now }
        ensures same_builder { self.new.builder ≡ self.old.builder }
    {
        self.line += line_feeds(self.text.as_bytes(), self.first, past);
        self.first = past;
        self.rest = after;
    }

    /// Buffers two tokens, or all remaining ones.
    #[inline(always)]
    pub fn fill(&mut self) -> Result<(), LexError>
        requires { IsPlaced self.old }
        ensures same { (ts : List Token) → Gives self.old ts
            → MatchResult result (λ _. Left self.new ts) (λ e. e.kind ≡ Memory) }
    {
        if self.builder.count() >= 2 {
            return Ok(());
        }
        self.fill_buffer()
    }

    /// Buffers `AHEAD` tokens, or all remaining ones.
    #[inline(never)]
    fn fill_buffer(&mut self) -> Result<(), LexError>
        requires { IsPlaced self.old }
        ensures same { (ts : List Token) → Gives self.old ts
            → MatchResult result (λ _. Left self.new ts) (λ e. e.kind ≡ Memory) }
    {
        'items: while self.builder.count() < AHEAD {
            if !self.step()? {
                return Ok(());
            }
        }
        Ok(())
    }
}
