ghost use Rattle.std.specs.Prelude.{◌≡◌, ◌<◌, ◌∷◌, length, IfOk, OnOk, MatchOption};
ghost use Rattle.std.specs.Bool.{MatchBool};
ghost use Rattle.json.specs.Reads.{token_of};
ghost use Rattle.json.specs.Token as spec;

use crate::fault::{Fault, JsonFaultKind};
use json::{Reader, Token};

/// The remaining tokens, and the weight that the tree may still gain.
#[derive(Drop)]
pub(crate) struct Input<'a> {
    pub reader: Reader<'a>,
    pub weight_left: u64,
}

impl<'a> Input<'a> {
    /// Returns the byte at which the next token begins.
    pub fn at(&self) -> usize {
        self.reader.offset()
    }

    /// Counts some weight of the tree, or fails with `TooLarge`: a text with more is not read on.
    pub fn spend(&mut self, at: usize, weight: u64) -> Result<(), Fault>
        ensures { self.new.reader ≡ self.old.reader }
    {
        if weight > self.weight_left {
            return Err(Fault::new(JsonFaultKind::TooLarge, at));
        }
        self.weight_left -= weight;
        Ok(())
    }

    /// Takes the bracket that closes an array, if it comes next. Returns whether it did.
    #[tactic(auto, using(crate::proofs::Ends::after_bracket))]
    pub fn take_end_array(&mut self) -> bool
        ensures value { MatchBool result (self.old.reader ≡ spec.end_array ∷ self.new.reader)
            (self.new.reader ≡ self.old.reader) }
    {
        self.reader.take_end_array()
    }

    /// Takes the next token. Fails with `NotJson` if there is none.
    pub fn token(&mut self) -> Result<Token<'a>, Fault>
        ensures token { IfOk result (λ t. self.old.reader ≡ token_of t ∷ self.new.reader) }
        ensures shorter { OnOk result (length self.new.reader < length self.old.reader) }
    {
        let at = self.at();
        match self.reader.next() {
            Some(token) => Ok(token),
            None => Err(Fault::new(JsonFaultKind::NotJson, at)),
        }
    }

    /// Takes a key, or returns None at the brace that closes the object.
    pub fn key(&mut self) -> Result<Option<&'a str>, Fault>
        ensures key { IfOk result (λ found. MatchOption found
            (self.old.reader ≡ spec.end_object ∷ self.new.reader)
            (λ k. self.old.reader ≡ spec.key k.now ∷ self.new.reader)) }
        ensures shorter { OnOk result (length self.new.reader < length self.old.reader) }
    {
        let at = self.at();
        match self.reader.next() {
            Some(Token::Key(key)) => Ok(Some(key)),
            Some(Token::EndObject) => Ok(None),
            _ => Err(Fault::new(JsonFaultKind::NotJson, at)),
        }
    }
}
