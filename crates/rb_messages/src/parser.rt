ghost use Rattle.std.specs.Prelude.{◌≤◌, length};

use crate::characters::{
    APOSTROPHE, BAR, COLON, EQUALS, HASH, LEFT_BRACE, LESS, LESS_OR_EQUAL, RIGHT_BRACE, is_exactly,
};
use crate::fault::{MessageError, MessageFault};
use crate::head::{fault_at, read_head};
use crate::numeral::is_number;
use crate::open::{DEPTH_LIMIT, LENGTH_LIMIT, OpenArgument};
use crate::part::{ArgumentType, Part, Span};
use crate::skip::{find_quote_end, skip_name, skip_numerals, skip_white};
use std::alloc::Global;

/// The construct that the next unit belongs to.
#[derive(Clone, Copy)]
enum Place {
    Message,
    /// The messages of a plural or select argument: a selector or the closing brace.
    Selectors,
    /// The messages of a choice argument: a number.
    Choices,
}

/// Reads the parts of a message one by one, by the rules of ICU's `MessagePattern`, where an apostrophe
/// begins a quoted text only before a character of the syntax.
#[derive(Drop)]
pub struct MessageParser<'a> {
    pub text: &'a [u16],
    /// The offset of the next unit.
    pub at: usize,
    place: Place,
    /// The arguments around it, each in a message of the one before it.
    open: Vec<OpenArgument>,
    ghost within: { at ≤ length text.now },
}

impl<'a> MessageParser<'a> {
    ghost use Rattle.std.specs.Prelude.{◌≡◌, ◌+◌, ◌<◌, IfSome};
    ghost use Rattle.rb_messages.specs.Parts.{IsBetween, Reads, ReadsNext};

    pub fn new(alloc: Global, text: &'a [u16]) -> MessageParser<'a>
        ensures text { result.text.now ≡ text.now }
        ensures at { result.at ≡ 0 }
    {
        MessageParser {
            text,
            at: 0,
            place: Place::Message,
            open: Vec::new(alloc),
        }
    }

    /// Returns the number of arguments whose messages aren't over.
    pub fn depth(&self) -> usize {
        self.open.len()
    }

    /// Returns the type of the innermost argument, in whose message the next unit is.
    fn parent(&self) -> ArgumentType {
        match self.open.last() {
            Some(open) => open.of_type,
            None => ArgumentType::Any,
        }
    }

    /// Reads on to the next part. Returns None at the end of the text.
    pub fn next_part(&mut self) -> Result<Option<Part>, MessageError>
        ensures same { self.new.text.now ≡ self.old.text.now }
        ensures reads { ReadsNext (length self.old.text.now) self.old.at self.new.at result }
    {
        while self.at < self.text.len() {
            if let Some(part) = self.step()? {
                return Ok(Some(part));
            }
        }
        match self.open.last() {
            Some(open) => Err(fault_at(MessageFault::OpenBrace, open.first.min(self.text.len()))),
            None => Ok(None),
        }
    }

    /// Reads one step: some units without a part, or a part.
    fn step(&mut self) -> Result<Option<Part>, MessageError>
        requires { self.old.at < length self.old.text.now }
        ensures same { self.new.text.now ≡ self.old.text.now }
        ensures reads { Reads (length self.old.text.now) self.old.at self.new.at result }
    {
        match self.place {
            Place::Message => self.message(),
            Place::Selectors => self.selector(),
            Place::Choices => self.choice(),
        }
    }

    /// Reads one step of a message.
    fn message(&mut self) -> Result<Option<Part>, MessageError>
        requires { self.old.at < length self.old.text.now }
        ensures same { self.new.text.now ≡ self.old.text.now }
        ensures reads { Reads (length self.old.text.now) self.old.at self.new.at result }
    {
        let at = self.at;
        let parent = self.parent();
        match self.text[at] {
            APOSTROPHE => Ok(self.apostrophe(parent)),
            LEFT_BRACE => self.argument(),
            HASH if parent.has_categories() => {
                self.at = at + 1;
                Ok(Some(Part::Hash(at)))
            }
            BAR if parent == ArgumentType::Choice => {
                self.at = at + 1;
                self.place = Place::Choices;
                Ok(None)
            }
            RIGHT_BRACE => Ok(self.close(parent)),
            _ => {
                self.at = at + 1;
                Ok(None)
            }
        }
    }

    /// Ends a message, and with it an argument of choices. Outside arguments the brace is a stray one.
    fn close(&mut self, parent: ArgumentType) -> Option<Part>
        requires { self.old.at < length self.old.text.now }
        ensures same { self.new.text.now ≡ self.old.text.now }
        ensures part { IfSome result (IsBetween self.old.at self.new.at) }
        ensures moves { self.new.at ≡ self.old.at + 1 }
    {
        let at = self.at;
        self.at = at + 1;
        if self.open.is_empty() {
            return Some(Part::Stray(at));
        }
        if parent == ArgumentType::Choice {
            let _ = self.open.pop();
            return Some(Part::End(at));
        }
        self.place = Place::Selectors;
        None
    }

    /// Reads a quoted text, two apostrophes, or one that is plain text.
    fn apostrophe(&mut self, parent: ArgumentType) -> Option<Part>
        requires { self.old.at < length self.old.text.now }
        ensures same { self.new.text.now ≡ self.old.text.now }
        ensures part { IfSome result (IsBetween self.old.at self.new.at) }
        ensures moves { self.old.at < self.new.at }
    {
        let first = self.at + 1;
        if first >= self.text.len() {
            self.at = first;
            return None;
        }
        let unit = self.text[first];
        if unit == APOSTROPHE {
            self.at = first + 1;
            return None;
        }
        let is_syntax = match unit {
            LEFT_BRACE | RIGHT_BRACE => true,
            BAR => parent == ArgumentType::Choice,
            HASH => parent.has_categories(),
            _ => false,
        };
        if !is_syntax {
            self.at = first;
            return None;
        }
        let past = find_quote_end(self.text, first + 1);
        self.at = if past < self.text.len() {
            past + 1
        } else {
            past
        };
        Some(Part::Quoted(Span { first, past }))
    }

    /// Reads the beginning of an argument.
    fn argument(&mut self) -> Result<Option<Part>, MessageError>
        requires { self.old.at < length self.old.text.now }
        ensures same { self.new.text.now ≡ self.old.text.now }
        ensures reads { Reads (length self.old.text.now) self.old.at self.new.at result }
    {
        let head = read_head(self.text, self.at)?;
        let argument = head.argument;
        self.at = head.past;
        if argument.of_type.has_messages() {
            self.open.push(OpenArgument {
                of_type: argument.of_type,
                first: argument.name.first,
                has_begun: false,
                has_other: false,
            })?;
            self.place = if argument.of_type == ArgumentType::Choice {
                Place::Choices
            } else {
                Place::Selectors
            };
        }
        Ok(Some(Part::Argument(argument)))
    }

    /// Notes that a message or an offset of the innermost argument begins.
    fn begin(&mut self, is_other: bool)
        ensures text { self.new.text.now ≡ self.old.text.now }
        ensures at { self.new.at ≡ self.old.at }
    {
        if let Some(open) = self.open.last_mut() {
            open.has_begun = true;
            open.has_other = open.has_other || is_other;
        }
    }

    /// Begins a message of the innermost argument.
    fn branch(&mut self, selector: Span, at: usize) -> Result<Option<Part>, MessageError>
        requires from { self.old.at ≤ selector.first }
        requires order { selector.first ≤ selector.past }
        requires after { selector.past < at }
        requires within { at ≤ length self.old.text.now }
        ensures same { self.new.text.now ≡ self.old.text.now }
        ensures reads { Reads (length self.old.text.now) self.old.at self.new.at result }
    {
        if self.open.len() > DEPTH_LIMIT {
            return Err(fault_at(MessageFault::TooDeep, selector.first));
        }
        if selector.past - selector.first > LENGTH_LIMIT {
            return Err(fault_at(MessageFault::TooLong, selector.first));
        }
        self.begin(is_exactly(selector.of(self.text), b"other"));
        self.place = Place::Message;
        self.at = at;
        Ok(Some(Part::Branch(selector)))
    }

    /// Reads the number and the separator before a message of a choice argument.
    fn choice(&mut self) -> Result<Option<Part>, MessageError>
        requires { self.old.at < length self.old.text.now }
        ensures same { self.new.text.now ≡ self.old.text.now }
        ensures reads { Reads (length self.old.text.now) self.old.at self.new.at result }
    {
        let first = skip_white(self.text, self.at);
        let past = skip_numerals(self.text, first);
        let next = skip_white(self.text, past);
        if !is_number(&self.text[first..past], true) {
            return Err(fault_at(MessageFault::Number, first));
        }
        if next >= self.text.len() || !matches!(self.text[next], HASH | LESS | LESS_OR_EQUAL) {
            return Err(fault_at(MessageFault::NoMessage, first));
        }
        self.branch(Span { first, past }, next + 1)
    }

    /// Reads a selector, an offset, or the closing brace of an argument.
    fn selector(&mut self) -> Result<Option<Part>, MessageError>
        requires { self.old.at < length self.old.text.now }
        ensures same { self.new.text.now ≡ self.old.text.now }
        ensures reads { Reads (length self.old.text.now) self.old.at self.new.at result }
    {
        let first = skip_white(self.text, self.at);
        if first >= self.text.len() {
            self.at = self.text.len();
            return Ok(None);
        }
        match self.text[first] {
            RIGHT_BRACE => self.end(first),
            EQUALS if self.parent().has_categories() => {
                let past = skip_numerals(self.text, first + 1);
                if !is_number(&self.text[first + 1..past], false) {
                    return Err(fault_at(MessageFault::Number, first));
                }
                self.selected(Span { first, past })
            }
            _ => self.word(first),
        }
    }

    /// Reads a selector that is a word, or an offset.
    fn word(&mut self, first: usize) -> Result<Option<Part>, MessageError>
        requires from { self.old.at ≤ first }
        requires within { first < length self.old.text.now }
        ensures same { self.new.text.now ≡ self.old.text.now }
        ensures reads { Reads (length self.old.text.now) self.old.at self.new.at result }
    {
        let past = skip_name(self.text, first);
        if past == first {
            return Err(fault_at(MessageFault::Selector, first));
        }
        let is_offset = self.parent().has_categories()
            && past < self.text.len()
            && self.text[past] == COLON
            && is_exactly(&self.text[first..past], b"offset");
        if is_offset {
            self.offset(first, past + 1)
        } else {
            self.selected(Span { first, past })
        }
    }

    /// Reads the opening brace after a selector.
    fn selected(&mut self, selector: Span) -> Result<Option<Part>, MessageError>
        requires from { self.old.at ≤ selector.first }
        requires order { selector.first ≤ selector.past }
        requires within { selector.past ≤ length self.old.text.now }
        ensures same { self.new.text.now ≡ self.old.text.now }
        ensures reads { Reads (length self.old.text.now) self.old.at self.new.at result }
    {
        let next = skip_white(self.text, selector.past);
        if next >= self.text.len() || self.text[next] != LEFT_BRACE {
            return Err(fault_at(MessageFault::NoMessage, selector.first));
        }
        self.branch(selector, next + 1)
    }

    /// Reads the number of an offset.
    fn offset(&mut self, first: usize, at: usize) -> Result<Option<Part>, MessageError>
        requires from { self.old.at < at }
        requires first { first ≤ at }
        requires within { at ≤ length self.old.text.now }
        ensures same { self.new.text.now ≡ self.old.text.now }
        ensures reads { Reads (length self.old.text.now) self.old.at self.new.at result }
    {
        let has_begun = match self.open.last() {
            Some(open) => open.has_begun,
            None => false,
        };
        if has_begun {
            return Err(fault_at(MessageFault::Offset, first));
        }
        let from = skip_white(self.text, at);
        let past = skip_numerals(self.text, from);
        if !is_number(&self.text[from..past], false) {
            return Err(fault_at(MessageFault::Number, first));
        }
        self.begin(false);
        self.at = past;
        Ok(None)
    }

    /// Ends the innermost argument at its closing brace.
    fn end(&mut self, brace: usize) -> Result<Option<Part>, MessageError>
        requires from { self.old.at ≤ brace }
        requires within { brace < length self.old.text.now }
        ensures same { self.new.text.now ≡ self.old.text.now }
        ensures reads { Reads (length self.old.text.now) self.old.at self.new.at result }
    {
        let has_other = match self.open.pop() {
            Some(open) => open.has_other,
            None => true,
        };
        if !has_other {
            return Err(fault_at(MessageFault::MissingOther, brace));
        }
        self.place = Place::Message;
        self.at = brace + 1;
        Ok(Some(Part::End(brace)))
    }
}
