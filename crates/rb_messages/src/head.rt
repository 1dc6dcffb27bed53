//! Reads the beginning of an argument.
ghost use Rattle.std.specs.Prelude.{◌≡◌, ◌<◌, ◌≤◌, length, MatchResult};
ghost use Rattle.rb_messages.specs.Parts.{IsArgument};

use crate::characters::{APOSTROPHE, COMMA, LEFT_BRACE, RIGHT_BRACE, is_word};
use crate::fault::{MessageError, MessageFault};
use crate::numeral::{is_all_digits, is_argument_number};
use crate::open::LENGTH_LIMIT;
use crate::part::{Argument, ArgumentType, Span};
use crate::skip::{find_apostrophe, skip_letters, skip_name, skip_white};

/// An argument, and the offset after it or after the comma before its messages.
#[derive(Clone, Copy)]
pub(crate) struct Head {
    pub(crate) argument: Argument,
    pub(crate) past: usize,
}

pub(crate) fn fault_at(fault: MessageFault, at: usize) -> MessageError
    ensures { result.at ≡ at }
{
    MessageError { fault, at }
}

/// Returns the fault of an argument's name, if it has one.
fn name_fault(name: &[u16]) -> Option<MessageFault> {
    if name.is_empty() {
        return Some(MessageFault::Argument);
    }
    if name.len() > LENGTH_LIMIT {
        return Some(MessageFault::TooLong);
    }
    if is_all_digits(name) && !is_argument_number(name) {
        return Some(MessageFault::ArgumentNumber);
    }
    None
}

const TYPES: [(&[u8], ArgumentType); 10] = [
    (b"number", ArgumentType::Number),
    (b"date", ArgumentType::Date),
    (b"time", ArgumentType::Time),
    (b"spellout", ArgumentType::Spellout),
    (b"ordinal", ArgumentType::Ordinal),
    (b"duration", ArgumentType::Duration),
    (b"choice", ArgumentType::Choice),
    (b"plural", ArgumentType::Plural),
    (b"selectordinal", ArgumentType::SelectOrdinal),
    (b"select", ArgumentType::Select),
];

/// Returns the type with a name, in letters of any case.
fn type_of(units: &[u16]) -> Option<ArgumentType> {
    for (word, of_type) in TYPES {
        if is_word(units, word) {
            return Some(of_type);
        }
    }
    None
}

/// Returns the offset after a unit of a style, and the number of braces that are open after it.
fn after_style_unit(text: &[u16], at: usize, open: usize) -> Result<(usize, usize), MessageError>
    requires { at < length text.now }
    ensures { MatchResult result
        (λ next. (at < next.0) × (next.0 ≤ length text.now))
        (λ e. e.at ≤ length text.now) }
{
    match text[at] {
        APOSTROPHE => {
            let past = find_apostrophe(text, at + 1);
            if past >= text.len() {
                return Err(fault_at(MessageFault::OpenQuote, at));
            }
            Ok((past + 1, open))
        }
        LEFT_BRACE => Ok((at + 1, open.saturating_add(1))),
        RIGHT_BRACE => Ok((at + 1, open.saturating_sub(1))),
        _ => Ok((at + 1, open)),
    }
}

/// Returns the offset of the brace that closes an argument, from the first unit of its style on.
fn find_style_end(text: &[u16], first: usize, brace: usize) -> Result<usize, MessageError>
    requires from { first ≤ length text.now }
    requires brace { brace ≤ length text.now }
    ensures { MatchResult result
        (λ end. (first ≤ end) × (end < length text.now))
        (λ e. e.at ≤ length text.now) }
{
    let mut at = first;
    let mut open = 0;
    while at < text.len() {
        if text[at] == RIGHT_BRACE && open == 0 {
            return Ok(at);
        }
        (at, open) = after_style_unit(text, at, open)?;
    }
    Err(fault_at(MessageFault::OpenBrace, brace))
}

/// Reads the style of an argument and its closing brace.
fn read_style(
    text: &[u16],
    brace: usize,
    argument: Argument,
    at: usize,
) -> Result<Head, MessageError>
    requires after { argument.name.past ≤ at }
    requires order { argument.name.first ≤ argument.name.past }
    requires from { brace < argument.name.first }
    requires within { at ≤ length text.now }
    ensures { MatchResult result
        (λ h. (h.past ≤ length text.now) × IsArgument brace h.past h.argument)
        (λ e. e.at ≤ length text.now) }
{
    let past = find_style_end(text, at, brace)?;
    if past - at > LENGTH_LIMIT {
        return Err(fault_at(MessageFault::TooLong, at));
    }
    let style = Span { first: at, past };
    Ok(Head {
        argument: Argument {
            name: argument.name,
            of_type: argument.of_type,
            style: Some(style),
        },
        past: past + 1,
    })
}

/// Reads the type of an argument, and its style if that has no messages.
fn read_type(text: &[u16], brace: usize, name: Span, at: usize) -> Result<Head, MessageError>
    requires after { name.past ≤ at }
    requires order { name.first ≤ name.past }
    requires from { brace < name.first }
    requires within { at ≤ length text.now }
    ensures { MatchResult result
        (λ h. (h.past ≤ length text.now) × IsArgument brace h.past h.argument)
        (λ e. e.at ≤ length text.now) }
{
    let first = skip_white(text, at);
    let past = skip_letters(text, first);
    let next = skip_white(text, past);
    if next >= text.len() {
        return Err(fault_at(MessageFault::OpenBrace, brace));
    }
    let unit = text[next];
    if past == first || unit != COMMA && unit != RIGHT_BRACE {
        return Err(fault_at(MessageFault::Argument, name.first));
    }
    let Some(of_type) = type_of(&text[first..past]) else {
        return Err(fault_at(MessageFault::UnknownType, first));
    };
    let argument = Argument {
        name,
        of_type,
        style: None,
    };
    if unit == COMMA && !of_type.has_messages() {
        return read_style(text, brace, argument, next + 1);
    }
    if unit == RIGHT_BRACE && of_type.has_messages() {
        return Err(fault_at(MessageFault::NoMessages, first));
    }
    Ok(Head {
        argument,
        past: next + 1,
    })
}

/// Reads an argument from its opening brace on.
pub(crate) fn read_head(text: &[u16], brace: usize) -> Result<Head, MessageError>
    requires { brace < length text.now }
    ensures { MatchResult result
        (λ h. (h.past ≤ length text.now) × IsArgument brace h.past h.argument)
        (λ e. e.at ≤ length text.now) }
{
    let first = skip_white(text, brace + 1);
    let past = skip_name(text, first);
    let next = skip_white(text, past);
    if next >= text.len() {
        return Err(fault_at(MessageFault::OpenBrace, brace));
    }
    if let Some(fault) = name_fault(&text[first..past]) {
        return Err(fault_at(fault, first));
    }
    let name = Span { first, past };
    match text[next] {
        COMMA => read_type(text, brace, name, next + 1),
        RIGHT_BRACE => Ok(Head {
            argument: Argument {
                name,
                of_type: ArgumentType::Any,
                style: None,
            },
            past: next + 1,
        }),
        _ => Err(fault_at(MessageFault::Argument, first)),
    }
}
