//! What strings for people are made of: ICU's message patterns (`MessageFormat`) and the plural categories of languages;
//! what a translation keeps of its source's string, such as tags, and damage in one string.
#![tactic(auto)]

mod blanks;
mod category;
mod characters;
mod damage;
mod endings;
mod fault;
mod head;
mod mark;
mod numeral;
mod open;
mod parser;
mod part;
mod pattern;
mod plurals;
mod scan;
mod skip;
mod units;
mod uses;
mod words;

pub use blanks::{Edge, other_blanks};
pub use category::{Categories, Category};
pub use damage::{Damage, damage_in};
pub use endings::{Ending, lacking_ending};
pub use fault::{MessageError, MessageFault};
pub use mark::{Mark, MarkKind, marks_lacking};
pub use open::DEPTH_LIMIT;
pub use parser::MessageParser;
pub use part::{Argument, ArgumentType, Part, Span, ValueKind};
pub use pattern::{PatternFault, date_fault, number_fault};
pub use scan::marks_of;
pub use uses::{Named, Use, Uses};
pub use words::{character_count, find_word};
