ghost use Rattle.std.specs.Prelude.{◌≡◌, option_map};
ghost use Rattle.rb_grammar.specs.Reading.{first_word, all_words, is_no_fallback_word, word_fault};
ghost use Rattle.rb_parser.specs.inner.Views.{word_of};

use rb_lexer::SourceKind;

/// The type before a value's brace.
#[derive(Clone, Copy)]
pub enum Word {
    Leaf(Leaf),
    Table,
    Array,
}

/// A type without children.
#[derive(Clone, Copy)]
pub enum Leaf {
    String,
    Alias,
    Binary,
    Int,
    Ints,
}

// `string`, `alias`, `binary`, `bin`, `integer`, `int`, `intvector`, `table`, `array`,
// `table(nofallback)`
const STRING: [u16; 6] = [0x73, 0x74, 0x72, 0x69, 0x6E, 0x67];

const ALIAS: [u16; 5] = [0x61, 0x6C, 0x69, 0x61, 0x73];

const BINARY: [u16; 6] = [0x62, 0x69, 0x6E, 0x61, 0x72, 0x79];

const BIN: [u16; 3] = [0x62, 0x69, 0x6E];

const INTEGER: [u16; 7] = [0x69, 0x6E, 0x74, 0x65, 0x67, 0x65, 0x72];

const INT: [u16; 3] = [0x69, 0x6E, 0x74];

const INTVECTOR: [u16; 9] = [0x69, 0x6E, 0x74, 0x76, 0x65, 0x63, 0x74, 0x6F, 0x72];

const TABLE: [u16; 5] = [0x74, 0x61, 0x62, 0x6C, 0x65];

const ARRAY: [u16; 5] = [0x61, 0x72, 0x72, 0x61, 0x79];

const NO_FALLBACK_TABLE: [u16; 17] = [
    0x74, 0x61, 0x62, 0x6C, 0x65, 0x28, 0x6E, 0x6F, 0x66, 0x61, 0x6C, 0x6C, 0x62, 0x61, 0x63, 0x6B,
    0x29,
];

pub fn is_no_fallback_table(units: &[u16]) -> bool
    ensures { result ≡ is_no_fallback_word units.now }
{
    units == NO_FALLBACK_TABLE.as_slice()
}

/// Returns the error of a text that names no type of a value.
pub fn word_fault(units: &[u16]) -> SourceKind
    ensures { result ≡ word_fault units.now }
{
    if is_no_fallback_table(units) {
        SourceKind::Unexpected
    } else {
        SourceKind::UnknownType
    }
}

impl Word {
    pub fn read(units: &[u16]) -> Option<Word>
        ensures { result ≡ option_map word_of (first_word units.now all_words) }
    {
        if units == STRING.as_slice() {
            Some(Word::Leaf(Leaf::String))
        } else if units == ALIAS.as_slice() {
            Some(Word::Leaf(Leaf::Alias))
        } else if units == BINARY.as_slice() || units == BIN.as_slice() {
            Some(Word::Leaf(Leaf::Binary))
        } else if units == INTEGER.as_slice() || units == INT.as_slice() {
            Some(Word::Leaf(Leaf::Int))
        } else if units == INTVECTOR.as_slice() {
            Some(Word::Leaf(Leaf::Ints))
        } else if units == TABLE.as_slice() {
            Some(Word::Table)
        } else if units == ARRAY.as_slice() {
            Some(Word::Array)
        } else {
            None
        }
    }
}
