//! The names of warnings.

/// A kind of warnings, which has a name.
#[derive(Clone, Copy, PartialEq, Eq)]
pub enum Rule {
    AliasToNothing,
    BadMessage,
    BadParent,
    BadPattern,
    BundleName,
    ConflictMarker,
    DoubledBackslash,
    EntryInArray,
    ForbiddenWord,
    JoinedStrings,
    MisspelledKey,
    MissingCategory,
    MissingCloseBrace,
    MissingOpenBrace,
    MissingOther,
    MixedForms,
    MixedQuotes,
    MixedScripts,
    Mojibake,
    OneBranchArgument,
    OpenDirection,
    OpenQuote,
    OtherQuotes,
    QuotedArgument,
    RepeatedSelector,
    ReplacementCharacter,
    StrayBrace,
    SuspiciousKey,
    TooLong,
    UnknownAllowed,
    UnknownEscape,
    UnknownSelector,
    UnquotedAddress,
    UnusedCategory,
    BrokenMessage,
    EmptyText,
    MissingKey,
    OtherAddresses,
    OtherArguments,
    OtherBlanks,
    OtherLength,
    OtherNumbers,
    OtherPlaceholders,
    OtherPunctuation,
    OtherTags,
    OtherType,
    SameText,
    UnusedKey,
}

/// All rules. Only one function names the table, as the time to prove a function grows with the square of the
/// table that it names.
const ALL: &[Rule] = &[
    Rule::AliasToNothing,
    Rule::BadMessage,
    Rule::BadParent,
    Rule::BadPattern,
    Rule::BundleName,
    Rule::ConflictMarker,
    Rule::DoubledBackslash,
    Rule::EntryInArray,
    Rule::ForbiddenWord,
    Rule::JoinedStrings,
    Rule::MisspelledKey,
    Rule::MissingCategory,
    Rule::MissingCloseBrace,
    Rule::MissingOpenBrace,
    Rule::MissingOther,
    Rule::MixedForms,
    Rule::MixedQuotes,
    Rule::MixedScripts,
    Rule::Mojibake,
    Rule::OneBranchArgument,
    Rule::OpenDirection,
    Rule::OpenQuote,
    Rule::OtherQuotes,
    Rule::QuotedArgument,
    Rule::RepeatedSelector,
    Rule::ReplacementCharacter,
    Rule::StrayBrace,
    Rule::SuspiciousKey,
    Rule::TooLong,
    Rule::UnknownAllowed,
    Rule::UnknownEscape,
    Rule::UnknownSelector,
    Rule::UnquotedAddress,
    Rule::UnusedCategory,
    Rule::BrokenMessage,
    Rule::EmptyText,
    Rule::MissingKey,
    Rule::OtherAddresses,
    Rule::OtherArguments,
    Rule::OtherBlanks,
    Rule::OtherLength,
    Rule::OtherNumbers,
    Rule::OtherPlaceholders,
    Rule::OtherPunctuation,
    Rule::OtherTags,
    Rule::OtherType,
    Rule::SameText,
    Rule::UnusedKey,
];

/// A line for each rule, in the order of `Rule`: its name, and in a few words what has the warning. As one text the
/// table takes the prover a second; as the cases of a match, a time that grows with the square of their number.
const LINES: &str = "\
alias-to-nothing: an alias that leads to nothing
bad-message: a message that can't be formatted
bad-parent: a %%Parent or %%ALIAS that can't be a locale's parent
bad-pattern: a pattern of a date or a number that ICU reads in another way
bundle-name: a bundle with another name than its file
conflict-marker: a conflict marker of Git
doubled-backslash: two backslashes where one would begin an escape
entry-in-array: a text before a brace in an array
forbidden-word: a word that the settings forbid
joined-strings: two texts side by side in an array
misspelled-key: a key that is nearly one of ICU's
missing-category: a plural category of the language without a message
missing-close-brace: a brace that isn't closed before a line
missing-open-brace: a line or a brace that lacks an opening brace
missing-other: an argument without a message for 'other'
mixed-forms: letters with marks as one character and as two
mixed-quotes: a quoted and an unquoted text side by side
mixed-scripts: a word of Latin and Cyrillic letters that look alike
mojibake: a text that was read in another encoding
one-branch-argument: an argument in only one of the messages to choose from
open-direction: an open control of the writing direction
open-quote: a quoted text over several lines
other-quotes: a value in quotes that aren't \"
quoted-argument: an argument in apostrophes
repeated-selector: two messages for one selector
replacement-character: a character that could not be read
stray-brace: a closing brace in a message that closes no argument
suspicious-key: a key that isn't in quotes and has a space or a sign
too-long: more characters than the settings or a comment allow
unknown-allowed: a comment that allows a warning that doesn't exist
unknown-escape: a backslash before an ordinary letter
unknown-selector: a plural selector that is no category
unquoted-address: an address that isn't in quotes, whose // begins a comment
unused-category: a plural category that the language doesn't have
broken-message: a text that can't be read as a message, as the root's can
empty-text: an empty text, which isn't empty in the root
missing-key: a key that only the root has
other-addresses: addresses of pages other than the root's
other-arguments: arguments of messages other than the root's
other-blanks: blanks at the ends or line feeds other than the root's
other-length: more or fewer items than the root's
other-numbers: numbers other than the root's; only with --deny
other-placeholders: conversions such as %d other than the root's
other-punctuation: an end without the root's punctuation, or its peer; only with --deny
other-tags: tags such as <b> other than the root's
other-type: another type than the root's
same-text: the text of the root, where other locales translate it; each with --deny
unused-key: a key that the root doesn't have";

impl Rule {
    /// Returns all rules: first those of a text alone, then those against the root's, each by name.
    pub fn all() -> &'static [Rule] {
        ALL
    }

    /// Returns the name, and in a few words what has the warning.
    fn words(self) -> (&'static str, &'static str) {
        let line = LINES.lines().nth(self as usize).unwrap_or("");
        line.split_once(": ").unwrap_or((line, ""))
    }

    /// Returns the name: what `--allow`, `--deny` and comments take.
    pub fn name(self) -> &'static str {
        self.words().0
    }

    /// Says in a few words what has the warning.
    pub fn about(self) -> &'static str {
        self.words().1
    }

    /// Checks whether a finding is an error: the program that formats the text fails.
    pub fn is_error(self) -> bool {
        self == Rule::BrokenMessage
    }

    /// Checks whether a rule is off unless it is denied, as what it finds is often meant.
    pub fn is_optional(self) -> bool {
        matches!(
            self,
            Rule::OtherNumbers | Rule::OtherPunctuation | Rule::SameText
        )
    }

    /// Returns the rule with a name.
    pub fn named(name: &str) -> Option<Rule> {
        for rule in Rule::all() {
            if rule.name() == name {
                return Some(*rule);
            }
        }
        None
    }
}

/// A set of rules.
#[derive(Clone, Copy)]
pub struct RuleSet {
    bits: u64,
}

impl RuleSet {
    pub fn none() -> RuleSet {
        RuleSet { bits: 0 }
    }

    /// Returns the set with a further rule.
    pub fn with(self, rule: Rule) -> RuleSet {
        RuleSet {
            bits: self.bits | 1u64 << (rule as u64 % 64),
        }
    }

    pub(crate) fn and(self, other: RuleSet) -> RuleSet {
        RuleSet {
            bits: self.bits | other.bits,
        }
    }

    pub fn has(self, rule: Rule) -> bool {
        self.bits & 1u64 << (rule as u64 % 64) != 0
    }
}

/// The rules whose warnings are omitted, and those whose warnings are errors.
#[derive(Clone, Copy)]
pub struct Levels {
    /// The rules whose warnings are left out.
    pub allowed: RuleSet,
    /// The rules whose warnings are errors.
    pub denied: RuleSet,
    /// The rules that are on although they are off by default.
    pub wanted: RuleSet,
}

impl Levels {
    /// Checks whether warnings of a rule are left out.
    pub(crate) fn leaves_out(self, rule: Rule) -> bool {
        self.allowed.has(rule) || rule.is_optional() && !self.denied.and(self.wanted).has(rule)
    }

    /// Checks whether a finding of a rule is an error.
    pub(crate) fn makes_error(self, rule: Rule) -> bool {
        self.denied.has(rule) || rule.is_error()
    }

    /// Returns the levels at which each rule warns.
    pub fn warning() -> Levels {
        Levels {
            allowed: RuleSet::none(),
            denied: RuleSet::none(),
            wanted: RuleSet::none(),
        }
    }
}
