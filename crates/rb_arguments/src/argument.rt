ghost use Rattle.std.specs.Prelude.{◌≡◌, IfOk};
ghost use Rattle.rb_arguments.specs.inner.Made.{IsMade};

use clap::builder::ValueParser;
use clap::{Arg, ArgAction};
use std::alloc::{AllocError, Global};

const LARGEST_LIMIT: u64 = 9_223_372_036_854_775_808;

/// The ways to give an argument.
#[derive(Clone, Copy)]
pub enum Kind {
    /// A required word.
    Word,
    OptionalWord,
    /// A word that may be missing only with this option.
    WordUnless(&'static str),
    /// At least one word; the help shows them by this name.
    Words(&'static str),
    /// At least one word, which may be missing only with an option; the help shows them by the first
    /// name.
    WordsUnless(&'static str, &'static str),
    /// Any number of words; the help shows them by this name.
    AnyWords(&'static str),
    /// Any number of words, only with this option.
    WordsWith(&'static str),
    /// `--NAME VALUE`; the help shows the value by this name.
    Option(&'static str),
    /// `--NAME VALUE`, only with the second option; the help shows the value by the first name.
    OptionWith(&'static str, &'static str),
    /// `--NAME VALUE`, any number of times; the help shows the value by this name.
    Options(&'static str),
    /// `--NAME N`, with a number from 1 to 2^63.
    Limit,
    /// `--NAME`
    Flag,
    /// `--NAME`, only with this option.
    FlagWith(&'static str),
    /// `--NAME`, not with this option.
    FlagWithout(&'static str),
    /// `--NAME`, only with the first option and not with the second.
    FlagIf(&'static str, &'static str),
    /// `--NAME`, or a dash and this letter.
    ShortFlag(char),
}

/// An argument of a command: its name, the way to give it, and its help.
#[derive(Clone, Copy)]
pub struct Argument(pub &'static str, pub Kind, pub &'static str);

impl Argument {
    /// Makes clap's argument.
    pub fn made<'a>(self, alloc: Global) -> Result<Arg<'a>, AllocError>
        ensures name { IfOk result (λ arg. arg.id.now ≡ self.0.now) }
        ensures kind { IfOk result (IsMade self.0.now self.1) }
    {
        let Argument(name, kind, help) = self;
        let made = Arg::new(alloc, name).help(help);
        match kind {
            Kind::Word => Ok(made.required(true)),
            Kind::OptionalWord => Ok(made),
            Kind::WordUnless(option) => made.required_unless_present(option),
            Kind::Words(shown) => Ok(made.required(true).num_args(1..).value_name(shown)),
            Kind::WordsUnless(shown, option) => made
                .num_args(1..)
                .value_name(shown)
                .required_unless_present(option),
            Kind::AnyWords(shown) => Ok(made.num_args(0..).value_name(shown)),
            Kind::WordsWith(option) => made.num_args(0..).requires_arg(option),
            Kind::Option(shown) => Ok(made.long(name).value_name(shown)),
            Kind::OptionWith(shown, option) => made
                .long(name)
                .value_name(shown)
                .requires_arg(option),
            Kind::Options(shown) => Ok(made.long(name).value_name(shown).action(ArgAction::Append)),
            Kind::Limit => Ok(
                made.long(name)
                    .value_name("N")
                    .value_parser(ValueParser::unsigned(1, LARGEST_LIMIT)),
            ),
            Kind::Flag => Ok(made.long(name).action(ArgAction::SetTrue)),
            Kind::FlagWith(option) => made
                .long(name)
                .action(ArgAction::SetTrue)
                .requires_arg(option),
            Kind::FlagWithout(option) => made
                .long(name)
                .action(ArgAction::SetTrue)
                .conflicts_with(option),
            Kind::FlagIf(option, other) => made
                .long(name)
                .action(ArgAction::SetTrue)
                .requires_arg(option)?
                .conflicts_with(other),
            Kind::ShortFlag(letter) => Ok(made.long(name).short(letter).action(ArgAction::SetTrue)),
        }
    }
}

pub const PARENTS: Argument = Argument(
    "parents",
    Kind::Option("FILE"),
    "a bundle text with the explicit parents, at parentLocales",
);

pub const CLDR_PARENTS: Argument = Argument(
    "cldr-parents",
    Kind::FlagWithout("parents"),
    "the explicit parents of CLDR, in place of --parents",
);

pub const CONFIG: Argument = Argument(
    "config",
    Kind::Option("FILE"),
    "the settings of the project, in place of the nearest resb.toml upward",
);

pub const NO_CONFIG: Argument = Argument(
    "no-config",
    Kind::FlagWithout("config"),
    "read no settings of a project",
);

pub const ROOT: Argument = Argument("root", Kind::Option("ROOT"), "the same as --against");

pub const PATH: Argument = Argument(
    "PATH",
    Kind::Word,
    "keys and indexes, with slashes between them",
);
