use crate::argument::{Argument, CONFIG, Kind, NO_CONFIG, ROOT};
use crate::description::Description;

const LINT_HELP: &str = "\
Examples:
  resb lint .
  resb lint texts/*.txt
  resb lint --strict --allow bundle-name --deny joined-strings texts/*.txt
  resb lint --against texts/root.txt texts/de.txt
  resb lint --name texts/de.txt - < unsaved.txt

TEXT - is standard input. With --against it is also said which keys only one of a text and the root's
has, and where an item has another type or other placeholders, as {0} and {name}. A comment
// resb-lint: allow NAME leaves warnings out of the next entry.

A folder stands for the texts of its modules, each compared with its root: those that the settings
of the project name, or else the folders with a root.txt.

Status:
  0  each text is compiled; there may be warnings, as de.txt:3:9: warning: .. [joined-strings]
  1  a text has an error, as de.txt:3:9: error: .., or can't be read; with --strict, or a warning
  2  the command line or the settings are invalid, a folder has no module, or standard output can't
     be written";

/// `lint [OPTIONS] TEXT..`
const LINT: Description = Description {
    name: "lint",
    about: "Says what is doubtful in bundle texts, and where an error really began",
    arguments: &[
        Argument(
            "against",
            Kind::Option("ROOT"),
            "the bundle text of the root locale, to compare with",
        ),
        ROOT,
        Argument(
            "allow",
            Kind::Options("NAME"),
            "leave out the warnings with this name",
        ),
        Argument(
            "deny",
            Kind::Options("NAME"),
            "take the warnings with this name for errors",
        ),
        Argument("strict", Kind::Flag, "status 1 also for a warning"),
        Argument(
            "all",
            Kind::Flag,
            "print all warnings of a text, not only the first 100",
        ),
        Argument(
            "format",
            Kind::Option("FORMAT"),
            "text, full, json, sarif or github; full by default on a terminal, and else text",
        ),
        Argument(
            "color",
            Kind::Option("WHEN"),
            "auto, always or never; auto by default: on a terminal, unless NO_COLOR is set",
        ),
        Argument(
            "name",
            Kind::Option("FILE"),
            "the name of the text on standard input",
        ),
        CONFIG,
        NO_CONFIG,
        Argument("list", Kind::Flag, "print the names of all warnings"),
        Argument(
            "TEXT",
            Kind::WordsUnless("TEXT", "list"),
            "a bundle text, in UTF-8, or a folder of modules",
        ),
    ],
    end: LINT_HELP,
};

pub fn lint() -> Description {
    LINT
}

const FMT_HELP: &str = "\
Examples:
  resb fmt .
  resb fmt --check texts/*.txt
  resb fmt - < unsaved.txt

Only white space changes: comments, empty lines between entries, quotes and the order of entries
stay. TEXT - is standard input, and is printed formatted.

Status:
  0  each text is formatted
  1  a text is refused, as de.txt:3: OpenQuote, or can't be read or written; with --check or --diff,
     or formatting would change it
  2  the command line or the settings are invalid, a folder has no module, or standard output can't
     be written";

/// `fmt [--check|--diff] TEXT..`
const FMT: Description = Description {
    name: "fmt",
    about: "Formats bundle texts in place, and keeps their comments",
    arguments: &[
        Argument(
            "check",
            Kind::Flag,
            "write nothing; print the names of texts that would change",
        ),
        Argument("diff", Kind::Flag, "write nothing; print what would change"),
        Argument("quiet", Kind::ShortFlag('q'), "no line on success"),
        CONFIG,
        NO_CONFIG,
        Argument(
            "TEXT",
            Kind::Words("TEXT"),
            "a bundle text, in UTF-8, or a folder of modules",
        ),
    ],
    end: FMT_HELP,
};

pub fn fmt() -> Description {
    FMT
}

const EXPLAIN_HELP: &str = "\
Examples:
  resb explain
  resb explain FormatVersion

Status:
  0  the word is explained, or all words are listed
  1  there is no such word
  2  the command line is invalid, or standard output can't be written";

/// `explain [WORD]`
const EXPLAIN: Description = Description {
    name: "explain",
    about: "Says what an error word means, its likely causes and what to do",
    arguments: &[Argument(
        "WORD",
        Kind::OptionalWord,
        "an error word,
        as BadInt; none lists all",
    )],
    end: EXPLAIN_HELP,
};

pub fn explain() -> Description {
    EXPLAIN
}

const INIT_HELP: &str = "\
Examples:
  resb init
  resb init texts

Status:
  0  the file is written
  2  the command line is invalid, the folder can't be read, or the file is there or can't be
     written";

/// `init [FOLDER]`
const INIT: Description = Description {
    name: "init",
    about: "Writes first settings of a project, resb.toml, with a module for each root.txt below",
    arguments: &[Argument(
        "FOLDER",
        Kind::OptionalWord,
        "the folder of the project; the current one without it",
    )],
    end: INIT_HELP,
};

pub fn init() -> Description {
    INIT
}
