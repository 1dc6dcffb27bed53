use crate::argument::{Argument, CONFIG, Kind, NO_CONFIG, PATH};
use crate::description::Description;

/// The file to write, which may be missing only with `--to`.
const OUTPUT: Argument = Argument(
    "OUT",
    Kind::WordUnless("to"),
    "the file to write; with --to, a further text",
);

const FILE: Argument = Argument("FILE", Kind::Word, "a .res file");

const COMPILE_HELP: &str = "\
Examples:
  resb compile de.txt de.res
  resb compile --to bundles texts/*.txt
  resb compile --to bundles --from texts texts/*/*.txt
  resb compile --json de.json de.res

IN - is standard input, and OUT - is standard output. OUT is never IN, nor a file whose name ends
in .txt, and a file that is no bundle only with --force. With --to each text is compiled to
DIR/STEM.res. With --from SRC, the folder that the texts are in, SRC/menu/de.txt is compiled to
DIR/menu/de.res, and folders that are missing are made. With --json IN is what resb json prints of a
whole bundle, in any layout.

Status:
  0  OUT is written; its length is printed
  1  the text is refused, as de.txt:3: BadInt or de.json:3:9: BadNumber /a/b, or out of memory;
     nothing is written. With --to, where this or an unreadable file is the fate of any text
  2  the command line is invalid, or a file or standard output can't be read or written";

/// `compile IN OUT`, or `compile --to DIR TEXT..`
const COMPILE: Description = Description {
    name: "compile",
    about: "Compiles bundle texts to .res files",
    arguments: &[
        Argument(
            "to",
            Kind::Option("DIR"),
            "compile many texts into this folder",
        ),
        Argument(
            "from",
            Kind::OptionWith("SRC", "to"),
            "with --to, keep the folders of the texts in this folder",
        ),
        Argument(
            "json",
            Kind::Flag,
            "read JSON, as resb json prints it, in place of bundle texts",
        ),
        Argument(
            "no-fallback",
            Kind::FlagWith("json"),
            "set the flag nofallback, which JSON doesn't have",
        ),
        Argument("force", Kind::Flag, "replace a file that is no bundle, too"),
        Argument("quiet", Kind::ShortFlag('q'), "no line on success"),
        Argument("IN", Kind::Word, "a bundle text, in UTF-8"),
        OUTPUT,
        Argument("TEXT", Kind::WordsWith("to"), "with --to, further texts"),
    ],
    end: COMPILE_HELP,
};

pub fn compile() -> Description {
    COMPILE
}

const CHECK_HELP: &str = "\
Examples:
  resb check de.res
  resb check bundles/*.res
  resb check --json bundles/*.res

Each line begins with the file's name where there is more than one file. With --json each file that
can be read has a JSON object in a line of standard output, with its name in file, and in visits the
number of its tables and arrays with data, or in code the error's name.

Status:
  0  each file is a bundle; the number of its tables and arrays with data is printed
  1  a file is refused, as de.res: KeyOrder, or out of memory; or one of many can't be read
  2  the command line is invalid, the file can't be read, or standard output can't be written";

/// `check FILE..`
const CHECK: Description = Description {
    name: "check",
    about: "Checks .res files",
    arguments: &[
        Argument("json", Kind::Flag, "an object for each file, in a line"),
        Argument("quiet", Kind::ShortFlag('q'), "no line on success"),
        Argument("FILE", Kind::Words("FILE"), "a .res file"),
    ],
    end: CHECK_HELP,
};

pub fn check() -> Description {
    CHECK
}

const GET_HELP: &str = "\
Example:
  resb get de.res menu/close

An alias on the way is printed and not followed. The empty path '' is the whole bundle. With --raw a
String is printed as its text, and any other item as JSON. FILE - is standard input.

Status:
  0  the item is printed, as JSON
  1  the file is refused, or has no such item, as menu/shut: Missing, or out of memory
  2  the command line is invalid, the file can't be read, or standard output can't be written";

/// `get FILE PATH`
const GET: Description = Description {
    name: "get",
    about: "Prints the item at a path of a .res file",
    arguments: &[
        Argument("raw", Kind::Flag, "print a String as its text, not as JSON"),
        FILE,
        PATH,
    ],
    end: GET_HELP,
};

pub fn get() -> Description {
    GET
}

const TEXT_HELP: &str = "\
Example:
  resb text de.res > de.txt

The text compiles to a file of the same bundle. A file doesn't have the bundle's name.

Status:
  0  the text is printed
  1  the file is refused, as de.res: KeyOrder, or its text would be too large, or out of memory
  2  the command line is invalid, the file can't be read, or standard output can't be written";

/// `text FILE`
const TEXT: Description = Description {
    name: "text",
    about: "Prints a .res file as a bundle text",
    arguments: &[
        Argument(
            "name",
            Kind::Option("NAME"),
            "the bundle's name; by default the file's, up to its first full stop",
        ),
        FILE,
    ],
    end: TEXT_HELP,
};

pub fn text() -> Description {
    TEXT
}

const JSON_HELP: &str = "\
Examples:
  resb json de.res menu
  resb json --inherit de_AT bundles/*.res
  resb json --inherit de_AT --path menu --parents parents.txt bundles/*.txt

A table is an object, an array an array, a String a string, an Int a number; the others are objects of one member, :alias, :bin,
:intvector or :units. A key that begins with a colon has one colon more. Aliases are printed and not followed.

With --inherit the tables of the locale and of those that it inherits from are merged, and aliases are followed; one that can't be
followed is an object of one member, :error.

Status:
  0  the item is printed, as JSON
  1  the file is refused, has no such item, as menu/shut: Missing, or the item is too large, or out of memory
  2  the command line is invalid, the file can't be read, or standard output can't be written";

/// `json FILE [PATH]`, or `json --inherit LOCALE [LOCALE=]FILE..`
const JSON: Description = Description {
    name: "json",
    about: "Prints a whole .res file, or the item at a path, as one JSON value",
    arguments: &[
        Argument(
            "inherit",
            Kind::Option("LOCALE"),
            "print what this locale has and inherits, over bundles [LOCALE=]FILE as look reads them",
        ),
        Argument(
            "parents",
            Kind::OptionWith("FILE", "inherit"),
            "with --inherit, a bundle text with the explicit parents, at parentLocales",
        ),
        Argument(
            "cldr-parents",
            Kind::FlagIf("inherit", "parents"),
            "with --inherit, the explicit parents of CLDR, in place of --parents",
        ),
        Argument(
            "path",
            Kind::OptionWith("PATH", "inherit"),
            "with --inherit, the path of an item; the whole bundle without it",
        ),
        Argument("FILE", Kind::Word, "a .res file; with --inherit, a bundle"),
        Argument(
            "PATH",
            Kind::OptionalWord,
            "keys and indexes, with slashes between them; the whole bundle without it; with --inherit, a further bundle",
        ),
        Argument(
            "BUNDLE",
            Kind::WordsWith("inherit"),
            "with --inherit, further bundles",
        ),
        Argument(
            "pretty",
            Kind::Flag,
            "a line for each item and member, indented",
        ),
    ],
    end: JSON_HELP,
};

pub fn json() -> Description {
    JSON
}

const DIFF_HELP: &str = "\
Examples:
  resb diff old/de.txt new/de.txt
  resb diff --stat old new
  resb diff build/shop shop

A bundle text ends in .txt; any other file is a .res file. Of folders the files of one name are
compared. Each item that differs is printed by its path, as
  - menu/open \"Open\"
  + menu/open \"Open..\"
where - is what OLD has and + is what NEW has, as resb json prints it. With --json each is an object
in a line. The flag no fallback has the path :no-fallback. A name that nothing has is that of a
module in the settings of the project: its folder, or the last part of it.

Status:
  0  nothing differs
  1  something differs
  2  the command line or the settings are invalid, a file is refused, or a file or standard output
     can't be read or written, or out of memory";

/// `diff OLD NEW`
const DIFF: Description = Description {
    name: "diff",
    about: "Prints the items in which two bundles, or the bundles of two folders, differ",
    arguments: &[
        Argument("json", Kind::Flag, "an object for each item, in a line"),
        Argument("stat", Kind::Flag, "only how many items differ"),
        CONFIG,
        NO_CONFIG,
        Argument(
            "OLD",
            Kind::Word,
            "a bundle text, a .res file, a folder or a module",
        ),
        Argument("NEW", Kind::Word, "what it is compared with"),
    ],
    end: DIFF_HELP,
};

pub fn diff() -> Description {
    DIFF
}
