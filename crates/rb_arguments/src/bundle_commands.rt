use crate::argument::{Argument, CLDR_PARENTS, CONFIG, Kind, NO_CONFIG, PARENTS, PATH};
use crate::description::Description;

const BUNDLES: Argument = Argument(
    "FILE",
    Kind::Words("[LOCALE=]FILE"),
    "a bundle: bundle text where FILE ends in .txt, else a .res file; LOCALE is its stem",
);

const LINES_HELP: &str = "\
Examples:
  resb lines shop bundles/*.res | resb serve
  resb lines --op replace --json shop de.json | resb serve

With --json each FILE is what resb json prints of a whole bundle, and is sent as a file.

Status:
  0  a line is printed for each file
  1  APP is no application's name, a text isn't UTF-8, a file is too long, JSON is refused, or out
     of memory
  2  the command line is invalid, or a file or standard output can't be read or written";

/// `lines APP [LOCALE=]FILE..`
const LINES: Description = Description {
    name: "lines",
    about: "Prints request lines for serve that install bundles",
    arguments: &[
        Argument("op", Kind::Option("OP"), "install, or replace"),
        Argument(
            "json",
            Kind::Flag,
            "read JSON, as resb json prints it, in place of bundles",
        ),
        Argument("APP", Kind::Word, "the application"),
        BUNDLES,
    ],
    end: LINES_HELP,
};

pub fn lines() -> Description {
    LINES
}

const COVERAGE_HELP: &str = "\
Examples:
  resb coverage .
  resb coverage --format list texts/*/*.txt

The texts of one folder are a module, which needs one of the locale root. Findings:
  missing    the root has a string or an array, and neither the locale nor a parent before the root
  unused     the root has nothing there
  same       the item is equal to the inherited one
  type       the item is of another type than the inherited one
  arguments  the message has other arguments than the inherited one, as {0} and {name}
Formats: table has a line for each locale, list a line for each key and finding, as
menu/print: missing in ar, ja; json has an object for each key and finding, and csv a row for each
key, finding and locale.

Status:
  0  the texts are compared
  1  a text is refused, as root.txt:2: BadInt; a locale has two texts or no trail, or fewer keys than
     the settings of the project ask for; or out of memory
  2  the command line or the settings are invalid, a module has no root, or a file or standard output
     can't be read or written";

/// `coverage [OPTIONS] [LOCALE=]TEXT..`
const COVERAGE: Description = Description {
    name: "coverage",
    about: "Says what each locale lacks, and how it differs from what it inherits",
    arguments: &[
        PARENTS,
        CLDR_PARENTS,
        Argument(
            "format",
            Kind::Option("FORMAT"),
            "table, list, json or csv; table by default",
        ),
        CONFIG,
        NO_CONFIG,
        Argument(
            "TEXT",
            Kind::Words("[LOCALE=]TEXT"),
            "a bundle text, in UTF-8, or a folder of modules; LOCALE is the text's stem",
        ),
    ],
    end: COVERAGE_HELP,
};

pub fn coverage() -> Description {
    COVERAGE
}

const LOOK_HELP: &str = "\
Examples:
  resb look de_AT menu/close bundles/*.res
  resb look --parents parents.txt zh_Hant_TW menu/close bundles/*.txt
  resb look --trace de_AT menu/close bundles/*.txt

Status:
  0  the item is found, and printed as serve replies
  1  it isn't, as {\"error\":\"Missing\"}; or a file is refused, as root.txt:2: BadInt
  2  the command line is invalid, or a file or standard output can't be read or written";

/// `look LOCALE PATH [LOCALE=]FILE..`
const LOOK: Description = Description {
    name: "look",
    about: "Looks an item up over bundles, with fallback",
    arguments: &[
        PARENTS,
        CLDR_PARENTS,
        Argument(
            "trace",
            Kind::Flag,
            "say on standard error which bundles were asked, and why",
        ),
        Argument("LOCALE", Kind::Word, "the locale to look up from"),
        PATH,
        BUNDLES,
    ],
    end: LOOK_HELP,
};

pub fn look() -> Description {
    LOOK
}
