use crate::argument::{Argument, CLDR_PARENTS, Kind, PARENTS};
use crate::description::Description;

const SERVE_HELP: &str = "\
Examples:
  resb serve --parents parents.txt root=root.txt de=de.res < requests.jsonl
  resb serve --app-bytes 16777216 --apps 1000 --line-bytes 8388608 < requests.jsonl

Without an option there is no such limit; N is from 1 to 9223372036854775808. What a limit refuses
is answered with a word, as {\"error\":\"OverQuota\"}, and serving goes on. Steps are counted at first
and for each alias that is followed: the names of the trail, times one more than the path's segments.

Status:
  0  the input is read, and each line is answered
  1  a file is refused, as root.txt: BadText, serving ended early, as LineTooLong, or out of memory
  2  the command line is invalid, a file can't be read, or there is no random state";

/// `serve [LOCALE=FILE ..]`
const SERVE: Description = Description {
    name: "serve",
    about: "Answers requests, a line each, from standard input",
    arguments: &[
        PARENTS,
        CLDR_PARENTS,
        Argument(
            "app-bytes",
            Kind::Limit,
            "the most bytes of all files of one application",
        ),
        Argument(
            "bundle-bytes",
            Kind::Limit,
            "the most bytes of one bundle, as text and as file",
        ),
        Argument(
            "reply-bytes",
            Kind::Limit,
            "the most bytes of the line of a found item or of names",
        ),
        Argument(
            "line-bytes",
            Kind::Limit,
            "the most bytes of a line; a longer one is passed over",
        ),
        Argument(
            "apps",
            Kind::Limit,
            "the most applications with bundles at one time",
        ),
        Argument("steps", Kind::Limit, "the most steps of a lookup"),
        Argument(
            "keep-serving",
            Kind::Flag,
            "answer a line for which memory is out, and serve on if the bundles are as before",
        ),
        Argument(
            "extended",
            Kind::Flag,
            "answer extended requests too, and say why a text or a file is refused",
        ),
        Argument(
            "bundles",
            Kind::AnyWords("LOCALE=FILE"),
            "a bundle of ICUDATA: bundle text where FILE ends in .txt, else a .res file",
        ),
    ],
    end: SERVE_HELP,
};

pub fn serve() -> Description {
    SERVE
}
