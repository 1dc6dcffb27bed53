//! Tests command lines: which are taken, what they ask for, and which are refused.
use clap::{ArgMatches, Error};
use rb_arguments::{Asked, AskedLimits, asked_by, commands_for};
use rb_asked::ParentsSource;
use std::alloc::{AllocError, Global};
use std::test::Fail;

/// Command lines, the words separated by `|`. Before each is its status, 0 if it is taken.
const LINES: &str = "\
2|resb
2|resb|get|a.res
0|resb|get|a.res|a/b
0|resb|get|a.res|
2|resb|json
0|resb|json|a.res
0|resb|json|a.res|a/b|--pretty
2|resb|json|a.res|a|b
2|resb|json|--inherit|de
2|resb|json|--path|a|b.res
2|resb|json|--parents|a|b.res
0|resb|json|--inherit|de|a.res|--path|b
0|resb|json|--inherit|de|--parents|p.txt|a.res|b.res|c.res|d.res
0|resb|serve
0|resb|serve|x
0|resb|serve|--parents|p.txt|de=a.txt|root=b.res
0|resb|serve|de=a.txt|--parents|p.txt
2|resb|serve|--parents
0|resb|serve|--cldr-parents|de=a.txt
2|resb|serve|--cldr-parents|--parents|p.txt|de=a.txt
2|resb|json|--cldr-parents|a.res
0|resb|json|--inherit|de|--cldr-parents|a.res
2|resb|json|--inherit|de|--cldr-parents|--parents|p.txt|a.res
0|resb|look|--cldr-parents|de|a|b.res
0|resb|coverage|--cldr-parents|a.txt
2|resb|serve|--locale|de
0|resb|serve|--app-bytes|1|de=a.txt
0|resb|serve|--bundle-bytes=9223372036854775808
2|resb|serve|--bundle-bytes=9223372036854775809
2|resb|serve|--line-bytes|18446744073709551616
2|resb|serve|--apps|0
2|resb|serve|--apps|-1
2|resb|serve|--apps=-1
2|resb|serve|--apps|
2|resb|serve|--apps|1.0
2|resb|serve|--apps|10k
2|resb|serve|--steps|0x10
2|resb|serve|--steps|1|--steps|2
2|resb|serve|--keep-serving|--reply-bytes
2|resb|check
0|resb|check|a.res
2|resb|text
0|resb|text|a.res
0|resb|text|a.res|--name|de
2|resb|text|a.res|--name
2|resb|compile|a.txt
0|resb|compile|a.txt|a.res
0|resb|compile|-|-
0|resb|compile|-q|a.txt|a.res
2|resb|compile|a.txt|b.txt|c.txt
0|resb|compile|--to|x|a|b|c|d
0|resb|compile|--to|x|--from|s|s/a
2|resb|compile|--from|s|s/a|b
0|resb|compile|--json|a|b
2|resb|compile|--no-fallback|a|b
2|resb|compile|--to|x
0|resb|check|--quiet|a.res|b.res
2|resb|lint
0|resb|lint|a.txt|b.txt
0|resb|lint|--root|root.txt|a.txt
2|resb|lint|--config|c|--no-config|a.txt
0|resb|init|texts
2|resb|init|a|b
2|resb|lint|--root|root.txt
2|resb|coverage
0|resb|coverage|a.txt|de=b.txt
0|resb|coverage|--parents|p|--format|csv|a.txt
0|resb|diff|a|b
2|resb|diff|a
0|resb|fmt|a
2|resb|fmt
0|resb|explain
2|resb|explain|BadInt|BadHex
2|resb|lines|shop
0|resb|lines|shop|--op|replace|de=a.res
2|resb|look|de|a
0|resb|look|de|a/b|a.res|de_AT=b.txt
0|resb|look|--parents|p|de||a
0|resb|look|--trace|de||a";

/// Splits a command line into its words.
fn words_of<'a>(alloc: Global, line: &'a str) -> Result<Vec<&'a str>, AllocError> {
    let mut words = Vec::new(alloc);
    for word in line.split('|') {
        words.push(word)?;
    }
    Ok(words)
}

fn status_of(alloc: Global, words: &[&str]) -> Result<i32, AllocError> {
    match commands_for(alloc, None)?.try_get_matches_from(words) {
        Ok(_) => Ok(0),
        Err(error) => Ok(error.exit_code()),
    }
}

/// Checks the status of a row of `LINES`. Returns None if the row can't be read.
fn has_status(alloc: Global, row: &str) -> Option<bool> {
    let (status, line) = row.split_once('|')?;
    let words = words_of(alloc, line).ok()?;
    let wanted: i32 = status.parse().ok()?;
    Some(status_of(alloc, words.as_slice()).ok()? == wanted)
}

#[test]
fn reads_command_lines(rt: HostRuntime) {
    for row in LINES.lines() {
        assert!(rt; has_status(rt.alloc(), row) == Some(true), "{row}");
    }
}

/// Command lines, with what they ask for.
const ASKED: &str =
    r#"resb|compile|-|a.res => Compile(AskedCompile { input: "-", output: "a.res", how: Compiling { is_json: false, no_fallback: false, is_forced: false, is_quiet: false } })
resb|compile|--force|a|b => Compile(AskedCompile { input: "a", output: "b", how: Compiling { is_json: false, no_fallback: false, is_forced: true, is_quiet: false } })
resb|compile|-q|--to|x|a|b|c|d => CompileAll(AskedCompileAll { folder: "x", from: None, texts: ["a", "b", "c", "d"], how: Compiling { is_json: false, no_fallback: false, is_forced: false, is_quiet: true } })
resb|compile|--to|x|a => CompileAll(AskedCompileAll { folder: "x", from: None, texts: ["a"], how: Compiling { is_json: false, no_fallback: false, is_forced: false, is_quiet: false } })
resb|compile|--from|s|--to|x|s/a => CompileAll(AskedCompileAll { folder: "x", from: Some("s"), texts: ["s/a"], how: Compiling { is_json: false, no_fallback: false, is_forced: false, is_quiet: false } })
resb|compile|--json|a|b => Compile(AskedCompile { input: "a", output: "b", how: Compiling { is_json: true, no_fallback: false, is_forced: false, is_quiet: false } })
resb|compile|--no-fallback|--to|x|--json|a|b => CompileAll(AskedCompileAll { folder: "x", from: None, texts: ["a", "b"], how: Compiling { is_json: true, no_fallback: true, is_forced: false, is_quiet: false } })
resb|check|-q|a|b => Check(AskedCheck { files: ["a", "b"], is_json: false, is_quiet: true })
resb|check|a|--json => Check(AskedCheck { files: ["a"], is_json: true, is_quiet: false })
resb|get|a|b/c => Get(AskedGet { file: "a", path: "b/c", is_raw: false })
resb|get|a|--raw|b => Get(AskedGet { file: "a", path: "b", is_raw: true })
resb|diff|--stat|a|b => Diff(AskedDiff { old: "a", new: "b", is_json: false, is_stat: true, config: Configured { file: None, is_none: false } })
resb|diff|a|b|--json|--no-config => Diff(AskedDiff { old: "a", new: "b", is_json: true, is_stat: false, config: Configured { file: None, is_none: true } })
resb|diff|--config|c|a|b => Diff(AskedDiff { old: "a", new: "b", is_json: false, is_stat: false, config: Configured { file: Some("c"), is_none: false } })
resb|json|a|--pretty => Json(AskedJson { file: "a", path: "", is_pretty: true })
resb|json|a|b => Json(AskedJson { file: "a", path: "b", is_pretty: false })
resb|json|--inherit|de|a => Inherited(AskedInherited { parents: None, locale: "de", path: "", is_pretty: false, files: ["a"] })
resb|json|--inherit|de|--parents|p|--path|x/y|a|b|c|d => Inherited(AskedInherited { parents: Some(File("p")), locale: "de", path: "x/y", is_pretty: false, files: ["a", "b", "c", "d"] })
resb|json|--inherit|de|--cldr-parents|a => Inherited(AskedInherited { parents: Some(Cldr), locale: "de", path: "", is_pretty: false, files: ["a"] })
resb|text|a|--name|de => Text(AskedText { file: "a", name: Some("de") })
resb|lint|--root|r|a|b => Lint(AskedLint { root: Some("r"), name: None, allow: [], deny: [], format: None, color: None, is_strict: false, is_all: false, config: Configured { file: None, is_none: false }, is_list: false, texts: ["a", "b"] })
resb|lint|--allow|x|a|--deny|y|--allow|z|--against|r|--root|s|--strict|--all|--format|json|--name|n => Lint(AskedLint { root: Some("r"), name: Some("n"), allow: ["x", "z"], deny: ["y"], format: Some("json"), color: None, is_strict: true, is_all: true, config: Configured { file: None, is_none: false }, is_list: false, texts: ["a"] })
resb|lint|--color|never|a => Lint(AskedLint { root: None, name: None, allow: [], deny: [], format: None, color: Some("never"), is_strict: false, is_all: false, config: Configured { file: None, is_none: false }, is_list: false, texts: ["a"] })
resb|lint|--list => Lint(AskedLint { root: None, name: None, allow: [], deny: [], format: None, color: None, is_strict: false, is_all: false, config: Configured { file: None, is_none: false }, is_list: true, texts: [] })
resb|fmt|--check|-q|a|b => Format(AskedFormat { is_check: true, is_diff: false, is_quiet: true, config: Configured { file: None, is_none: false }, texts: ["a", "b"] })
resb|fmt|--config|c|a => Format(AskedFormat { is_check: false, is_diff: false, is_quiet: false, config: Configured { file: Some("c"), is_none: false }, texts: ["a"] })
resb|lint|--no-config|a => Lint(AskedLint { root: None, name: None, allow: [], deny: [], format: None, color: None, is_strict: false, is_all: false, config: Configured { file: None, is_none: true }, is_list: false, texts: ["a"] })
resb|init|a => Init { folder: Some("a") }
resb|init => Init { folder: None }
resb|coverage|--format|csv|a|--parents|p|de=b => Coverage(AskedCoverage { parents: Some(File("p")), format: Some("csv"), config: Configured { file: None, is_none: false }, texts: ["a", "de=b"] })
resb|explain => Explain { word: None }
resb|explain|BadInt => Explain { word: Some("BadInt") }
resb|lines|shop|--op|replace|a|b => Lines(AskedLines { op: Some("replace"), is_json: false, app: "shop", files: ["a", "b"] })
resb|lines|--json|shop|a => Lines(AskedLines { op: None, is_json: true, app: "shop", files: ["a"] })
resb|look|--trace|--parents|p|de|x/y|a => Look(AskedLookup { parents: Some(File("p")), locale: "de", path: "x/y", is_traced: true, files: ["a"] })"#;

/// Returns what a command line asks for, as a text; empty if it asks for nothing.
fn asked_text(alloc: Global, words: &[&str]) -> Result<String, Fail> {
    let Ok(matches) = commands_for(alloc, None)?.try_get_matches_from(words) else {
        return Ok(String::new(alloc));
    };
    match asked_by(alloc, &matches)? {
        Some(asked) => Ok(format!(in alloc; "{asked:?}")?),
        None => Ok(String::new(alloc)),
    }
}

/// Checks what the command line of a row of `ASKED` asks for.
fn asks_for(alloc: Global, row: &str) -> Result<bool, Fail> {
    let (line, text) = row.split_once(" => ").ok_or("no row")?;
    let words = words_of(alloc, line)?;
    Ok(asked_text(alloc, words.as_slice())?.as_str() == text)
}

#[test]
fn says_what_is_asked_for(rt: HostRuntime) -> Result<(), Fail> {
    for row in ASKED.lines() {
        assert!(rt; asks_for(rt.alloc(), row)?, "{row}");
    }
    Ok(())
}

/// The limits of a command line that names none.
const NO_LIMITS: AskedLimits = AskedLimits {
    app_bytes: None,
    bundle_bytes: None,
    reply_bytes: None,
    line_bytes: None,
    apps: None,
    steps: None,
    keep_serving: false,
};

/// Limits, each with a different number.
const ALL_LIMITS: AskedLimits = AskedLimits {
    app_bytes: Some(1),
    bundle_bytes: Some(2),
    reply_bytes: Some(3),
    line_bytes: Some(4),
    apps: Some(5),
    steps: Some(9_223_372_036_854_775_808),
    keep_serving: true,
};

/// Checks the parents, the bundles, the limits and the requests that a command line of `serve` asks
/// for.
fn serves(
    alloc: Global,
    line: &str,
    wanted: (Option<ParentsSource<'_>>, &[&str]),
    limits_wanted: AskedLimits,
    is_extended_wanted: bool,
) -> Result<bool, Fail> {
    let words = words_of(alloc, line)?;
    let matches = commands_for(alloc, None)?.try_get_matches_from(words.as_slice())?;
    match asked_by(alloc, &matches)? {
        Some(Asked::Serve(asked)) => {
            Ok(
                asked.parents == wanted.0
                    && asked.bundles.as_slice() == wanted.1
                    && asked.limits == limits_wanted
                    && asked.is_extended == is_extended_wanted,
            )
        }
        _ => Ok(false),
    }
}

const LIMITED: &str =
    "resb|serve|--app-bytes|1|--bundle-bytes|2|--reply-bytes|3|--line-bytes|4|--apps|5|--steps|9223372036854775808|--keep-serving";

#[test]
fn says_what_is_served(rt: HostRuntime) -> Result<(), Fail> {
    let alloc = rt.alloc();
    assert!(rt; serves(alloc, "resb|serve", (None, &[]), NO_LIMITS, false)?);
    let twelve = AskedLimits {
        apps: Some(12),
        ..NO_LIMITS
    };
    let line = "resb|serve|de=a|--parents|p|--apps|12|--extended|fr=b";
    assert!(rt;
        serves(
            alloc,
            line,
            (Some(ParentsSource::File("p")), &["de=a", "fr=b"]),
            twelve,
            true
        )?
    );
    assert!(rt;
        serves(
            alloc,
            "resb|serve|--cldr-parents|a",
            (Some(ParentsSource::Cldr), &["a"]),
            NO_LIMITS,
            false
        )?
    );
    assert!(rt; serves(alloc, LIMITED, (None, &[]), ALL_LIMITS, false)?);
    Ok(())
}

#[test]
fn has_no_limits_without_arguments(rt: HostRuntime) {
    assert!(rt; AskedLimits::none() == NO_LIMITS);
}

/// Command lines for which no command is run, and ones with words that name no command.
const OTHERS: &str = "\
resb|--help
resb|help
resb|help|get
resb|help|gets
resb|--version
resb|-V
resb|gets|a.res
resb|-q|check|a.res
resb|
resb|get|--help
resb|get|help
resb|get|-h|--version
resb|text|json|a.res
resb|check|--pretty|a.res";

/// Returns what a command line asks for, or its status and the message of why no command is run.
fn answer(alloc: Global, taken: Result<ArgMatches<'_>, Error>) -> Result<String, Fail> {
    match taken {
        Ok(matches) => match asked_by(alloc, &matches)? {
            Some(asked) => Ok(format!(in alloc; "{asked:?}")?),
            None => Ok(String::new(alloc)),
        },
        Err(error) => Ok(format!(in alloc; "{}: {error}", error.exit_code())?),
    }
}

/// Checks whether a command alone answers its command line as all commands together do.
fn answers_alike(alloc: Global, line: &str) -> Result<bool, Fail> {
    let words = words_of(alloc, line)?;
    let all = commands_for(alloc, None)?.try_get_matches_from(words.as_slice());
    let one = commands_for(alloc, words.get(1).copied())?.try_get_matches_from(words.as_slice());
    Ok(answer(alloc, one)?.as_str() == answer(alloc, all)?.as_str())
}

#[test]
fn answers_as_among_all_commands(rt: HostRuntime) -> Result<(), Fail> {
    for row in LINES.lines() {
        let (_, line) = row.split_once('|').ok_or("no row")?;
        assert!(rt; answers_alike(rt.alloc(), line)?, "{row}");
    }
    for line in OTHERS.lines() {
        assert!(rt; answers_alike(rt.alloc(), line)?, "{line}");
    }
    Ok(())
}
