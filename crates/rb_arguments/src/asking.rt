ghost use Rattle.std.specs.Prelude.{◌≡◌, ◌++◌, [], IfOk, IfSome, OnOk, is_some, option_map, codes};
ghost use Rattle.std.specs.List.{list_any};
ghost use Rattle.std.specs.Option.{option_or};
ghost use Rattle.std.specs.Str.{bytes_eq};
ghost use Rattle.clap.specs.Walk.{texts};
ghost use Rattle.clap.specs.Words.{first_of, found_of, rows_of, subcommand_rows_of};
ghost use Rattle.rb_arguments.specs.Rows.{IsFlagIn, IsNumberIn, alone, word_in, words_in};
ghost use Rattle.rb_arguments.specs.Limits.{AreGiven};
ghost use Rattle.rb_arguments.specs.Asking.{AreParentsIn, AsksFor, EntersFor, IsCompilingIn};
ghost use Rattle.rb_arguments.specs.Asking.{IsConfigIn, enters_command};
ghost use Rattle.rb_arguments.specs.Asking.{file_names, gathered, is_command, other_names};

use clap::ArgMatches;
use rb_asked::{
    AskedCheck, AskedCompile, AskedCompileAll, AskedCoverage, AskedDiff, AskedFormat, AskedGet,
    AskedInherited, AskedJson, AskedLines, AskedLint, AskedLookup, AskedText, Compiling,
    Configured, ParentsSource,
};
use std::alloc::{AllocError, Global};

/// A command with its arguments.
#[derive(Debug, Drop)]
pub enum Asked<'a> {
    Compile(AskedCompile<'a>),
    CompileAll(AskedCompileAll<'a>),
    Check(AskedCheck<'a>),
    Get(AskedGet<'a>),
    Json(AskedJson<'a>),
    Inherited(AskedInherited<'a>),
    Text(AskedText<'a>),
    Diff(AskedDiff<'a>),
    Lint(AskedLint<'a>),
    Format(AskedFormat<'a>),
    Coverage(AskedCoverage<'a>),
    /// `init [FOLDER]`
    Init { folder: Option<&'a str> },
    /// `explain [WORD]`
    Explain { word: Option<&'a str> },
    Lines(AskedLines<'a>),
    Look(AskedLookup<'a>),
    Serve(AskedServe<'a>),
}

/// `serve [LOCALE=FILE ..]`
#[derive(Debug, Drop)]
pub struct AskedServe<'a> {
    pub parents: Option<ParentsSource<'a>>,
    /// The bundles of ICUDATA, each `LOCALE=FILE`.
    pub bundles: Vec<&'a str>,
    pub limits: AskedLimits,
    /// True if extended requests are answered, too.
    pub is_extended: bool,
}

/// The limits of `serve`, by the options of the same names, and whether it keeps running after
/// memory ran out. A missing limit is no limit.
#[derive(Clone, Copy, Debug, PartialEq, Eq)]
pub struct AskedLimits {
    pub app_bytes: Option<u64>,
    pub bundle_bytes: Option<u64>,
    pub reply_bytes: Option<u64>,
    pub line_bytes: Option<u64>,
    pub apps: Option<u64>,
    pub steps: Option<u64>,
    pub keep_serving: bool,
}

impl AskedLimits {
    pub fn none() -> AskedLimits
        ensures { AreGiven [] result }
    {
        AskedLimits {
            app_bytes: None,
            bundle_bytes: None,
            reply_bytes: None,
            line_bytes: None,
            apps: None,
            steps: None,
            keep_serving: false,
        }
    }
}

fn optional_of<'a>(given: &ArgMatches<'a>, id: &str) -> Option<&'a str>
    ensures { option_map (λ s. s.now) result ≡ first_of id.now (rows_of (found_of given.now)) }
{
    given.get_str(id)
}

/// Returns one word of a command, or an empty one if it is missing.
fn word_of<'a>(given: &ArgMatches<'a>, id: &str) -> &'a str
    ensures { result.now ≡ word_in (rows_of (found_of given.now)) id.now }
{
    optional_of(given, id).unwrap_or("")
}

fn words_of<'a>(alloc: Global, given: &ArgMatches<'a>, id: &str) -> Result<Vec<&'a str>, AllocError>
    ensures { IfOk result (λ words. texts words.items
        ≡ words_in (rows_of (found_of given.now)) id.now) }
{
    given.get_strs(id).unwrap_or(&[]).to_vec(alloc)
}

fn flag_of(given: &ArgMatches<'_>, id: &str) -> bool
    ensures { IsFlagIn (rows_of (found_of given.now)) id.now result }
{
    given.get_flag(id)
}

fn number_of(given: &ArgMatches<'_>, id: &str) -> Option<u64>
    ensures { IsNumberIn (rows_of (found_of given.now)) id.now result }
{
    given.get_one::<u64>(id)
}

fn push_given<'a>(
    gathered: &mut Vec<&'a str>,
    given: &ArgMatches<'a>,
    id: &str,
) -> Result<(), AllocError>
    ensures { OnOk result (texts gathered.new.items
        ≡ texts gathered.old.items ++ alone (first_of id.now (rows_of (found_of given.now)))) }
{
    if let Some(text) = optional_of(given, id) {
        gathered.push(text)?;
    }
    Ok(())
}

/// Collects the texts of `compile --to`, in order: clap has put the first two into IN and OUT.
fn texts_of<'a>(alloc: Global, given: &ArgMatches<'a>) -> Result<Vec<&'a str>, AllocError>
    ensures { IfOk result (λ files. texts files.items ≡ gathered (rows_of (found_of given.now))
        (codes "IN") (codes "OUT") (codes "TEXT")) }
{
    let mut texts = Vec::new(alloc);
    push_given(&mut texts, given, "IN")?;
    push_given(&mut texts, given, "OUT")?;
    texts.extend_from_slice(given.get_strs("TEXT").unwrap_or(&[]))?;
    Ok(texts)
}

/// Collects the files of `json --inherit`, in order: clap has put the first two into FILE and PATH.
fn files_of<'a>(alloc: Global, given: &ArgMatches<'a>) -> Result<Vec<&'a str>, AllocError>
    ensures { IfOk result (λ files. texts files.items ≡ gathered (rows_of (found_of given.now))
        (codes "FILE") (codes "PATH") (codes "BUNDLE")) }
{
    let mut files = Vec::new(alloc);
    push_given(&mut files, given, "FILE")?;
    push_given(&mut files, given, "PATH")?;
    files.extend_from_slice(given.get_strs("BUNDLE").unwrap_or(&[]))?;
    Ok(files)
}

/// Returns the place of explicit parents. clap refuses both options at once.
fn parents_of<'a>(given: &ArgMatches<'a>) -> Option<ParentsSource<'a>>
    ensures { AreParentsIn (rows_of (found_of given.now)) result }
{
    if flag_of(given, "cldr-parents") {
        return Some(ParentsSource::Cldr);
    }
    match optional_of(given, "parents") {
        Some(file) => Some(ParentsSource::File(file)),
        None => None,
    }
}

fn config_of<'a>(given: &ArgMatches<'a>) -> Configured<'a>
    ensures { IsConfigIn (rows_of (found_of given.now)) result }
{
    Configured {
        file: optional_of(given, "config"),
        is_none: flag_of(given, "no-config"),
    }
}

fn json_asked<'a>(alloc: Global, given: &ArgMatches<'a>) -> Result<Asked<'a>, AllocError>
    ensures { IfOk result (AsksFor (codes "json") (rows_of (found_of given.now))) }
{
    let is_pretty = flag_of(given, "pretty");
    Ok(match optional_of(given, "inherit") {
        Some(locale) => Asked::Inherited(AskedInherited {
            parents: parents_of(given),
            locale,
            path: word_of(given, "path"),
            is_pretty,
            files: files_of(alloc, given)?,
        }),
        None => Asked::Json(AskedJson {
            file: word_of(given, "FILE"),
            path: word_of(given, "PATH"),
            is_pretty,
        }),
    })
}

fn compiling_of(given: &ArgMatches<'_>) -> Compiling
    ensures { IsCompilingIn (rows_of (found_of given.now)) result }
{
    Compiling {
        is_json: flag_of(given, "json"),
        no_fallback: flag_of(given, "no-fallback"),
        is_forced: flag_of(given, "force"),
        is_quiet: flag_of(given, "quiet"),
    }
}

fn compile_asked<'a>(alloc: Global, given: &ArgMatches<'a>) -> Result<Asked<'a>, AllocError>
    ensures { IfOk result (AsksFor (codes "compile") (rows_of (found_of given.now))) }
{
    let how = compiling_of(given);
    Ok(match optional_of(given, "to") {
        Some(folder) => Asked::CompileAll(AskedCompileAll {
            folder,
            from: optional_of(given, "from"),
            texts: texts_of(alloc, given)?,
            how,
        }),
        None => Asked::Compile(AskedCompile {
            input: word_of(given, "IN"),
            output: word_of(given, "OUT"),
            how,
        }),
    })
}

fn check_asked<'a>(alloc: Global, given: &ArgMatches<'a>) -> Result<Asked<'a>, AllocError>
    ensures { IfOk result (AsksFor (codes "check") (rows_of (found_of given.now))) }
{
    Ok(Asked::Check(AskedCheck {
        files: words_of(alloc, given, "FILE")?,
        is_json: flag_of(given, "json"),
        is_quiet: flag_of(given, "quiet"),
    }))
}

/// Returns the root's text of `lint`: that of `--against`, or that of `--root`.
fn root_of<'a>(given: &ArgMatches<'a>) -> Option<&'a str>
    ensures { option_map (λ s. s.now) result
        ≡ option_or (first_of (codes "against") (rows_of (found_of given.now)))
        (first_of (codes "root") (rows_of (found_of given.now))) }
{
    match optional_of(given, "against") {
        Some(root) => Some(root),
        None => optional_of(given, "root"),
    }
}

fn lint_asked<'a>(alloc: Global, given: &ArgMatches<'a>) -> Result<Asked<'a>, AllocError>
    ensures { IfOk result (AsksFor (codes "lint") (rows_of (found_of given.now))) }
{
    Ok(Asked::Lint(AskedLint {
        root: root_of(given),
        name: optional_of(given, "name"),
        allow: words_of(alloc, given, "allow")?,
        deny: words_of(alloc, given, "deny")?,
        format: optional_of(given, "format"),
        color: optional_of(given, "color"),
        is_strict: flag_of(given, "strict"),
        is_all: flag_of(given, "all"),
        config: config_of(given),
        is_list: flag_of(given, "list"),
        texts: words_of(alloc, given, "TEXT")?,
    }))
}

fn format_asked<'a>(alloc: Global, given: &ArgMatches<'a>) -> Result<Asked<'a>, AllocError>
    ensures { IfOk result (AsksFor (codes "fmt") (rows_of (found_of given.now))) }
{
    Ok(Asked::Format(AskedFormat {
        is_check: flag_of(given, "check"),
        is_diff: flag_of(given, "diff"),
        is_quiet: flag_of(given, "quiet"),
        config: config_of(given),
        texts: words_of(alloc, given, "TEXT")?,
    }))
}

fn coverage_asked<'a>(alloc: Global, given: &ArgMatches<'a>) -> Result<Asked<'a>, AllocError>
    ensures { IfOk result (AsksFor (codes "coverage") (rows_of (found_of given.now))) }
{
    Ok(Asked::Coverage(AskedCoverage {
        parents: parents_of(given),
        format: optional_of(given, "format"),
        config: config_of(given),
        texts: words_of(alloc, given, "TEXT")?,
    }))
}

fn look_asked<'a>(alloc: Global, given: &ArgMatches<'a>) -> Result<Asked<'a>, AllocError>
    ensures { IfOk result (AsksFor (codes "look") (rows_of (found_of given.now))) }
{
    Ok(Asked::Look(AskedLookup {
        parents: parents_of(given),
        locale: word_of(given, "LOCALE"),
        path: word_of(given, "PATH"),
        is_traced: flag_of(given, "trace"),
        files: words_of(alloc, given, "FILE")?,
    }))
}

/// Collects the limits of `serve`. clap has checked their numbers.
fn limits_asked(given: &ArgMatches<'_>) -> AskedLimits
    ensures { AreGiven (rows_of (found_of given.now)) result }
{
    AskedLimits {
        app_bytes: number_of(given, "app-bytes"),
        bundle_bytes: number_of(given, "bundle-bytes"),
        reply_bytes: number_of(given, "reply-bytes"),
        line_bytes: number_of(given, "line-bytes"),
        apps: number_of(given, "apps"),
        steps: number_of(given, "steps"),
        keep_serving: flag_of(given, "keep-serving"),
    }
}

fn serve_asked<'a>(alloc: Global, given: &ArgMatches<'a>) -> Result<Asked<'a>, AllocError>
    ensures { IfOk result (AsksFor (codes "serve") (rows_of (found_of given.now))) }
{
    Ok(Asked::Serve(AskedServe {
        parents: parents_of(given),
        bundles: words_of(alloc, given, "bundles")?,
        limits: limits_asked(given),
        is_extended: flag_of(given, "extended"),
    }))
}

fn get_asked<'a>(given: &ArgMatches<'a>) -> Asked<'a>
    ensures { AsksFor (codes "get") (rows_of (found_of given.now)) result }
{
    Asked::Get(AskedGet {
        file: word_of(given, "FILE"),
        path: word_of(given, "PATH"),
        is_raw: flag_of(given, "raw"),
    })
}

fn text_asked<'a>(given: &ArgMatches<'a>) -> Asked<'a>
    ensures { AsksFor (codes "text") (rows_of (found_of given.now)) result }
{
    Asked::Text(AskedText {
        file: word_of(given, "FILE"),
        name: optional_of(given, "name"),
    })
}

fn diff_asked<'a>(given: &ArgMatches<'a>) -> Asked<'a>
    ensures { AsksFor (codes "diff") (rows_of (found_of given.now)) result }
{
    Asked::Diff(AskedDiff {
        old: word_of(given, "OLD"),
        new: word_of(given, "NEW"),
        is_json: flag_of(given, "json"),
        is_stat: flag_of(given, "stat"),
        config: config_of(given),
    })
}

fn lines_asked<'a>(alloc: Global, given: &ArgMatches<'a>) -> Result<Asked<'a>, AllocError>
    ensures { IfOk result (AsksFor (codes "lines") (rows_of (found_of given.now))) }
{
    Ok(Asked::Lines(AskedLines {
        op: optional_of(given, "op"),
        is_json: flag_of(given, "json"),
        app: word_of(given, "APP"),
        files: words_of(alloc, given, "FILE")?,
    }))
}

/// Returns what a command for single files asks for, or None if there is no such command.
fn file_command_asked<'a>(
    alloc: Global,
    command: &str,
    given: &ArgMatches<'a>,
) -> Result<Option<Asked<'a>>, AllocError>
    ensures variant { IfOk result (λ asked. is_some asked
        ≡ list_any (bytes_eq command.now) file_names) }
    ensures asked { IfOk result (λ asked.
        IfSome asked (AsksFor command.now (rows_of (found_of given.now)))) }
{
    let asked = match command {
        "compile" => compile_asked(alloc, given),
        "check" => check_asked(alloc, given),
        "get" => Ok(get_asked(given)),
        "json" => json_asked(alloc, given),
        "text" => Ok(text_asked(given)),
        "diff" => Ok(diff_asked(given)),
        _ => return Ok(None),
    };
    Ok(Some(asked?))
}

/// Returns what another command asks for, or None if there is no such command.
fn other_command_asked<'a>(
    alloc: Global,
    command: &str,
    given: &ArgMatches<'a>,
) -> Result<Option<Asked<'a>>, AllocError>
    ensures variant { IfOk result (λ asked. is_some asked
        ≡ list_any (bytes_eq command.now) other_names) }
    ensures asked { IfOk result (λ asked.
        IfSome asked (AsksFor command.now (rows_of (found_of given.now)))) }
{
    let asked = match command {
        "lint" => lint_asked(alloc, given),
        "fmt" => format_asked(alloc, given),
        "coverage" => coverage_asked(alloc, given),
        "init" => Ok(Asked::Init {
            folder: optional_of(given, "FOLDER"),
        }),
        "explain" => Ok(Asked::Explain {
            word: optional_of(given, "WORD"),
        }),
        "lines" => lines_asked(alloc, given),
        "look" => look_asked(alloc, given),
        "serve" => serve_asked(alloc, given),
        _ => return Ok(None),
    };
    Ok(Some(asked?))
}

/// Returns what a command asks for, or None if there is no such command.
fn command_asked<'a>(
    alloc: Global,
    command: &str,
    given: &ArgMatches<'a>,
) -> Result<Option<Asked<'a>>, AllocError>
    ensures variant { IfOk result (λ asked. is_some asked ≡ is_command command.now) }
    ensures asked { IfOk result (λ asked.
        IfSome asked (AsksFor command.now (rows_of (found_of given.now)))) }
{
    match file_command_asked(alloc, command, given)? {
        Some(asked) => Ok(Some(asked)),
        None => other_command_asked(alloc, command, given),
    }
}

/// Returns what a command line asks for, or None if it names no command. `Err` means out of memory.
pub fn asked_by<'a>(
    alloc: Global,
    matches: &ArgMatches<'a>,
) -> Result<Option<Asked<'a>>, AllocError>
    ensures variant { IfOk result (λ asked.
        is_some asked ≡ enters_command (subcommand_rows_of matches.now)) }
    ensures asked { IfOk result (λ asked.
        IfSome asked (EntersFor (subcommand_rows_of matches.now))) }
{
    match matches.subcommand() {
        Some((command, given)) => command_asked(alloc, command, given),
        None => Ok(None),
    }
}
