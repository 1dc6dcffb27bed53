//! Runs the command of a command line.
use rb_arguments::Asked;
use rb_asked::AskedDiff;
use rb_bundles::Bundles;
use rb_console::Console;
use rb_convert::diff;
use rb_fmt::format_all;
use rb_project::{init, sides_of};
use rb_review::{cover_all, lint_all};
use rb_running::Commands;
use rb_serving::Serving;
use std::env;
use std::env::VarError;
use std::process::ExitCode;
use std::random::RandomSource;
use std::rt::{Clock, Env, Files};

/// `diff [OPTIONS] OLD NEW`. Whatever goes wrong is status 2, as 1 says that something differs.
fn run_diff<R: Files + AllocGlobal + Print + Eprint>(
    rt: &R,
    console: Console,
    asked: &AskedDiff<'_>,
) -> ExitCode {
    match sides_of(rt, console, asked.config, (asked.old, asked.new)) {
        Ok((old, new)) => {
            let sides = AskedDiff {
                old: old.as_str(),
                new: new.as_str(),
                ..*asked
            };
            diff(rt, console, &sides)
        }
        Err(_) => ExitCode::from(2),
    }
}

/// Checks whether the environment has a NO_COLOR that isn't empty.
fn is_colorless<R: AllocGlobal + Env>(rt: &R) -> bool {
    match env::var(rt, "NO_COLOR") {
        Ok(value) => !value.is_empty(),
        Err(VarError::NotPresent) => false,
        Err(_) => true,
    }
}

/// All commands.
pub struct All;

impl Commands for All {
    fn run<R>(&self, rt: &R, console: Console, asked: Asked<'_>) -> ExitCode
    where
        R: Files + RandomSource + Clock + AllocGlobal + Input + Print + Eprint + Env + Clone + Drop,
    {
        match asked {
            Asked::Diff(asked) => run_diff(rt, console, &asked),
            Asked::Lint(asked) => lint_all(rt, (console, is_colorless(rt)), &asked),
            Asked::Format(asked) => format_all(rt, console, &asked),
            Asked::Coverage(asked) => cover_all(rt, console, &asked),
            Asked::Init { folder } => init(rt, console, folder.unwrap_or(".")),
            asked @ Asked::Serve(_) => Serving.run(rt, console, asked),
            asked => Bundles.run(rt, console, asked),
        }
    }
}
