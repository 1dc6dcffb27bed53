//! Runs the commands that need no settings of a project, except `serve`.
use rb_arguments::Asked;
use rb_console::Console;
use rb_convert::{compile, compile_all, json, lines, text};
use rb_inspect::{check, explain, get, look_up, print_tree};
use rb_running::{Commands, lacking};
use std::process::ExitCode;
use std::random::RandomSource;
use std::rt::{Clock, Env, Files};

/// The commands that compile, print and check bundles, and look items up.
pub struct Bundles;

impl Commands for Bundles {
    fn run<R>(&self, rt: &R, console: Console, asked: Asked<'_>) -> ExitCode
    where
        R: Files + RandomSource + Clock + AllocGlobal + Input + Print + Eprint + Env + Clone + Drop,
    {
        match asked {
            Asked::Compile(asked) => compile(rt, console, &asked),
            Asked::CompileAll(asked) => compile_all(rt, console, &asked),
            Asked::Check(asked) => check(rt, console, &asked),
            Asked::Get(asked) => get(rt, console, &asked),
            Asked::Json(asked) => json(rt, console, &asked),
            Asked::Inherited(asked) => print_tree(rt, console, &asked),
            Asked::Text(asked) => text(rt, console, &asked),
            Asked::Explain { word } => explain(rt, console, word),
            Asked::Lines(asked) => lines(rt, console, &asked),
            Asked::Look(asked) => look_up(rt, console, &asked),
            _ => lacking(rt),
        }
    }
}
