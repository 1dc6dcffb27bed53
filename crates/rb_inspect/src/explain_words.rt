//! `resb explain`.
use rb_console::{Console, printed};
use rb_explain::{Explanation, Of};
use std::io;
use std::process::ExitCode;

/// The kinds of errors, in the order in which they are explained.
const KINDS: [Of; 11] = [
    Of::Text,
    Of::File,
    Of::Path,
    Of::Printing,
    Of::Value,
    Of::Json,
    Of::Start,
    Of::Request,
    Of::Lookup,
    Of::Serving,
    Of::Memory,
];

/// Prints the codes of one kind of errors, each with its meaning.
fn list_kind<R: Print>(rt: &R, of: Of) -> io::Result<()> {
    println!(rt; "{of}:")?;
    for line in of.explanations().lines() {
        let explanation = Explanation::read(of, line);
        let (word, meaning) = (explanation.word, explanation.meaning);
        println!(rt; "  {word}: {meaning}")?;
    }
    Ok(())
}

fn list<R: Print>(rt: &R) -> io::Result<()> {
    for of in KINDS {
        list_kind(rt, of)?;
    }
    Ok(())
}

/// Prints the explanations of a word; whether there is one.
fn explain_word<R: Print>(rt: &R, word: &str) -> io::Result<bool> {
    let mut is_known = false;
    for of in KINDS {
        if let Some(explanation) = of.explanation(word) {
            println!(rt; "{explanation}")?;
            is_known = true;
        }
    }
    Ok(is_known)
}

/// Prints what an error word means, its likely causes and what to do, or without a word the list of
/// all words. If a word means one thing in a command and another in the next, each meaning is
/// printed, with the commands that have it. The status is 0; 1 if there is no such word; 2 if
/// standard output can't be written.
pub fn explain<R: Print + Eprint>(rt: &R, console: Console, word: Option<&str>) -> ExitCode {
    let Some(word) = word else {
        return printed(rt, list(rt));
    };
    match explain_word(rt, word) {
        Ok(true) => ExitCode::SUCCESS,
        Ok(false) => {
            let word = console.on_stderr(word);
            let _ = eprintln!(rt; "resb: {word} is no error word: resb explain lists them");
            ExitCode::from(1)
        }
        Err(error) => printed(rt, Err(error)),
    }
}
