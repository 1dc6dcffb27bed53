//! `resb compile --to`.
ghost use Rattle.std.specs.Prelude.{◌≡◌, IfErr};
ghost use Rattle.std.specs.Process.{exit_status};

use crate::compiling::{chosen_output, compile_to, language_of};
use crate::making::{MakeError, not_made};
use rb_asked::AskedCompileAll;
use rb_console::{
    CommandError, Console, are_same_file, each, failed, id_of, in_folder, printed, read_at_most,
    refused_on, resolved, stem,
};
use std::alloc::{AllocError, Global};
use std::collections::{BTreeMap, BTreeSet};
use std::io::ErrorKind;
use std::process::ExitCode;
use std::random::RandomSource;
use std::rt::{Clock, Files};
use std::{fs, io};

/// Returns a text's name below the folder that it is in, without the last ending. It has no empty
/// segment and no `..`, so its file is below the folder of the files.
fn name_below<'a>(from: &str, text: &'a str) -> Option<&'a str> {
    let rest = text.strip_prefix(from)?;
    let rest = if from.ends_with('/') {
        rest
    } else {
        rest.strip_prefix('/')?
    };
    for segment in rest.split('/') {
        if segment.is_empty() || segment == ".." {
            return None;
        }
    }
    rest.get(..stem_end(rest))
}

/// Returns the length of a name without its last ending.
fn stem_end(name: &str) -> usize {
    let folder = match name.rsplit_once('/') {
        Some((folder, _)) => folder.len().saturating_add(1),
        None => 0,
    };
    folder.saturating_add(stem(name).len())
}

/// Returns the name of a text's file in the folder, without its ending, or None if the text isn't
/// in the folder `from`.
fn name_of<'a>(asked: &AskedCompileAll<'_>, text: &'a str) -> Option<&'a str> {
    match asked.from {
        Some(from) => name_below(from, text),
        None => Some(stem(text)),
    }
}

/// Returns the file to which a text is compiled.
fn output_for(
    alloc: Global,
    asked: &AskedCompileAll<'_>,
    text: &str,
) -> Result<String, AllocError> {
    let name = name_of(asked, text).unwrap_or(stem(text));
    let mut output = in_folder(alloc, asked.folder, name)?;
    output.push_str(".res")?;
    Ok(output)
}

/// Makes the folder of a file, and those above it, if texts keep their folders.
fn make_folder<R: Files>(rt: &R, asked: &AskedCompileAll<'_>, output: &str) -> io::Result<()> {
    match (asked.from, output.rsplit_once('/')) {
        (Some(_), Some((folder, _))) => fs::create_dir_all(rt, folder),
        _ => Ok(()),
    }
}

/// The reason why texts can't be compiled together.
#[derive(Clone, Copy, Debug)]
enum BatchError<'a> {
    /// Two texts have one file, which has this name.
    Twice(&'a str, &'a str, &'a str),
    /// Two texts have files of two names, which lead to one.
    Shared(&'a str, &'a str),
    /// A text isn't in the folder that was given.
    Elsewhere(&'a str),
    Memory,
}

/// Checks that no two texts have one file.
fn check_names<'a>(alloc: Global, asked: &AskedCompileAll<'a>) -> Result<(), BatchError<'a>> {
    let mut by_name = BTreeMap::new(alloc);
    for text in &asked.texts {
        let Some(name) = name_of(asked, *text) else {
            return Err(BatchError::Elsewhere(text));
        };
        match by_name.insert(name, *text) {
            Ok(None) => {}
            Ok(Some(earlier)) => return Err(BatchError::Twice(name, earlier, text)),
            Err(_) => return Err(BatchError::Memory),
        }
    }
    Ok(())
}

/// The files to which texts are compiled, by what their names lead to.
#[derive(Drop)]
struct Outputs<'a> {
    by_name: BTreeMap<String, &'a str>,
    by_id: BTreeMap<(u64, u64), &'a str>,
}

impl<'a> Outputs<'a> {
    /// Adds a text's file, and returns an earlier text that has it, too.
    fn add<R: Files + AllocGlobal>(
        &mut self,
        rt: &R,
        output: &str,
        text: &'a str,
    ) -> Result<Option<&'a str>, AllocError> {
        let named = self.by_name.insert(resolved(rt, output)?, text)?;
        let id = rt.metadata(output).ok().and_then(|seen| id_of(&seen));
        match (named, id) {
            (None, Some(id)) => Ok(self.by_id.insert(id, text)?),
            _ => Ok(named),
        }
    }
}

/// Checks that no two texts have names that lead to one file, links followed.
fn check_files<'a, R: Files + AllocGlobal>(
    rt: &R,
    asked: &AskedCompileAll<'a>,
) -> Result<(), BatchError<'a>> {
    let alloc = rt.alloc();
    let mut outputs = Outputs {
        by_name: BTreeMap::new(alloc),
        by_id: BTreeMap::new(alloc),
    };
    for text in &asked.texts {
        let Ok(output) = output_for(alloc, asked, text) else {
            return Err(BatchError::Memory);
        };
        match outputs.add(rt, output.as_str(), text) {
            Ok(None) => {}
            Ok(Some(earlier)) => return Err(BatchError::Shared(earlier, text)),
            Err(_) => return Err(BatchError::Memory),
        }
    }
    Ok(())
}

/// The ordinary files that texts are in, each by its device and its number there.
#[derive(Drop)]
struct Inputs(BTreeSet<(u64, u64)>);

impl Inputs {
    /// Looks up each text's metadata. A text whose metadata can't be read is left out.
    fn of<R: Files + AllocGlobal>(rt: &R, texts: &[&str]) -> Result<Inputs, AllocError> {
        let mut ids = BTreeSet::new(rt.alloc());
        for text in texts {
            if let Some(id) = rt.metadata(text).ok().and_then(|seen| id_of(&seen)) {
                ids.insert(id)?;
            }
        }
        Ok(Inputs(ids))
    }

    /// Checks whether a file, links followed, is one of the texts.
    fn has<R: Files>(&self, rt: &R, file: &str) -> bool {
        match rt.metadata(file) {
            Ok(seen) => id_of(&seen).is_some_and(|id| self.0.contains(&id)),
            Err(_) => false,
        }
    }
}

/// Compiles a text to the file `output`, and returns the file's length.
fn compile_file<'a, R: Files + RandomSource + AllocGlobal>(
    rt: &R,
    inputs: &Inputs,
    asked: &AskedCompileAll<'_>,
    text: &'a str,
    output: &'a str,
) -> Result<usize, MakeError<'a>> {
    if let Err(error) = make_folder(rt, asked, output) {
        return Err(MakeError::Other(CommandError::Unwritten(output, error.kind())));
    }
    let is_input = inputs.has(rt, output) || are_same_file(rt, text, output);
    let chosen = match chosen_output(rt, asked.how, output, is_input) {
        Ok(chosen) => chosen,
        Err(error) => return Err(MakeError::Other(error)),
    };
    let language = language_of(asked.how);
    let read = read_at_most(rt, text, language.most_read());
    compile_to(rt, language, (text, read), (output, &chosen))
}

/// Prints the length of a file that was written, and returns the status of its text: 1 if there is
/// none.
fn written<R: Print + Eprint>(
    rt: &R,
    console: Console,
    output: &str,
    count: Result<usize, MakeError<'_>>,
) -> ExitCode
    ensures refused { IfErr count.entry (λ error. exit_status result ≡ 1) }
{
    let count = match count {
        Ok(_) if console.is_quiet => return ExitCode::SUCCESS,
        Ok(count) => count,
        Err(error) => {
            let _ = not_made(rt, console, error);
            return ExitCode::from(1);
        }
    };
    let output = console.on_stdout(output);
    printed(rt, println!(rt; "{output}: wrote {count} bytes"))
}

/// Compiles one text of many.
fn compile_one<R: Files + RandomSource + AllocGlobal + Print + Eprint>(
    rt: &R,
    console: Console,
    inputs: &Inputs,
    asked: &AskedCompileAll<'_>,
    text: &str,
) -> ExitCode {
    let Ok(output) = output_for(rt.alloc(), asked, text) else {
        let place = language_of(asked.how).no_place();
        let error = CommandError::Unread(text, place, ErrorKind::OutOfMemory);
        return failed(rt, console, error);
    };
    let count = compile_file(rt, inputs, asked, text, output.as_str());
    written(rt, console, output.as_str(), count)
}

/// Reports why texts can't be compiled together.
fn batch_refused<R: Eprint>(
    rt: &R,
    console: Console,
    folder: &str,
    error: BatchError<'_>,
) -> ExitCode {
    match error {
        BatchError::Twice(name, a, b) => {
            let (name, a, b) = (
                console.on_stderr(name),
                console.on_stderr(a),
                console.on_stderr(b),
            );
            let _ = eprintln!(rt; "resb: two texts are named {name}: {a} and {b}");
            ExitCode::from(2)
        }
        BatchError::Shared(a, b) => {
            let (a, b) = (console.on_stderr(a), console.on_stderr(b));
            let _ = eprintln!(rt; "resb: two texts have one file: {a} and {b}");
            ExitCode::from(2)
        }
        BatchError::Elsewhere(text) => {
            let _ = eprintln!(rt; "resb: a text is not in SRC: {}", console.on_stderr(text));
            ExitCode::from(2)
        }
        BatchError::Memory => refused_on(rt, console, folder, "Memory"),
    }
}

/// Refuses a folder without a name, two texts with one file, and a text that isn't in the folder
/// that was given.
fn refuse_batch<R: Files + AllocGlobal + Eprint>(
    rt: &R,
    console: Console,
    asked: &AskedCompileAll<'_>,
) -> Result<(), ExitCode> {
    if asked.folder.is_empty() {
        let _ = eprintln!(rt; "resb: DIR is empty");
        return Err(ExitCode::from(2));
    }
    let checked = match check_names(rt.alloc(), asked) {
        Ok(()) => check_files(rt, asked),
        Err(error) => Err(error),
    };
    match checked {
        Ok(()) => Ok(()),
        Err(error) => Err(batch_refused(rt, console, asked.folder, error)),
    }
}

/// Compiles each text to the file in the folder that has its stem and ends in `.res`, as `compile`
/// does, and prints a line for each. With `from` the file's name is that of the text below that
/// folder, and folders that are missing are made. An error is a line like that of `compile`, and
/// the other texts are compiled. If two texts have one file, a text isn't in `from`, or the
/// folder's name is empty, nothing is compiled. A file that is one of the texts, or standard output,
/// isn't written.
///
/// The status is 0; 1 if a text is refused or can't be read, or its file can't be written; 2 if
/// nothing is compiled, and as soon as standard output can't be written.
pub fn compile_all<R: Files + RandomSource + Clock + AllocGlobal + Print + Eprint>(
    rt: &R,
    console: Console,
    asked: &AskedCompileAll<'_>,
) -> ExitCode {
    let console = console.quieted(asked.how.is_quiet);
    if let Err(status) = refuse_batch(rt, console, asked) {
        return status;
    }
    let Ok(inputs) = Inputs::of(rt, &asked.texts) else {
        return refused_on(rt, console, asked.folder, "Memory");
    };
    each(
        rt,
        console,
        &asked.texts,
        |text| compile_one(rt, console, &inputs, asked, text),
    )
}
