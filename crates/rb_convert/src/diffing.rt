//! `resb diff`.
use crate::compare::compare;
use crate::difference::{Counts, DiffForm, DiffPrinter};
use rb_asked::AskedDiff;
use rb_compiler::compile_bundle;
use rb_console::{
    CommandError, Console, Printing, ShownBytes, StartError, accepted, finish, in_folder,
    is_folder, is_text, printed, read_given, read_names,
};
use rb_json::is_within;
use rb_validator::Bundle;
use rb_views::root;
use std::alloc::{AllocError, Global};
use std::collections::BTreeSet;
use std::io;
use std::io::{BufWriter, ErrorKind, Write};
use std::process::ExitCode;
use std::rt::Files;

/// The status if something can't be compared.
const TROUBLE: u8 = 2;

/// The output of a command, and how the earlier comparisons ended.
#[derive(Drop)]
struct Differ<W: Write + Drop> {
    printer: DiffPrinter<W>,
    has_differences: bool,
    has_trouble: bool,
}

/// Compiles a bundle text.
fn compiled<'a, R: Files + AllocGlobal>(rt: &R, file: &'a str) -> Result<Bundle, CommandError<'a>> {
    let text = read_given(rt, file)?;
    match compile_bundle(rt.alloc(), &text) {
        Ok(bundle) => Ok(bundle),
        Err(fault) => Err(CommandError::TextRefused(file, fault)),
    }
}

/// Reads a bundle: a text if the file's name ends in `.txt`, otherwise a `.res` file.
fn bundle_in<'a, R: Files + AllocGlobal>(
    rt: &R,
    file: &'a str,
) -> Result<Bundle, CommandError<'a>> {
    let bundle = if is_text(file) {
        compiled(rt, file)?
    } else {
        accepted(rt, file)?
    };
    if is_within(root(&bundle)) {
        Ok(bundle)
    } else {
        Err(CommandError::Refused(file, "TooLarge"))
    }
}

impl<W: Write + Drop> Differ<W> {
    /// Compares two bundles, of which one may be missing, and prints the differences.
    fn compare(
        &mut self,
        alloc: Global,
        old: Option<&Bundle>,
        new: Option<&Bundle>,
    ) -> Result<(), AllocError> {
        let printer = &mut self.printer;
        printer.counts = Counts::NONE;
        if let (Some(old), Some(new)) = (old, new) {
            printer.report_flags(root(old), old.no_fallback(), new.no_fallback());
        }
        compare(
            printer,
            alloc,
            old.map(|old| root(old)),
            new.map(|new| root(new)),
        )?;
        if printer.counts != Counts::NONE {
            printer.put_counts();
            self.has_differences = true;
        }
        Ok(())
    }

    /// Flushes the output, and returns the status.
    fn end<R: Eprint>(&mut self, rt: &R) -> ExitCode {
        if let Err(error) = self.printer.out.end() {
            return printed(rt, Err(error));
        }
        match (self.has_trouble, self.has_differences) {
            (true, _) => ExitCode::from(TROUBLE),
            (false, true) => ExitCode::from(1),
            (false, false) => ExitCode::SUCCESS,
        }
    }

    /// Reports an error, after which other files are compared.
    fn fail<R: Eprint>(&mut self, rt: &R, console: Console, error: CommandError<'_>) {
        let _ = finish(rt, console, error);
        self.has_trouble = true;
    }

    /// Reads two files, of which one may be missing, and compares them.
    fn compare_files<R: Files + AllocGlobal + Eprint>(
        &mut self,
        rt: &R,
        console: Console,
        old: Option<&str>,
        new: Option<&str>,
    ) {
        let (old, new) = match (read(rt, old), read(rt, new)) {
            (Ok(old), Ok(new)) => (old, new),
            (Err(error), _) | (_, Err(error)) => return self.fail(rt, console, error),
        };
        if self
            .compare(rt.alloc(), old.as_ref(), new.as_ref())
            .is_err()
        {
            self.fail(rt, console, CommandError::NotStarted(StartError::Memory));
        }
    }
}

/// Reads a bundle, if there is a file.
fn read<'a, R: Files + AllocGlobal>(
    rt: &R,
    file: Option<&'a str>,
) -> Result<Option<Bundle>, CommandError<'a>> {
    match file {
        Some(file) => Ok(Some(bundle_in(rt, file)?)),
        None => Ok(None),
    }
}

/// Checks whether a name is that of a bundle text or a `.res` file.
fn is_bundle(name: &[u8]) -> bool {
    match str::from_utf8(name) {
        Ok(name) => is_text(name) || name.ends_with(".res"),
        Err(_) => is_text(ending(name)) || name.ends_with(b".res"),
    }
}

/// Returns the last four bytes of a name if they are text.
fn ending(name: &[u8]) -> &str {
    let at = name.len().saturating_sub(4);
    str::from_utf8(name.get(at..).unwrap_or(b"")).unwrap_or("")
}

/// Returns a name if it is that of an ordinary file, or None if nothing has it. Errors: the reason
/// why it can't be read.
fn there<'a, R: Files>(rt: &R, name: &'a str) -> Result<Option<&'a str>, ErrorKind> {
    match rt.metadata(name) {
        Ok(seen) if seen.is_file() => Ok(Some(name)),
        Ok(seen) if seen.is_dir() => Err(ErrorKind::IsADirectory),
        Ok(_) => Err(ErrorKind::Unsupported),
        Err(_) if rt.symlink_metadata(name).is_err() => Ok(None),
        Err(error) => Err(error.kind()),
    }
}

/// Checks whether a name that can't be read is that of no file.
fn is_no_file(kind: ErrorKind) -> bool {
    matches!(kind, ErrorKind::IsADirectory | ErrorKind::Unsupported)
}

/// Compares the files of one name in two folders. What is no file in either is passed over.
fn compare_named<R: Files + AllocGlobal + Eprint, W: Write + Drop>(
    rt: &R,
    console: Console,
    differ: &mut Differ<W>,
    asked: &AskedDiff<'_>,
    name: &str,
) -> Result<(), AllocError> {
    let alloc = rt.alloc();
    let old = in_folder(alloc, asked.old, name)?;
    let new = in_folder(alloc, asked.new, name)?;
    differ.printer.name = String::from_str(alloc, name)?;
    differ.printer.shown = format!(in alloc; "{}", console.on_stdout(name))?;
    match (there(rt, old.as_str()), there(rt, new.as_str())) {
        (Ok(old), Ok(new)) => differ.compare_files(rt, console, old, new),
        (Err(kind), Ok(None)) | (Ok(None), Err(kind)) if is_no_file(kind) => {}
        (Err(a), Err(b)) if is_no_file(a) && is_no_file(b) => {}
        (Err(kind), _) => differ.fail(rt, console, CommandError::Unread(old.as_str(), "", kind)),
        (_, Err(kind)) => differ.fail(rt, console, CommandError::Unread(new.as_str(), "", kind)),
    }
    Ok(())
}

/// Adds the names of a folder's bundles to those of another one, and reports those that aren't UTF-8.
fn add_names<R: Files + AllocGlobal + Eprint, W: Write + Drop>(
    rt: &R,
    console: Console,
    differ: &mut Differ<W>,
    names: &mut BTreeSet<String>,
    folder: &str,
) -> io::Result<()> {
    let alloc = rt.alloc();
    let listed = read_names(rt, folder)?;
    for bytes in listed.split(|byte| *byte == 0) {
        if !is_bundle(bytes) {
            continue;
        }
        if let Ok(name) = str::from_utf8(bytes) {
            names.insert(String::from_str(alloc, name)?)?;
            continue;
        }
        let shown = format!(in alloc; "{}", ShownBytes { bytes, console })?;
        let name = in_folder(alloc, folder, shown.as_str())?;
        let error = CommandError::Unread(name.as_str(), "", ErrorKind::InvalidData);
        differ.fail(rt, console, error);
    }
    Ok(())
}

/// Compares the bundles of two folders, file by file, in the order of their names.
fn compare_folders<R: Files + AllocGlobal + Eprint, W: Write + Drop>(
    rt: &R,
    console: Console,
    differ: &mut Differ<W>,
    asked: &AskedDiff<'_>,
) {
    let mut names = BTreeSet::new(rt.alloc());
    for folder in [asked.old, asked.new] {
        if let Err(error) = add_names(rt, console, differ, &mut names, folder) {
            differ.fail(rt, console, CommandError::Unread(folder, "", error.kind()));
            return;
        }
    }
    for name in names.iter() {
        if compare_named(rt, console, differ, asked, name.as_str()).is_err() {
            differ.fail(rt, console, CommandError::NotStarted(StartError::Memory));
            return;
        }
    }
}

/// Compares two bundles, or those of two folders file by file, and prints the items in which they
/// differ: for each path a line with a minus for the item of `old`, and one with a plus for that of
/// `new`, as JSON; or an object in a line; or how many they are. Of tables and arrays the items in
/// them are printed. The flag *no fallback* has the path `:no-fallback`. A file that only one of
/// the folders has is compared with no item at all. Of folders only ordinary files count whose names
/// end as a bundle's; the others are compared although one can't be read.
///
/// The status is 0 if nothing differs; 1 if something does; 2 if a file is refused or can't be
/// read, `old` is a folder and `new` isn't, memory runs out, or standard output can't be written.
pub fn diff<R: Files + AllocGlobal + Print + Eprint>(
    rt: &R,
    console: Console,
    asked: &AskedDiff<'_>,
) -> ExitCode {
    let Ok(writer) = BufWriter::new(rt.alloc(), io::writer(rt)) else {
        let _ = finish(rt, console, CommandError::NotStarted(StartError::Memory));
        return ExitCode::from(TROUBLE);
    };
    let mut differ = Differ {
        printer: DiffPrinter {
            out: Printing::new(writer, console.escapes()),
            form: DiffForm::of(asked),
            name: String::new(rt.alloc()),
            shown: String::new(rt.alloc()),
            counts: Counts::NONE,
        },
        has_differences: false,
        has_trouble: false,
    };
    if is_folder(rt, asked.old) && is_folder(rt, asked.new) {
        compare_folders(rt, console, &mut differ, asked);
    } else {
        differ.compare_files(rt, console, Some(asked.old), Some(asked.new));
    }
    differ.end(rt)
}
