//! Decides how a command's output file is written, and writes it.
ghost use Rattle.std.specs.Prelude.{◌≡◌, OnOk, false, true};
ghost use Rattle.rb_console.specs.Writing.{is_written, plain_decision};
ghost use Rattle.rb_console.specs.declared.output.Decision.TheVariants as Decisions;
ghost use Rattle.rb_console.specs.declared.output.FileKind.TheVariants as Kinds;

use crate::files::{read_at_most, read_file};
use crate::given::is_text;
use crate::older::{Expected, HEAD_BYTES, create, opened, replace};
use std::alloc::{AllocError, Global};
use std::fs::{File, Metadata, OpenFile, OpenOptions};
use std::io::{ErrorKind, Write};
use std::os::unix::fs::MetadataExt;
use std::random::RandomSource;
use std::rt::Files;
use std::{fs, io};

/// The name under which the metadata of standard output are read.
const STANDARD_OUTPUT: &str = "/dev/stdout";

/// The most links that are followed from a name.
const MAX_LINKS: usize = 40;

/// The most names that are tried for a file that isn't whole yet.
const MAX_TRIES: u64 = 16;

/// The kind of file that a name leads to, its links followed.
#[derive(Clone, Copy, PartialEq, Eq)]
pub enum FileKind {
    /// Nothing is there yet.
    Missing,
    /// An ordinary file.
    Ordinary,
    /// A device or a pipe: it takes bytes and stores none.
    Device,
    /// A folder, or something that can't be looked at.
    Other,
}

/// The properties of the file to write, before anything is written.
#[derive(Clone, Copy)]
pub struct Seen {
    pub kind: FileKind,
    /// Its name is the name of a bundle text.
    pub is_text: bool,
    /// The name that its links lead to is the name of a bundle text.
    pub leads_to_text: bool,
    /// It is one of the texts that the command reads.
    pub is_input: bool,
    /// It has bytes, which aren't those of a bundle file.
    pub is_foreign: bool,
    /// It is standard output.
    pub is_output: bool,
}

/// The way in which a file is written, or the reason why it isn't.
#[derive(Clone, Copy, PartialEq, Eq)]
pub enum Decision {
    /// Refuse it as a bundle text.
    RefuseText,
    /// Refuse it as one of the texts that the command reads.
    RefuseInput,
    /// Refuse it as a file that is no bundle.
    RefuseForeign,
    /// Refuse it, as it can't be written.
    Refuse,
    /// Print the bytes to standard output.
    Print,
    /// Write to the device.
    WriteThrough,
    /// Write a new file beside its place, and rename it.
    Create,
    /// Write a new file beside the older one, and rename it over that.
    Replace,
}

/// Decides how a file is written, from what is seen of it. Only a device is written through, only
/// an ordinary file that is a bundle or empty is replaced, and a bundle text or a text that the
/// command reads never is.
pub fn decide(seen: Seen) -> Decision
    ensures replaced { result ≡ Decisions.Replace
        → (seen.kind ≡ Kinds.Ordinary) × (seen.leads_to_text ≡ false)
        × (seen.is_foreign ≡ false) }
    ensures created { result ≡ Decisions.Create
        → (seen.kind ≡ Kinds.Missing) × (seen.leads_to_text ≡ false) }
    ensures through { result ≡ Decisions.WriteThrough → seen.kind ≡ Kinds.Device }
    ensures text { seen.is_text ≡ true → result ≡ Decisions.RefuseText }
    ensures input { seen.is_text ≡ false → seen.is_input ≡ true → result ≡ Decisions.RefuseInput }
    ensures output { result ≡ Decisions.Print → seen.is_output ≡ true }
    ensures plain { seen.is_text ≡ false → seen.leads_to_text ≡ false → seen.is_input ≡ false
        → seen.is_output ≡ false → result ≡ plain_decision seen.is_foreign seen.kind }
{
    if seen.is_text {
        return Decision::RefuseText;
    }
    if seen.is_input {
        return Decision::RefuseInput;
    }
    if seen.is_output {
        return Decision::Print;
    }
    if seen.leads_to_text {
        return Decision::RefuseText;
    }
    match seen.kind {
        FileKind::Missing => Decision::Create,
        FileKind::Ordinary if seen.is_foreign => Decision::RefuseForeign,
        FileKind::Ordinary => Decision::Replace,
        FileKind::Device => Decision::WriteThrough,
        FileKind::Other => Decision::Refuse,
    }
}

/// A file to write.
#[derive(Drop)]
pub struct Output {
    pub decision: Decision,
    /// The name that its links lead to.
    target: String,
    /// The error with which a file is refused that can't be written.
    refusal: ErrorKind,
}

/// Identifies an ordinary file by its device and its number there; `None` for anything else, and in
/// a runtime whose files have no numbers.
pub fn id_of(seen: &Metadata) -> Option<(u64, u64)> {
    if seen.is_file() && seen.ino() != 0 {
        Some((seen.dev(), seen.ino()))
    } else {
        None
    }
}

/// Checks whether two names lead to one ordinary file.
pub fn are_same_file<R: Files>(rt: &R, a: &str, b: &str) -> bool {
    let (Ok(first), Ok(second)) = (rt.metadata(a), rt.metadata(b)) else {
        return false;
    };
    let id = id_of(&first);
    first.is_file() && (a == b || (id.is_some() && id == id_of(&second)))
}

/// Checks whether a name leads to standard output, which may be a file, a pipe or a device.
fn is_standard_output<R: Files>(rt: &R, name: &str) -> bool {
    let (Ok(named), Ok(output)) = (rt.metadata(name), rt.metadata(STANDARD_OUTPUT)) else {
        return false;
    };
    named.ino() != 0 && named.ino() == output.ino() && named.dev() == output.dev()
}

/// Returns the folder of a name, up to and including its last slash.
pub(crate) fn folder_of(name: &str) -> &str {
    match name.rsplit_once('/') {
        Some((folder, _)) => name.get(..folder.len().saturating_add(1)).unwrap_or(""),
        None => "",
    }
}

/// Returns the name that a link leads to.
fn followed<R: Files + AllocGlobal>(rt: &R, link: &str) -> io::Result<String> {
    let alloc = rt.alloc();
    let to = rt.read_link(alloc, link)?.into_string();
    if to.starts_with('/') {
        return Ok(to);
    }
    let folder = folder_of(link);
    Ok(format!(in alloc; "{folder}{to}")?)
}

/// Follows the links of a name to the first name that is no link. It may be that of nothing.
fn target_of<R: Files + AllocGlobal>(rt: &R, name: &str) -> io::Result<String> {
    let mut target = String::from_str(rt.alloc(), name)?;
    for _ in 0..MAX_LINKS {
        match rt.symlink_metadata(target.as_str()) {
            Ok(seen) if seen.is_symlink() => target = followed(rt, target.as_str())?,
            Err(error) if error.kind() != ErrorKind::NotFound => return Err(error),
            _ => return Ok(target),
        }
    }
    Err(io::Error::from(ErrorKind::FilesystemLoop))
}

/// Returns a name without its segments `.`, and without those that `..` takes back.
fn without_dots(alloc: Global, name: &str) -> Result<String, AllocError> {
    let mut kept: Vec<&str> = Vec::new(alloc);
    for segment in name.split('/') {
        match segment {
            "" | "." => {}
            ".." if kept.last().is_some_and(|last| *last != "..") => {
                let _ = kept.pop();
            }
            _ => kept.push(segment)?,
        }
    }
    let mut clean = String::new(alloc);
    for segment in &kept {
        clean.push('/')?;
        clean.push_str(segment)?;
    }
    Ok(clean)
}

/// Returns the longest folder of a name that is there, with its links followed, and the remaining
/// name.
fn real_folder<'a, R: Files + AllocGlobal>(rt: &R, name: &'a str) -> (Option<String>, &'a str) {
    let mut folder = folder_of(name);
    for _ in 0..name.len() {
        let named = if folder.is_empty() { "." } else { folder };
        if let Ok(real) = rt.canonicalize(rt.alloc(), named) {
            return (
                Some(real.into_string()),
                name.get(folder.len()..).unwrap_or(name),
            );
        }
        if folder.is_empty() {
            break;
        }
        folder = folder_of(folder.trim_end_matches('/'));
    }
    (None, name)
}

/// Returns the name of the file that a name leads to, which may be missing, with all links followed.
/// Two names lead to one file if this is the same; a name whose links form a circle stays.
pub fn resolved<R: Files + AllocGlobal>(rt: &R, name: &str) -> Result<String, AllocError> {
    let alloc = rt.alloc();
    let target = match target_of(rt, name) {
        Ok(target) => target,
        Err(_) => String::from_str(alloc, name)?,
    };
    let (folder, rest) = real_folder(rt, target.as_str());
    let rest = without_dots(alloc, rest)?;
    match folder {
        Some(folder) => format!(in alloc; "{folder}{rest}"),
        None => Ok(rest),
    }
}

/// Looks at what a name leads to.
fn kind_of<R: Files>(rt: &R, name: &str) -> FileKind {
    match rt.metadata(name) {
        Ok(seen) if seen.is_file() => FileKind::Ordinary,
        Ok(seen) if seen.is_dir() => FileKind::Other,
        Ok(_) => FileKind::Device,
        Err(error) if error.kind() == ErrorKind::NotFound && !name.ends_with('/') =>
            FileKind::Missing,
        Err(_) => FileKind::Other,
    }
}

/// Checks whether a target is what its name leads to: an ordinary file, or nothing. What a
/// descriptor of this process leads to may be without a name, or another file may have its name.
fn is_target<R: Files>(rt: &R, name: &str, target: &str) -> bool {
    match (rt.metadata(name), rt.symlink_metadata(target)) {
        (Ok(named), Ok(found)) => found.is_file() && id_of(&named) == id_of(&found),
        (Err(_), Err(error)) => error.kind() == ErrorKind::NotFound,
        _ => false,
    }
}

/// Looks at the kind of a file to write, and finds the name that its links lead to. A device keeps
/// its own name, and so does what can't be written.
pub(crate) fn located<R: Files + AllocGlobal>(
    rt: &R,
    name: &str,
) -> io::Result<(FileKind, String)> {
    let kind = kind_of(rt, name);
    if kind == FileKind::Ordinary || kind == FileKind::Missing {
        let target = target_of(rt, name)?;
        if !target.is_empty() && is_target(rt, name, target.as_str()) {
            return Ok((kind, target));
        }
        return Ok((FileKind::Other, target));
    }
    Ok((kind, String::from_str(rt.alloc(), name)?))
}

/// Returns the error with which a name is refused that leads to nothing that can be written.
fn refusal_of<R: Files>(rt: &R, name: &str) -> ErrorKind {
    match rt.metadata(name) {
        Ok(seen) if seen.is_dir() => ErrorKind::IsADirectory,
        Ok(_) => ErrorKind::PermissionDenied,
        Err(error) => error.kind(),
    }
}

/// Checks whether the bytes of a file are none, or begin as those of a `.res` file of any version do:
/// `ResB` is the name of the form.
pub(crate) fn begins_as_bundle(head: &[u8]) -> bool {
    matches!(
        head,
        [] | [
            _,
            _,
            0xDA,
            0x27,
            _,
            _,
            _,
            _,
            _,
            _,
            _,
            _,
            b'R',
            b'e',
            b's',
            b'B',
            ..
        ]
    )
}

/// Checks whether an ordinary file has bytes that aren't those of a bundle file. One that can't be
/// read may have; if it can't be written either, that is the error.
fn is_foreign<R: Files + AllocGlobal>(rt: &R, name: &str) -> bool {
    match read_at_most(rt, name, HEAD_BYTES) {
        Ok(head) => !begins_as_bundle(&head),
        Err(_) => OpenOptions::new().write(true).open(rt, name).is_ok(),
    }
}

/// Says of the file to write what the command line does.
#[derive(Clone, Copy)]
pub struct Wanted {
    /// It is one of the texts that the command reads.
    pub is_input: bool,
    /// It may be a file that is no bundle.
    pub is_forced: bool,
}

/// Looks at a file to write, and decides how it is written. Nothing is written yet.
pub fn output_of<R: Files + AllocGlobal>(rt: &R, name: &str, wanted: Wanted) -> Output {
    let (kind, target, refusal) = match located(rt, name) {
        Ok((FileKind::Other, target)) => (FileKind::Other, target, refusal_of(rt, name)),
        Ok((kind, target)) => (kind, target, ErrorKind::PermissionDenied),
        Err(error) => (FileKind::Other, String::new(rt.alloc()), error.kind()),
    };
    let seen = Seen {
        kind,
        is_text: is_text(name),
        leads_to_text: is_text(target.as_str()),
        is_input: wanted.is_input,
        is_foreign: kind == FileKind::Ordinary && !wanted.is_forced && is_foreign(rt, name),
        is_output: is_standard_output(rt, name),
    };
    Output {
        decision: decide(seen),
        target,
        refusal,
    }
}

/// Draws a number for a name. If the source fails, the name can be guessed, which does no harm: the
/// file is created only if no file has its name.
fn drawn<R: RandomSource>(rt: &R) -> u64 {
    let mut bytes = [0u8; 8];
    match rt.fill_bytes(&mut bytes) {
        Ok(()) => u64::from_le_bytes(bytes),
        Err(_) => 0,
    }
}

/// Creates a new file in a folder, and returns it with its name.
pub(crate) fn create_beside<R: Files + RandomSource + AllocGlobal>(
    rt: &R,
    folder: &str,
) -> io::Result<(R::File, String)> {
    let number = drawn(rt);
    for i in 0..MAX_TRIES {
        let number = number.wrapping_add(i);
        let name = format!(in rt.alloc(); "{folder}.resb-unfinished-{number:016x}")?;
        match File::create_new(rt, name.as_str()) {
            Ok(file) => return Ok((file, name)),
            Err(error) if error.kind() == ErrorKind::AlreadyExists => {}
            Err(error) => return Err(error),
        }
    }
    Err(io::Error::from(ErrorKind::AlreadyExists))
}

/// Writes to a device, and to nothing else if its name leads to an ordinary file by now.
fn write_through<R: Files>(rt: &R, name: &str, bytes: &[u8]) -> io::Result<()> {
    let mut file = OpenOptions::new().write(true).open(rt, name)?;
    if file.metadata().is_ok_and(|seen| seen.is_file()) {
        return Err(io::Error::from(ErrorKind::PermissionDenied));
    }
    file.write_all(bytes)
}

/// Checks whether a file has these bytes, and no others.
fn has_bytes<R: Files + AllocGlobal>(rt: &R, name: &str, bytes: &[u8]) -> bool {
    match rt.metadata(name) {
        Ok(seen) if seen.len() == bytes.len() as u64 => {
            read_file(rt, name).is_ok_and(|found| found.as_slice() == bytes)
        }
        _ => false,
    }
}

/// Writes a new file over an older one that may be written, unless that has these bytes already.
fn renew<R: Files + RandomSource + AllocGlobal>(
    rt: &R,
    target: &str,
    bytes: &[u8],
) -> io::Result<()> {
    let older = opened(rt, target)?;
    if has_bytes(rt, target, bytes) {
        return Ok(());
    }
    replace(rt, target, (older, Expected::Bundle), bytes)?;
    Ok(())
}

/// Writes a file as it was decided, or refuses it. If writing fails an older file is whole. An older
/// file that has these bytes already is left alone.
pub fn write_output<R: Files + RandomSource + AllocGlobal>(
    rt: &R,
    output: &Output,
    bytes: &[u8],
) -> io::Result<()>
    ensures { OnOk result (is_written output.now.decision ≡ true) }
{
    let target = output.target.as_str();
    match output.decision {
        Decision::Create => create(rt, target, bytes),
        Decision::Replace => renew(rt, target, bytes),
        Decision::WriteThrough => write_through(rt, target, bytes),
        _ => Err(io::Error::from(output.refusal)),
    }
}
