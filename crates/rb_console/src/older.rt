//! Puts a new file into an older one's place.
use crate::files::{read_at_most, read_file};
use crate::output::{begins_as_bundle, create_beside, folder_of, id_of};
use std::fs::{Metadata, OpenFile, OpenOptions};
use std::io::{Seek, SeekFrom, Write};
use std::os::unix::fs::MetadataExt;
use std::random::RandomSource;
use std::rt::Files;
use std::{fs, io};

/// The first bytes of a `.res` file that say what it is (ICU `UDataInfo`).
pub(crate) const HEAD_BYTES: u64 = 16;

/// The bytes that an older file must have.
#[derive(Clone, Copy)]
pub(crate) enum Expected<'a> {
    /// Those of a bundle file, if it is written in place; else any.
    Bundle,
    /// These, which the command has read. A file with others stays.
    Text(&'a [u8]),
}

/// An older file that is open for writing, and what its name led to then.
#[derive(Drop)]
pub(crate) struct Older<F: Drop> {
    file: F,
    seen: Metadata,
    is_named: bool,
}

/// Opens an older file, which must be writable.
pub(crate) fn opened<R: Files>(rt: &R, target: &str) -> io::Result<Older<R::File>> {
    let seen = rt.metadata(target)?;
    let file = OpenOptions::new().write(true).open(rt, target)?;
    let is_named = id_of(&file.metadata()?) == id_of(&seen);
    Ok(Older {
        file,
        seen,
        is_named,
    })
}

/// Returns what changes with each change of a file, or with its name.
fn stamp_of(seen: &Metadata) -> ((u64, u64, u64), (i64, i64), (i64, i64)) {
    (
        (seen.dev(), seen.ino(), seen.len()),
        (seen.mtime(), seen.mtime_nsec()),
        (seen.ctime(), seen.ctime_nsec()),
    )
}

impl<F: Write + Seek + OpenFile + Drop> Older<F> {
    /// Checks whether the name still leads to this file, and nobody has changed it.
    fn is_unchanged<R: Files>(&self, rt: &R, target: &str) -> bool {
        match rt.metadata(target) {
            Ok(now) => self.is_named && stamp_of(&now) == stamp_of(&self.seen),
            Err(_) => false,
        }
    }

    /// Checks whether a new file in this one's place would have another owner or group, or leave
    /// other names of this one behind.
    fn is_kept(&self, newer: &Metadata) -> bool {
        let seen = &self.seen;
        seen.nlink() > 1 || seen.uid() != newer.uid() || seen.gid() != newer.gid()
    }

    /// Writes what is longer than the file behind it. If there is no space for it, the file is as it
    /// was.
    fn append(&mut self, more: &[u8]) -> io::Result<()> {
        let len = self.seen.len();
        self.file.seek(SeekFrom::Start(len))?;
        let written = self.file.write_all(more);
        if written.is_err() {
            let _ = self.file.set_len(len);
        }
        written
    }

    /// Writes bytes over the file's.
    fn overwrite(&mut self, bytes: &[u8], begin: &[u8]) -> io::Result<()> {
        self.file.seek(SeekFrom::Start(0))?;
        self.file.write_all(begin)?;
        self.file.set_len(bytes.len() as u64)?;
        self.file.sync_all()
    }

    /// Copies a new file's bytes into this one.
    fn copy(&mut self, bytes: &[u8]) -> Taken {
        let shared = bytes.len().min(self.seen.len() as usize);
        let (begin, more) = bytes.split_at(shared);
        if let Err(error) = self.append(more) {
            return Taken::Failed(error);
        }
        match self.overwrite(bytes, begin) {
            Ok(()) => Taken::Copied,
            Err(error) => Taken::Torn(error),
        }
    }
}

/// Says how a new file took its place.
#[derive(Drop)]
enum Taken {
    /// It has the place.
    Renamed,
    /// The older file has its bytes.
    Copied,
    /// The older file has bytes that weren't expected, and stays.
    Unexpected,
    /// The older file is as it was.
    Failed(io::Error),
    /// The older file has some of the bytes; the new one has all.
    Torn(io::Error),
}

/// Checks whether an older file has the bytes that are expected.
fn has_expected<R: Files + AllocGlobal>(
    rt: &R,
    target: &str,
    expected: Expected<'_>,
) -> io::Result<bool> {
    match expected {
        Expected::Bundle => {
            Ok(read_at_most(rt, target, HEAD_BYTES).is_ok_and(|head| begins_as_bundle(&head)))
        }
        Expected::Text(text) => Ok(read_file(rt, target)?.as_slice() == text),
    }
}

fn renamed<R: Files>(rt: &R, name: &str, target: &str) -> Taken {
    match fs::rename(rt, name, target) {
        Ok(()) => Taken::Renamed,
        Err(error) => Taken::Failed(error),
    }
}

/// Puts a whole new file into the place of an older one: renamed over it, or copied into it where
/// that would change whose file it is.
fn take<R: Files + AllocGlobal>(
    rt: &R,
    (name, newer): (&str, &Metadata),
    target: &str,
    (older, expected): (&mut Older<R::File>, Expected<'_>),
    bytes: &[u8],
) -> Taken {
    let is_expected = match has_expected(rt, target, expected) {
        Ok(has) => has && older.is_unchanged(rt, target),
        Err(error) => return Taken::Failed(error),
    };
    match expected {
        Expected::Text(_) if !is_expected => Taken::Unexpected,
        _ if is_expected && older.is_kept(newer) => older.copy(bytes),
        _ => renamed(rt, name, target),
    }
}

/// Writes a new file's bytes, with the permissions of the file that it replaces, and returns its
/// metadata.
fn write_new<R: Files>(
    file: &mut R::File,
    older: Option<&Metadata>,
    bytes: &[u8],
) -> io::Result<Metadata> {
    if let Some(older) = older {
        file.set_permissions(older.permissions())?;
    }
    file.write_all(bytes)?;
    file.metadata()
}

/// Writes a new file beside a target where nothing is, and renames it to that. If writing fails the
/// new file is removed, and nothing else ever is.
pub(crate) fn create<R: Files + RandomSource + AllocGlobal>(
    rt: &R,
    target: &str,
    bytes: &[u8],
) -> io::Result<()> {
    let (mut file, name) = create_beside(rt, folder_of(target))?;
    let written = match write_new::<R>(&mut file, None, bytes) {
        Ok(_) => fs::rename(rt, name.as_str(), target),
        Err(error) => Err(error),
    };
    if written.is_err() {
        let _ = fs::remove_file(rt, name.as_str());
    }
    written
}

/// Writes a new file beside an older one, with its permissions, and puts it into its place. Returns
/// false, and leaves the older one alone, if it doesn't have the text that is expected. The older one
/// is whole until then, also if writing fails, unless it is written in place; then the new file is
/// beside it until that is done.
pub(crate) fn replace<R: Files + RandomSource + AllocGlobal>(
    rt: &R,
    target: &str,
    (older, expected): (Older<R::File>, Expected<'_>),
    bytes: &[u8],
) -> io::Result<bool> {
    let mut older = older;
    let (mut file, name) = create_beside(rt, folder_of(target))?;
    let name = name.as_str();
    let taken = match write_new::<R>(&mut file, Some(&older.seen), bytes) {
        Ok(newer) => take(rt, (name, &newer), target, (&mut older, expected), bytes),
        Err(error) => Taken::Failed(error),
    };
    if matches!(taken, Taken::Copied | Taken::Unexpected | Taken::Failed(_)) {
        let _ = fs::remove_file(rt, name);
    }
    match taken {
        Taken::Renamed | Taken::Copied => Ok(true),
        Taken::Unexpected => Ok(false),
        Taken::Failed(error) | Taken::Torn(error) => Err(error),
    }
}
