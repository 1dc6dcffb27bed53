//! Files that are written while one call of the runtime fails, and links in place of files.
use super::desk::{Desk, Paper};
use super::{EMPTY, ONE_STRING};
use rb_console::Console;
use rb_convert::compile;
use std::alloc::{Allocator, Global};
use std::cell::Cell;
use std::fmt::Display;
use std::fs::{Metadata, OpenFile, OpenOptions, Permissions};
use std::io;
use std::io::{ErrorKind, Lines, Read, Seek, SeekFrom, Write};
use std::path::PathBuf;
use std::process::ExitCode;
use std::random::RandomSource;
use std::rt::Files;

/// More calls than one compile makes.
const CALLS: u64 = 60;

/// The links of each desk, and what they lead to.
const LINKS: [(&str, &str); 4] = [
    ("link.res", "out.res"),
    ("to-new.res", "new.res"),
    ("to-text.res", "other.txt"),
    ("loop.res", "loop.res"),
];

/// The name that a file has until it is whole if there are no random bytes, which is taken here.
const TAKEN: &str = ".resb-unfinished-0000000000000000";

/// The name that is tried after that.
const NEXT: &str = ".resb-unfinished-0000000000000001";

/// Counts a call, and fails if it is the one that is to fail.
fn count(left: &Cell<u64>) -> io::Result<()> {
    let now = left.get();
    left.set(now.wrapping_sub(1));
    if now == 0 {
        return Err(io::Error::from(ErrorKind::StorageFull));
    }
    Ok(())
}

/// Follows a link.
fn followed(path: &str) -> &str {
    for (link, target) in LINKS {
        if link == path {
            return target;
        }
    }
    path
}

/// An open file, one of whose calls may fail.
#[derive(Drop)]
struct FaultyFile<'a> {
    file: Paper,
    left: &'a Cell<u64>,
}

impl<'a> Read for FaultyFile<'a> {
    fn read(&mut self, buf: &mut [u8]) -> io::Result<usize> {
        count(self.left)?;
        self.file.read(buf)
    }
}

impl<'a> Write for FaultyFile<'a> {
    fn write(&mut self, buf: &[u8]) -> io::Result<usize> {
        count(self.left)?;
        self.file.write(&buf[..buf.len().min(20)])
    }

    fn flush(&mut self) -> io::Result<()> {
        Ok(())
    }
}

impl<'a> Seek for FaultyFile<'a> {
    fn seek(&mut self, _to: SeekFrom) -> io::Result<u64> {
        Err(io::Error::from(ErrorKind::Unsupported))
    }
}

impl<'a> OpenFile for FaultyFile<'a> {
    fn metadata(&self) -> io::Result<Metadata> {
        count(self.left)?;
        self.file.metadata()
    }

    fn set_len(&self, size: u64) -> io::Result<()> {
        self.file.set_len(size)
    }

    fn sync_all(&self) -> io::Result<()> {
        Ok(())
    }

    fn sync_data(&self) -> io::Result<()> {
        Ok(())
    }

    fn set_permissions(&self, perm: Permissions) -> io::Result<()> {
        count(self.left)?;
        self.file.set_permissions(perm)
    }
}

/// A desk with links, one of whose calls fails.
#[derive(Drop)]
struct Faulty<'a> {
    desk: &'a Desk,
    left: &'a Cell<u64>,
}

impl<'a> Alloc for Faulty<'a> {
    type A = Global;

    fn alloc(&self) -> Global {
        self.desk.alloc()
    }
}

impl<'a> Print for Faulty<'a> {
    fn print<D: Display + Drop>(&self, value: D) -> io::Result<()> {
        self.desk.print(value)
    }

    fn println<D: Display + Drop>(&self, value: D) -> io::Result<()> {
        count(self.left)?;
        self.desk.println(value)
    }

    fn write_all(&self, bytes: &[u8]) -> io::Result<()> {
        Print::write_all(self.desk, bytes)
    }
}

impl<'a> Eprint for Faulty<'a> {
    fn eprint<D: Display + Drop>(&self, value: D) -> io::Result<()> {
        self.desk.eprint(value)
    }

    fn eprintln<D: Display + Drop>(&self, value: D) -> io::Result<()> {
        self.desk.eprintln(value)
    }
}

impl<'a> Input for Faulty<'a> {
    type Reader = &'static [u8];

    fn read_line<A: Allocator + Clone>(&self, buf: &mut String<A>) -> io::Result<usize> {
        self.desk.read_line(buf)
    }

    fn lines<A: Allocator>(&self, alloc: A) -> Lines<&'static [u8], A> {
        self.desk.lines(alloc)
    }

    fn reader(&self) -> &'static [u8] {
        self.desk.reader()
    }
}

impl<'a> RandomSource for Faulty<'a> {
    fn fill_bytes(&self, buf: &mut [u8]) -> io::Result<()> {
        self.desk.fill_bytes(buf)
    }
}

impl<'a> Files for Faulty<'a> {
    type File = FaultyFile<'a>;

    type Dir = Paper;

    fn open_file(&self, how: &OpenOptions, path: &str) -> io::Result<FaultyFile<'a>> {
        count(self.left)?;
        Ok(FaultyFile {
            file: self.desk.open_file(how, followed(path))?,
            left: self.left,
        })
    }

    fn open_dir(&self, path: &str) -> io::Result<Paper> {
        self.desk.open_dir(path)
    }

    fn metadata(&self, path: &str) -> io::Result<Metadata> {
        count(self.left)?;
        let target = followed(path);
        if target == path && path == "loop.res" {
            return Err(io::Error::from(ErrorKind::FilesystemLoop));
        }
        self.desk.metadata(target)
    }

    fn symlink_metadata(&self, path: &str) -> io::Result<Metadata> {
        count(self.left)?;
        if LINKS.iter().any(|link| link.0 == path) {
            return Ok(Metadata::of_symlink(0));
        }
        self.desk.symlink_metadata(path)
    }

    fn read_link<B: Allocator>(&self, alloc: B, path: &str) -> io::Result<PathBuf<B>> {
        count(self.left)?;
        Ok(PathBuf::from_str(alloc, followed(path))?)
    }

    fn copy(&self, from: &str, to: &str) -> io::Result<u64> {
        self.desk.copy(from, to)
    }

    fn rename(&self, from: &str, to: &str) -> io::Result<()> {
        count(self.left)?;
        self.desk.rename(from, to)
    }

    fn remove_file(&self, path: &str) -> io::Result<()> {
        count(self.left)?;
        self.desk.remove_file(path)
    }

    fn create_dir(&self, path: &str) -> io::Result<()> {
        self.desk.create_dir(path)
    }

    fn remove_dir(&self, path: &str) -> io::Result<()> {
        self.desk.remove_dir(path)
    }

    fn remove_dir_all<B: Allocator>(&self, alloc: B, path: &str) -> io::Result<()> {
        self.desk.remove_dir_all(alloc, path)
    }
}

/// Compiles a text of a new desk to a file while the call `call` fails. Returns the desk, and
/// whether the command succeeded.
fn compiled(alloc: Global, call: u64, output: &str) -> (Desk, bool) {
    let desk = Desk::new(alloc, 1000);
    let files: [(&str, &[u8]); 4] = [
        ("in.txt", b"root{}"),
        ("out.res", &ONE_STRING),
        ("other.txt", b"fr{}"),
        (TAKEN, b"mine"),
    ];
    for (name, bytes) in files {
        let _ = desk.put(name, bytes);
    }
    let left = Cell::new(call);
    let faulty = Faulty {
        desk: &desk,
        left: &left,
    };
    let status = compile(&faulty, Console::plain(), &super::compiling(output));
    (desk, status == ExitCode::SUCCESS)
}

/// Checks that there are only the files of the start and at most a whole new one, and that a
/// command that succeeded wrote it.
fn is_whole(desk: &Desk, target: &str, is_written: bool) -> bool {
    let is_older = if target == "out.res" {
        desk.has(target, &ONE_STRING)
    } else {
        !desk.keeps(target)
    };
    let is_target = desk.has(target, &EMPTY) || (!is_written && is_older);
    let are_others = desk.has("in.txt", b"root{}") && desk.has("other.txt", b"fr{}");
    let is_clean = desk.has(TAKEN, b"mine") && !desk.keeps(NEXT);
    let are_links = LINKS.iter().all(|link| !desk.keeps(link.0));
    is_target && are_others && is_clean && are_links
}

/// Output names, and the files that they lead to.
const OUTPUTS: [(&str, &str); 4] = [
    ("out.res", "out.res"),
    ("new.res", "new.res"),
    ("link.res", "out.res"),
    ("to-new.res", "new.res"),
];

fn is_left_whole(alloc: Global, call: u64, output: &str, target: &str) -> bool {
    let (desk, is_written) = compiled(alloc, call, output);
    is_whole(&desk, target, is_written)
}

fn all_left_whole(alloc: Global, output: &str, target: &str) -> bool {
    for call in 0..CALLS {
        if !is_left_whole(alloc, call, output, target) {
            return false;
        }
    }
    true
}

fn outputs_left_whole(alloc: Global) -> bool {
    for (output, target) in OUTPUTS {
        if !all_left_whole(alloc, output, target) {
            return false;
        }
    }
    true
}

#[test]
fn a_failed_call_leaves_files_whole(rt: HostRuntime) {
    assert!(rt; outputs_left_whole(rt.alloc()));
}

fn is_file_written(alloc: Global, output: &str, target: &str) -> bool {
    let (desk, is_written) = compiled(alloc, u64::MAX, output);
    is_written && is_whole(&desk, target, true) && desk.said("wrote 56 bytes\n", "")
}

fn are_files_written(alloc: Global) -> bool {
    for (output, target) in OUTPUTS {
        if !is_file_written(alloc, output, target) {
            return false;
        }
    }
    true
}

#[test]
fn no_failed_call_writes_the_file(rt: HostRuntime) {
    assert!(rt; are_files_written(rt.alloc()));
}

fn is_output_refused(alloc: Global, output: &str, errors: &str) -> bool {
    let (desk, is_written) = compiled(alloc, u64::MAX, output);
    !is_written && is_whole(&desk, "out.res", false) && desk.said("", errors)
}

#[test]
fn refuses_links_to_texts(rt: HostRuntime) {
    let errors = "resb: OUT is a bundle text: to-text.res\n";
    assert!(rt; is_output_refused(rt.alloc(), "to-text.res", errors));
}

#[test]
fn refuses_loops_of_links(rt: HostRuntime) {
    assert!(rt; is_output_refused(rt.alloc(), "loop.res", "cannot write loop.res\n"));
}
