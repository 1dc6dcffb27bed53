//! A runtime for tests: files in memory on a disk of a given size, and what is printed.
use std::alloc::{Allocator, Global};
use std::cell::{Cell, RefCell};
use std::fmt::Display;
use std::fs::{Metadata, OpenFile, OpenOptions, Permissions};
use std::io;
use std::io::{BufRead, ErrorKind, Lines, Read, Seek, SeekFrom, Write};
use std::random::RandomSource;
use std::rc::Rc;
use std::rt::{Clock, Files};
use std::time::Duration;

/// Bytes that all openings of a file share.
type Bytes = Rc<RefCell<Vec<u8>>>;

/// A file that is open.
#[derive(Drop)]
pub struct Paper {
    bytes: Bytes,
    at: usize,
    room: usize,
    is_device: bool,
}

impl Read for Paper {
    fn read(&mut self, buf: &mut [u8]) -> io::Result<usize> {
        let Ok(bytes) = self.bytes.try_borrow() else {
            return Err(io::Error::from(ErrorKind::ResourceBusy));
        };
        let rest = bytes.get(self.at..).unwrap_or(&[]);
        let count = rest.len().min(buf.len());
        buf[..count].copy_from_slice(&rest[..count]);
        self.at = self.at.saturating_add(count);
        Ok(count)
    }
}

impl Write for Paper {
    fn write(&mut self, buf: &[u8]) -> io::Result<usize> {
        let Ok(mut bytes) = self.bytes.try_borrow_mut() else {
            return Err(io::Error::from(ErrorKind::ResourceBusy));
        };
        let count = self.room.saturating_sub(bytes.len()).min(buf.len());
        if count == 0 && !buf.is_empty() {
            return Err(io::Error::from(ErrorKind::StorageFull));
        }
        bytes.extend_from_slice(&buf[..count])?;
        Ok(count)
    }

    fn flush(&mut self) -> io::Result<()> {
        Ok(())
    }
}

impl Seek for Paper {
    fn seek(&mut self, _to: SeekFrom) -> io::Result<u64> {
        Err(io::Error::from(ErrorKind::Unsupported))
    }
}

impl OpenFile for Paper {
    fn metadata(&self) -> io::Result<Metadata> {
        if self.is_device {
            return Err(io::Error::from(ErrorKind::Unsupported));
        }
        match self.bytes.try_borrow() {
            Ok(bytes) => Ok(Metadata::of_file(bytes.len() as u64)),
            Err(_) => Err(io::Error::from(ErrorKind::ResourceBusy)),
        }
    }

    fn set_len(&self, size: u64) -> io::Result<()> {
        if let Ok(mut bytes) = self.bytes.try_borrow_mut() {
            bytes.truncate(size as usize);
        }
        Ok(())
    }

    fn sync_all(&self) -> io::Result<()> {
        Ok(())
    }

    fn sync_data(&self) -> io::Result<()> {
        Ok(())
    }

    fn set_permissions(&self, _perm: Permissions) -> io::Result<()> {
        Ok(())
    }
}

/// Files on a disk that takes `room` bytes a file, and the text that was printed. Files below
/// `/dev/` are devices, and there are random bytes only if there is a `/dev/random`. Each reading
/// of the clock takes a second.
#[derive(Drop)]
pub struct Desk {
    alloc: Global,
    room: usize,
    files: RefCell<Vec<(String, Bytes)>>,
    output: RefCell<String>,
    errors: RefCell<String>,
    seconds: Cell<u64>,
}

impl Desk {
    pub fn new(alloc: Global, room: usize) -> Desk {
        Desk {
            alloc,
            room,
            files: RefCell::new(Vec::new(alloc)),
            output: RefCell::new(String::new(alloc)),
            errors: RefCell::new(String::new(alloc)),
            seconds: Cell::new(0),
        }
    }

    /// Returns the index of a file.
    fn find(&self, path: &str) -> Option<usize> {
        match self.files.try_borrow() {
            Ok(files) => files.iter().position(|file| file.0.as_str() == path),
            Err(_) => None,
        }
    }

    /// Returns a shared handle to a file's bytes.
    fn shared(&self, path: &str) -> Option<Bytes> {
        let files = self.files.try_borrow().ok()?;
        let file = files.iter().find(|file| file.0.as_str() == path)?;
        file.1.clone().ok()
    }

    /// Puts a file on the desk.
    fn place(&self, path: &str, bytes: &[u8]) -> io::Result<Bytes> {
        let held = Rc::new(self.alloc, RefCell::new(bytes.to_vec(self.alloc)?))?;
        let Ok(mut files) = self.files.try_borrow_mut() else {
            return Err(io::Error::from(ErrorKind::ResourceBusy));
        };
        let name = String::from_str(self.alloc, path)?;
        if files.push((name, held.clone()?)).is_err() {
            return Err(io::Error::from(ErrorKind::OutOfMemory));
        }
        Ok(held)
    }

    /// Puts a file on the desk. Returns false if memory ran out.
    pub fn put(&self, path: &str, bytes: &[u8]) -> bool {
        self.place(path, bytes).is_ok()
    }

    /// Checks whether a file exists and has these bytes.
    pub fn has(&self, path: &str, bytes: &[u8]) -> bool {
        match self.shared(path) {
            Some(shared) => match shared.try_borrow() {
                Ok(held) => held.as_slice() == bytes,
                Err(_) => false,
            },
            None => false,
        }
    }

    /// Checks whether a file exists.
    pub fn keeps(&self, path: &str) -> bool {
        self.find(path).is_some()
    }

    /// Checks whether these texts were printed to standard output and standard error since the last
    /// call.
    pub fn said(&self, output: &str, errors: &str) -> bool {
        let printed = taken(self.alloc, &self.output);
        let complained = taken(self.alloc, &self.errors);
        printed.as_str() == output && complained.as_str() == errors
    }

    fn say<D: Display + Drop>(
        &self,
        said: &RefCell<String>,
        value: D,
        end: &str,
    ) -> io::Result<()> {
        let text = format!(in self.alloc; "{value}{end}")?;
        match said.try_borrow_mut() {
            Ok(mut said) => Ok(said.push_str(text.as_str())?),
            Err(_) => Err(io::Error::from(ErrorKind::ResourceBusy)),
        }
    }
}

/// Takes the text that was printed since the last call.
fn taken(alloc: Global, said: &RefCell<String>) -> String {
    said.try_replace(String::new(alloc))
        .unwrap_or(String::new(alloc))
}

impl Alloc for Desk {
    type A = Global;

    fn alloc(&self) -> Global {
        self.alloc
    }
}

impl Print for Desk {
    fn print<D: Display + Drop>(&self, value: D) -> io::Result<()> {
        self.say(&self.output, value, "")
    }

    fn println<D: Display + Drop>(&self, value: D) -> io::Result<()> {
        self.say(&self.output, value, "\n")
    }

    fn write_all(&self, bytes: &[u8]) -> io::Result<()> {
        match str::from_utf8(bytes) {
            Ok(text) => self.say(&self.output, text, ""),
            Err(_) => Err(io::Error::from(ErrorKind::InvalidData)),
        }
    }
}

impl Eprint for Desk {
    fn eprint<D: Display + Drop>(&self, value: D) -> io::Result<()> {
        self.say(&self.errors, value, "")
    }

    fn eprintln<D: Display + Drop>(&self, value: D) -> io::Result<()> {
        self.say(&self.errors, value, "\n")
    }
}

impl Input for Desk {
    type Reader = &'static [u8];

    fn read_line<A: Allocator + Clone>(&self, buf: &mut String<A>) -> io::Result<usize> {
        self.reader().read_line(buf)
    }

    fn lines<A: Allocator>(&self, alloc: A) -> Lines<&'static [u8], A> {
        self.reader().lines(alloc)
    }

    fn reader(&self) -> &'static [u8] {
        &[]
    }
}

impl RandomSource for Desk {
    fn fill_bytes(&self, buf: &mut [u8]) -> io::Result<()> {
        if self.find("/dev/random").is_none() {
            return Err(io::Error::from(ErrorKind::NotFound));
        }
        buf.fill(7);
        Ok(())
    }
}

impl Clock for Desk {
    fn monotonic(&self) -> io::Result<Duration> {
        let seconds = self.seconds.get();
        self.seconds.set(seconds.saturating_add(1));
        Ok(Duration::from_secs(seconds))
    }

    fn since_1970(&self) -> io::Result<Duration> {
        self.monotonic()
    }
}

impl Files for Desk {
    type File = Paper;

    type Dir = Paper;

    fn open_file(&self, how: &OpenOptions, path: &str) -> io::Result<Paper> {
        how.check()?;
        let bytes = match self.shared(path) {
            Some(_) if how.asks_create_new() => {
                return Err(io::Error::from(ErrorKind::AlreadyExists));
            }
            Some(bytes) => bytes,
            None if how.asks_create() || how.asks_create_new() => self.place(path, &[])?,
            None => return Err(io::Error::from(ErrorKind::NotFound)),
        };
        let paper = Paper {
            bytes,
            at: 0,
            room: self.room,
            is_device: path.starts_with("/dev/"),
        };
        if how.asks_truncate() {
            paper.set_len(0)?;
        }
        Ok(paper)
    }

    fn open_dir(&self, _path: &str) -> io::Result<Paper> {
        Err(io::Error::from(ErrorKind::Unsupported))
    }

    fn metadata(&self, path: &str) -> io::Result<Metadata> {
        match self.shared(path) {
            None => Err(io::Error::from(ErrorKind::NotFound)),
            Some(_) if path.starts_with("/dev/") => Err(io::Error::from(ErrorKind::Unsupported)),
            Some(_) => Ok(Metadata::of_file(0)),
        }
    }

    fn symlink_metadata(&self, path: &str) -> io::Result<Metadata> {
        self.metadata(path)
    }

    fn copy(&self, _from: &str, _to: &str) -> io::Result<u64> {
        Err(io::Error::from(ErrorKind::Unsupported))
    }

    fn rename(&self, from: &str, to: &str) -> io::Result<()> {
        let name = String::from_str(self.alloc, to)?;
        let _ = self.remove_file(to);
        let found = self.find(from);
        if let (Some(i), Ok(mut files)) = (found, self.files.try_borrow_mut()) {
            if let Some(file) = files.get_mut(i) {
                file.0 = name;
                return Ok(());
            }
        }
        Err(io::Error::from(ErrorKind::NotFound))
    }

    fn remove_file(&self, path: &str) -> io::Result<()> {
        let Some(i) = self.find(path) else {
            return Err(io::Error::from(ErrorKind::NotFound));
        };
        if let Ok(mut files) = self.files.try_borrow_mut() {
            if i < files.len() {
                let _ = files.remove(i);
            }
        }
        Ok(())
    }

    fn create_dir(&self, _path: &str) -> io::Result<()> {
        Err(io::Error::from(ErrorKind::Unsupported))
    }

    fn remove_dir(&self, _path: &str) -> io::Result<()> {
        Err(io::Error::from(ErrorKind::Unsupported))
    }

    fn remove_dir_all<B: Allocator>(&self, _alloc: B, _path: &str) -> io::Result<()> {
        Err(io::Error::from(ErrorKind::Unsupported))
    }
}
