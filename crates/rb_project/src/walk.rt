//! Finds the texts below a folder.
use rb_console::{folder_of, in_folder, is_text, read_names};
use std::alloc::{AllocError, Global};
use std::io;
use std::rt::Files;

/// A walk through folders.
#[derive(Drop)]
struct Walk {
    /// The folders to read.
    pending: Vec<String>,
    texts: Vec<String>,
}

/// Returns the name of what is in a folder, without `./` before it.
fn name_in(alloc: Global, folder: &str, name: &str) -> Result<String, AllocError> {
    match folder {
        "." | "./" => String::from_str(alloc, name),
        folder => in_folder(alloc, folder, name),
    }
}

/// Checks whether names, each with a NUL behind it, have `root.txt`.
fn has_root(names: &[u8]) -> bool {
    names
        .split(|byte| *byte == 0)
        .any(|name| name == b"root.txt".as_slice())
}

impl Walk {
    /// Adds what has a name in a folder: a folder to those to read, and a text if `takes_texts`.
    /// Links to folders aren't followed.
    fn add<R: Files + AllocGlobal>(
        &mut self,
        rt: &R,
        folder: &str,
        name: &str,
        takes_texts: bool,
    ) -> io::Result<()> {
        let whole = name_in(rt.alloc(), folder, name)?;
        if is_text(name) {
            if takes_texts && rt.metadata(whole.as_str()).is_ok_and(|seen| seen.is_file()) {
                self.texts.push(whole)?;
            }
            return Ok(());
        }
        if rt
            .symlink_metadata(whole.as_str())
            .is_ok_and(|seen| seen.is_dir())
        {
            self.pending.push(whole)?;
        }
        Ok(())
    }

    /// Adds what is in a folder, without names that begin with a full stop.
    fn add_folder<R: Files + AllocGlobal>(
        &mut self,
        rt: &R,
        folder: &str,
        needs_root: bool,
    ) -> io::Result<()> {
        let names = read_names(rt, folder)?;
        let takes_texts = !needs_root || has_root(&names);
        for name in names.split(|byte| *byte == 0) {
            match str::from_utf8(name) {
                Ok(name) if !name.is_empty() && !name.starts_with('.') => {
                    self.add(rt, folder, name, takes_texts)?;
                }
                _ => {}
            }
        }
        Ok(())
    }
}

/// Returns the texts in a folder and below, by the order of folders and names. If `needs_root`,
/// only those beside a `root.txt`.
pub(crate) fn texts_below<R: Files + AllocGlobal>(
    rt: &R,
    folder: &str,
    needs_root: bool,
) -> io::Result<Vec<String>> {
    let alloc = rt.alloc();
    let mut walk = Walk {
        pending: Vec::new(alloc),
        texts: Vec::new(alloc),
    };
    walk.pending.push(String::from_str(alloc, folder)?)?;
    for _ in 0..u64::MAX {
        let Some(folder) = walk.pending.pop() else {
            break;
        };
        walk.add_folder(rt, folder.as_str(), needs_root)?;
    }
    let Walk { mut texts, .. } = walk;
    texts.sort_by(|a, b| {
        (folder_of(a.as_str()), a.as_str()).cmp(&(folder_of(b.as_str()), b.as_str()))
    })?;
    Ok(texts)
}
