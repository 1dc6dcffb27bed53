//! Lists folders.
use std::alloc::{AllocError, Global};
use std::io;
use std::io::Read;
use std::rt::Files;

/// Reads the names of what is in a folder, each with a NUL behind it.
pub fn read_names<R: Files + AllocGlobal>(rt: &R, folder: &str) -> io::Result<Vec<u8>> {
    let mut names = Vec::new(rt.alloc());
    let mut buffer = [0u8; 4096];
    let mut dir = rt.open_dir(in_folder(rt.alloc(), folder, "")?.as_str())?;
    for _ in 0..u64::MAX {
        let count = dir.read(&mut buffer)?;
        if count == 0 {
            break;
        }
        names.extend_from_slice(buffer.get(..count).unwrap_or(&buffer))?;
    }
    Ok(names)
}

/// Checks whether a name is that of a folder.
pub fn is_folder<R: Files>(rt: &R, name: &str) -> bool {
    rt.metadata(name).is_ok_and(|seen| seen.is_dir())
}

/// Returns the name of a file in a folder.
pub fn in_folder(alloc: Global, folder: &str, name: &str) -> Result<String, AllocError> {
    if folder.ends_with('/') {
        format!(in alloc; "{folder}{name}")
    } else {
        format!(in alloc; "{folder}/{name}")
    }
}

/// Returns a file's folder, or `.` for a name without one.
pub fn folder_of(file: &str) -> &str {
    match file.rsplit_once('/') {
        Some(("", _)) => "/",
        Some((folder, _)) => folder,
        None => ".",
    }
}
