//! Names of files from the top.
use std::alloc::{AllocError, Global};

/// Adds the parts of a name, and removes a part for each `..`.
fn add_parts<'a>(parts: &mut Vec<&'a str>, name: &'a str) -> Result<(), AllocError> {
    for part in name.split('/') {
        match part {
            "" | "." => {}
            ".." => {
                let _ = parts.pop();
            }
            part => parts.push(part)?,
        }
    }
    Ok(())
}

/// Joins parts, each with a slash before it.
fn joined(alloc: Global, parts: &[&str]) -> Result<String, AllocError> {
    let mut name = String::new(alloc);
    for part in parts {
        name.push('/')?;
        name.push_str(part)?;
    }
    Ok(name)
}

/// Returns the name from the top of one that is relative to a folder, without `.` and `..`.
pub(crate) fn whole_name(alloc: Global, folder: &str, name: &str) -> Result<String, AllocError> {
    let mut parts = Vec::new(alloc);
    if !name.starts_with('/') {
        add_parts(&mut parts, folder)?;
    }
    add_parts(&mut parts, name)?;
    joined(alloc, &parts)
}
