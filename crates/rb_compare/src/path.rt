use std::alloc::{AllocError, Global};

/// The maximum length of a path that is shown, and of each key in it, in bytes.
pub const SHOWN_PATH: usize = 200;

/// Returns a text of ASCII, or its first and its last bytes with `..` between them if it is longer
/// than `limit`.
pub fn shortened(alloc: Global, bytes: &[u8], limit: usize) -> Result<Vec<u8>, AllocError> {
    if bytes.len() <= limit {
        return bytes.to_vec(alloc);
    }
    let half = limit.saturating_sub(2) / 2;
    let mut short = bytes.get(..half).unwrap_or(&[]).to_vec(alloc)?;
    short.extend_from_slice(b"..")?;
    short.extend_from_slice(bytes.get(bytes.len().saturating_sub(half)..).unwrap_or(&[]))?;
    Ok(short)
}

/// Appends a key or an index to a path that is shown, after a slash if it isn't the first one.
pub fn push_shown(alloc: Global, path: &mut Vec<u8>, key: &[u8]) -> Result<(), AllocError> {
    if !path.is_empty() {
        path.push(b'/')?;
    }
    path.extend_from_slice(&shortened(alloc, key, SHOWN_PATH)?)
}
