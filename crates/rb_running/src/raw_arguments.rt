//! Finds an argument that isn't UTF-8.
use std::env::FillError;
use std::rt::Env;

/// The bytes of an argument's first buffer, which most arguments fit.
const FIRST_CAPACITY: usize = 256;

/// Returns the bytes of an argument, or None if it is missing or memory runs out.
fn argument_bytes<R: Env + AllocGlobal>(rt: &R, i: usize) -> Option<Vec<u8>> {
    let mut bytes = Vec::new(rt.alloc());
    let mut capacity = FIRST_CAPACITY;
    for _ in 0..usize::BITS {
        bytes.resize(capacity, 0).ok()?;
        match rt.arg(i, &mut bytes) {
            Ok(length) => {
                bytes.truncate(length);
                return Some(bytes);
            }
            Err(FillError::TooLong) => capacity = capacity.saturating_add(capacity),
            Err(FillError::NotPresent) => return None,
        }
    }
    None
}

/// Returns the first argument that isn't UTF-8, or None if none is found before memory runs out.
pub fn first_bad_argument<R: Env + AllocGlobal>(rt: &R) -> Option<Vec<u8>> {
    for i in 0..usize::MAX {
        let bytes = argument_bytes(rt, i)?;
        if str::from_utf8(&bytes).is_err() {
            return Some(bytes);
        }
    }
    None
}
