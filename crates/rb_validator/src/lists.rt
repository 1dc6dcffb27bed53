//! Access to lists without bounds errors: reads past the end return 0, and writes there do nothing.
ghost use Rattle.std.specs.Prelude.{◌≡◌, slice_index};

/// Marks the absence of an index.
pub const NONE: u32 = u32::MAX;

pub fn number_at(list: &[u32], i: usize) -> u32
    ensures { result ≡ slice_index list.now i }
{
    match list.get(i) {
        Some(x) => *x,
        None => 0,
    }
}

pub fn byte_at(list: &[u8], i: usize) -> u8
    ensures { result ≡ slice_index list.now i }
{
    match list.get(i) {
        Some(x) => *x,
        None => 0,
    }
}

pub fn put(list: &mut [u32], i: usize, x: u32) {
    if let Some(place) = list.get_mut(i) {
        *place = x;
    }
}

pub fn put_byte(list: &mut [u8], i: usize, x: u8) {
    if let Some(place) = list.get_mut(i) {
        *place = x;
    }
}

/// Converts an index to a number. Files are short enough for every index to fit.
pub fn number_of(i: usize) -> u32 {
    u32::try_from(i).unwrap_or(NONE)
}
