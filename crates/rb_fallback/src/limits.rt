//! The limits of a lookup. specs/ repeats them, so that the proofs compare the two.

/// The maximum number of levels of a lookup.
pub const LEVEL_LIMIT: u16 = 256;

/// The maximum number of bytes in a path, including one that an alias gives.
pub const PATH_LIMIT: usize = 1024;
