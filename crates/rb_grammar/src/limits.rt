//! The limits of numbers in a text. specs/ repeats them, so that the proofs compare the two.

/// An Int is below this, and is stored modulo this.
pub const INT_MODULUS: u64 = 1 << 28;

pub const LEAST_INT_MAGNITUDE: u64 = 1 << 27;

/// An element of a vector is below this, and is stored modulo this.
pub const ELEMENT_MODULUS: u64 = 1 << 32;

/// From here up, an element of a vector is stored as a negative number.
pub const LEAST_ELEMENT_MAGNITUDE: u64 = 1 << 31;
