//! The limits of a bundle's tree. specs/ repeats them, so that the proofs compare the two.

/// The maximum height of a bundle's tree, in levels.
pub const HEIGHT_LIMIT: u64 = 64;

/// The maximum weight of a bundle's tree, in bytes as `Tree::weight` counts them.
pub const WEIGHT_LIMIT: u64 = 33_554_432;
