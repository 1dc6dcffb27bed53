//! The limits of a tree with inheritance. Aliases that lead in circles, or to each other, make such
//! a tree exponentially larger than its bundles, so its length and the work on it are bounded.

/// The maximum length of a tree as JSON, in bytes.
pub const TREE_LIMIT: u64 = 33_554_432;

/// The maximum number of steps that a tree takes without a limit of the caller.
pub const STEP_LIMIT: u64 = 268_435_456;

/// The limits that a caller sets to a tree.
#[derive(Clone, Copy)]
pub struct TreeLimits {
    /// The maximum number of steps; `None` is `STEP_LIMIT`.
    pub steps: Option<u64>,
    /// The maximum length in bytes, at most `TREE_LIMIT`.
    pub bytes: u64,
}

impl TreeLimits {
    /// Returns the limits that hold without any of the caller.
    pub fn none() -> TreeLimits {
        TreeLimits {
            steps: None,
            bytes: TREE_LIMIT,
        }
    }
}
