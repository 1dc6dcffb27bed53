ghost use Rattle.std.specs.Prelude.{◌≡◌};
ghost use Rattle.rb_inherit.specs.inner.Ended.{ended};

use rb_fallback::LookError;

/// The reason why there is no tree.
#[derive(Clone, Copy, Debug, PartialEq, Eq)]
pub enum TreeError {
    /// A lookup of the path finds nothing.
    Look(LookError),
    /// The tree takes more steps than the caller's limit.
    TooManySteps,
    /// The tree is longer than its limit, or takes more than `STEP_LIMIT` steps.
    TreeTooLarge,
    /// Out of memory.
    Memory,
}

/// The reason why a tree ends whose item was found.
#[derive(Clone, Copy)]
pub(crate) enum WalkError {
    TooManySteps,
    TreeTooLarge,
    Memory,
}

impl WalkError {
    pub(crate) fn as_tree_error(self) -> TreeError
        ensures { result ≡ ended self }
    {
        match self {
            WalkError::TooManySteps => TreeError::TooManySteps,
            WalkError::TreeTooLarge => TreeError::TreeTooLarge,
            WalkError::Memory => TreeError::Memory,
        }
    }
}
