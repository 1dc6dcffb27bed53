use crate::error::TreeError;

impl TreeError {
    /// Returns the error code: the lookup's, or the variant's name.
    pub fn word(self) -> &'static str {
        match self {
            TreeError::Look(error) => error.word(),
            TreeError::TooManySteps => "TooManySteps",
            TreeError::TreeTooLarge => "TreeTooLarge",
            TreeError::Memory => "Memory",
        }
    }
}
