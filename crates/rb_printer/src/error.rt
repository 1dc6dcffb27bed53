ghost use Rattle.std.specs.Prelude.{◌≡◌};
ghost use Rattle.rb_printer.specs.Words.{print_word};
ghost use Rattle.rb_printer.specs.declared.error.PrintError.TheVariants as errors;

use std::alloc::AllocError;

/// The reasons why a tree is not printed.
#[derive(Clone, Copy, Debug, PartialEq, Eq)]
pub enum PrintError {
    /// The text would exceed 8,388,608 bytes, and `parse` would reject it.
    TooLarge,
    /// Out of memory.
    Memory,
}

impl PrintError {
    /// Returns the variant's name.
    pub fn word(self) -> &'static str
        ensures { result.now ≡ print_word self }
    {
        match self {
            PrintError::TooLarge => "TooLarge",
            PrintError::Memory => "Memory",
        }
    }
}

impl From<AllocError> for PrintError {
    ghost from_gives = { λ _ e. e ≡ errors.Memory };

    fn from(_: AllocError) -> PrintError {
        PrintError::Memory
    }
}
