use rb_lexer::{SourceFault, SourceKind};
use std::alloc::{AllocError, AllocFailed};

/// The reasons why a text is not formatted.
#[derive(Clone, Copy, Debug, PartialEq, Eq)]
pub enum FormatFault {
    /// The text has an error.
    Refused(SourceFault),
    /// The formatted text would exceed the limit of a source.
    TooLarge,
    /// The formatted text would have other tokens or comments than the text.
    Differs,
    /// Out of memory.
    Memory,
}

impl From<AllocError> for FormatFault {
    ghost use Rattle.std.specs.Prelude.{◌≡◌};
    ghost use Rattle.rb_layout.specs.declared.fault.FormatFault.TheVariants.{Memory};

    ghost from_gives = { λ _ e. e ≡ Memory };

    fn from(_: AllocError) -> FormatFault {
        FormatFault::Memory
    }
}

impl<T: Drop> From<AllocFailed<T>> for FormatFault {
    ghost use Rattle.std.specs.Prelude.{◌≡◌};
    ghost use Rattle.rb_layout.specs.declared.fault.FormatFault.TheVariants.{Memory};

    ghost from_gives = { λ _ e. e ≡ Memory };

    fn from(_: AllocFailed<T>) -> FormatFault {
        FormatFault::Memory
    }
}

impl From<SourceFault> for FormatFault {
    ghost use Rattle.std.specs.Prelude.{◌≡◌, ◌≢◌};
    ghost use Rattle.rb_layout.specs.declared.fault.FormatFault.TheVariants.{Memory, Refused};
    ghost use Rattle.rb_layout.specs.Formatted.{fault_of};

    ghost from_gives = { λ fault e. e ≡ fault_of fault };

    fn from(fault: SourceFault) -> FormatFault {
        match fault.kind {
            SourceKind::Memory => FormatFault::Memory,
            _ => FormatFault::Refused(fault),
        }
    }
}
