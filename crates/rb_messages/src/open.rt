use crate::part::ArgumentType;

/// The maximum number of messages that contain one another.
pub const DEPTH_LIMIT: usize = 32_767;

/// The maximum number of units of a name, a number, a type, a selector or a style.
pub(crate) const LENGTH_LIMIT: usize = 65_535;

/// An argument whose messages aren't over.
#[derive(Clone, Copy)]
pub(crate) struct OpenArgument {
    pub(crate) of_type: ArgumentType,
    /// The offset of its name.
    pub(crate) first: usize,
    /// A message or an offset was read.
    pub(crate) has_begun: bool,
    pub(crate) has_other: bool,
}
