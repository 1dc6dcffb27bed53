/// The state in a table of what a lookup asks for.
#[derive(Clone, Copy, Debug, PartialEq, Eq)]
pub(crate) enum Asked {
    /// It is there.
    Kept,
    /// It isn't there, and was asked for before.
    Again,
    /// It isn't there.
    First,
}
