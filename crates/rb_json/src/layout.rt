/// The layout of a JSON value, whose tokens are the same in each.
#[derive(Clone, Copy, PartialEq, Eq)]
pub enum Layout {
    /// One line, with no space.
    Compact,
    /// A line for each item and each member, two spaces deeper for each bracket.
    Pretty,
}
