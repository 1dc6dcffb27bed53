/// The reason why a tree gives no explicit parents.
#[derive(Clone, Copy, Debug, PartialEq, Eq)]
pub enum ParentsFault {
    /// The tree has no table at `parentLocales`, or a value in it has an unexpected shape.
    Shape,
    /// A parent or a child isn't a locale name.
    BadLocale,
    /// A child is named twice.
    TwoParents,
    Memory,
}

/// The reason why a name has no trail.
#[derive(Clone, Copy, Debug, PartialEq, Eq)]
pub enum TrailFault {
    /// The trail has more than 32 names.
    Chain,
    /// The text at `%%ALIAS` or `%%Parent` isn't a locale name.
    BadParent,
}
