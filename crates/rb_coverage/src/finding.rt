/// The result of comparing what a locale has at a key.
#[derive(Clone, Copy, PartialEq, Eq, PartialOrd, Ord)]
pub enum Finding {
    /// The root has a String or an Array, and neither the locale nor one between them has anything.
    Missing,
    /// The locale has an item, and the root has nothing.
    Unused,
    /// The locale has an item that is equal to the inherited one.
    Same,
    /// The locale has an item of another kind than the inherited one, and neither is an alias.
    OtherType,
    /// The locale has a message with other arguments than the inherited one.
    OtherArguments,
}

impl Finding {
    pub const ALL: [Finding; 5] = [
        Finding::Missing,
        Finding::Unused,
        Finding::Same,
        Finding::OtherType,
        Finding::OtherArguments,
    ];

    pub fn name(self) -> &'static str {
        match self {
            Finding::Missing => "missing",
            Finding::Unused => "unused",
            Finding::Same => "same",
            Finding::OtherType => "type",
            Finding::OtherArguments => "arguments",
        }
    }
}

/// A finding in the locale whose bundle is at an index.
#[derive(Clone, Copy)]
pub struct Found {
    pub finding: Finding,
    pub locale: usize,
}
