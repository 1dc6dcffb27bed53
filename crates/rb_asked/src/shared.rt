//! Arguments that several commands have.

/// The place of explicit parents.
#[derive(Clone, Copy, Debug, PartialEq, Eq)]
pub enum ParentsSource<'a> {
    /// The file of a bundle text.
    File(&'a str),
    /// CLDR's, which the program has with it.
    Cldr,
}

/// The choice of a settings file.
#[derive(Clone, Copy, Debug)]
pub struct Configured<'a> {
    /// The file, if one is named.
    pub file: Option<&'a str>,
    /// No file is read.
    pub is_none: bool,
}
