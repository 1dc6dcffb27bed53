/// The error of a text that isn't a locale name.
#[derive(Clone, Copy, Debug, PartialEq, Eq)]
pub struct BadLocale;
