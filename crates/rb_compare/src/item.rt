use rb_tree::Kind;

/// Checks whether an item of a kind has text to translate. A locale inherits others, such as
/// numbers, from the root.
pub fn has_text(kind: Kind) -> bool {
    matches!(kind, Kind::String | Kind::Array)
}

/// Checks whether a key is one of ICU's, such as `%%ALIAS`, which each bundle has for itself.
pub fn is_icu_key(key: &[u8]) -> bool {
    key.starts_with(b"%%")
}
