//! The limit of a JSON text.

/// The maximum length of a JSON text, in bytes. What `resb json` prints of a bundle without
/// indentation is always shorter.
pub const JSON_LIMIT: usize = 134_217_728;
