/// The maximum length of a source, in bytes.
pub const SOURCE_LIMIT: usize = 8_388_608;
