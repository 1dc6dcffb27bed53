//! The numbers of the file format. specs/ repeats them, so that the proofs compare the two.

/// The maximum length of a file in bytes.
pub const FILE_LIMIT: usize = 67_108_864;

pub const MAGIC_AT: usize = 2;

pub const MAGIC: [u8; 2] = [0xDA, 0x27];

/// The byte here is 0 if numbers are little-endian.
pub const IS_BIG_ENDIAN_AT: usize = 8;

pub const DATA_FORMAT_AT: usize = 12;

pub const DATA_FORMAT: [u8; 4] = [b'R', b'e', b's', b'B'];

pub const MAJOR_VERSION_AT: usize = 16;

pub const MAJOR_VERSION: u8 = 1;

pub const MINOR_VERSION_AT: usize = 17;

pub const MINOR_VERSION: u8 = 1;

/// The first minor version whose files have attributes.
pub const ATTRIBUTES_VERSION: u8 = 2;

pub const CHARSET_FAMILY_AT: usize = 9;

/// ASCII.
pub const CHARSET_FAMILY: u8 = 0;

pub const UNIT_SIZE_AT: usize = 10;

pub const UNIT_SIZE: u8 = 2;

/// The minimum size of the info block, which begins at byte 4.
pub const INFO_SIZE: u16 = 20;

pub const HEADER_SIZE: u16 = 32;

pub const INDEX_COUNT: u32 = 5;

pub const ATTRIBUTES_INDEX_COUNT: u32 = 6;
