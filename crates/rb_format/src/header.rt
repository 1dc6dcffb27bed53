ghost use Rattle.std.specs.Prelude.{◌≡◌, ◌+◌, ◌≤◌, length, drop, IfOk, IsTrue};
ghost use Rattle.rb_format.specs.Place.{half_at};
ghost use Rattle.rb_format.specs.File as files;
ghost use Rattle.rb_format.specs.Checks.{header_of};

use crate::constants::{
    CHARSET_FAMILY, CHARSET_FAMILY_AT, DATA_FORMAT, DATA_FORMAT_AT, FILE_LIMIT, HEADER_SIZE,
    INFO_SIZE, IS_BIG_ENDIAN_AT, MAGIC, MAGIC_AT, MAJOR_VERSION, MAJOR_VERSION_AT, MINOR_VERSION,
    MINOR_VERSION_AT, UNIT_SIZE, UNIT_SIZE_AT,
};
use crate::fault::FileFault;
use crate::place::half_at;

/// The size of a file's header in bytes, and the minor format version.
#[derive(Clone, Copy, Debug, PartialEq, Eq)]
pub struct Header {
    pub size: u16,
    pub minor: u8,
}

impl Header {
    /// Reads the header at the front of a file. Returns the first error in this order: `Header`
    /// (fewer than 24 bytes or other magic bytes), `BigEndian`, `Family`, `FormatVersion`, and
    /// `Header` again (impossible sizes). The data after the header begins with the root item.
    #[tactic(auto, unfolding(crate::specs::Checks::header_of))]
    pub fn read(bytes: &[u8]) -> Result<Header, FileFault>
        ensures value { result ≡ header_of bytes.now }
        ensures inside { IfOk result (λ h. h.size ≤ length bytes.now) }
    {
        if bytes.len() < 24 || !has_magic(bytes) {
            return Err(FileFault::Header);
        }
        if bytes[IS_BIG_ENDIAN_AT] != 0 {
            return Err(FileFault::BigEndian);
        }
        if bytes[CHARSET_FAMILY_AT] != CHARSET_FAMILY || bytes[UNIT_SIZE_AT] != UNIT_SIZE {
            return Err(FileFault::Family);
        }
        if bytes[MAJOR_VERSION_AT] != MAJOR_VERSION || bytes[MINOR_VERSION_AT] < MINOR_VERSION {
            return Err(FileFault::FormatVersion);
        }
        if !has_sizes(bytes) {
            return Err(FileFault::Header);
        }
        Ok(Header {
            size: half_at(bytes, 0),
            minor: bytes[MINOR_VERSION_AT],
        })
    }
}

fn has_magic(bytes: &[u8]) -> bool
    requires { 24 ≤ length bytes.now }
    ensures { result ≡ files.has_magic bytes.now }
{
    bytes[MAGIC_AT] == MAGIC[0]
        && bytes[MAGIC_AT + 1] == MAGIC[1]
        && bytes[DATA_FORMAT_AT] == DATA_FORMAT[0]
        && bytes[DATA_FORMAT_AT + 1] == DATA_FORMAT[1]
        && bytes[DATA_FORMAT_AT + 2] == DATA_FORMAT[2]
        && bytes[DATA_FORMAT_AT + 3] == DATA_FORMAT[3]
}

fn has_sizes(bytes: &[u8]) -> bool
    requires { 24 ≤ length bytes.now }
    ensures value { result ≡ files.has_sizes bytes.now }
    ensures inside { IsTrue result → half_at bytes.now 0 ≤ length bytes.now }
{
    let size = half_at(bytes, 0);
    let info = half_at(bytes, 2);
    size % 16 == 0
        && HEADER_SIZE <= size
        && size as usize <= bytes.len()
        && INFO_SIZE <= info
        && info as usize + 4 <= size as usize
}

pub fn is_short_enough(bytes: &[u8]) -> bool
    ensures { result ≡ files.is_short_enough bytes.now }
{
    bytes.len() <= FILE_LIMIT
}

/// Returns the data after the header.
pub fn body(bytes: &[u8]) -> &[u8]
    requires long { 24 ≤ length bytes.now }
    requires inside { half_at bytes.now 0 ≤ length bytes.now }
    ensures { result.now ≡ drop (half_at bytes.now 0) bytes.now }
{
    let start = half_at(bytes, 0) as usize;
    &bytes[start..]
}
