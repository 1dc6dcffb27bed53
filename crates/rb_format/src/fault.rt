/// The reason why a file is rejected.
#[derive(Clone, Copy, Debug, PartialEq, Eq)]
pub enum FileFault {
    TooLong,
    /// No header of a resource bundle, or impossible sizes in it.
    Header,
    BigEndian,
    /// Keys that aren't ASCII, or text units that aren't two bytes.
    Family,
    /// A format version other than 1.1 and later minor versions of 1.
    FormatVersion,
    Indexes,
    /// A pool bundle, or one that uses a pool bundle.
    Attributes,
    Root,
    ItemType,
    /// An offset outside the area of the resources.
    Offset,
    /// A value that extends past the end.
    Length,
    /// A text without a zero unit after it.
    NotTerminated,
    /// A key that is empty, has bytes outside 0x20 to 0x7E, or isn't NUL-terminated in the key
    /// area.
    Key,
    /// A key that isn't greater than the key before it.
    KeyOrder,
    TooDeep,
    Memory,
}
