ghost use Rattle.std.specs.Prelude.{◌≡◌};
ghost use Rattle.rb_writer.specs.Header as specified;

use rb_format::{
    ATTRIBUTES_VERSION, CHARSET_FAMILY, DATA_FORMAT, HEADER_SIZE, INFO_SIZE, MAGIC, MAJOR_VERSION,
    MINOR_VERSION, UNIT_SIZE,
};

/// Returns the header of a bundle with or without fallback.
pub fn header(no_fallback: bool) -> [u8; 32]
    ensures { result ≡ specified.header no_fallback }
{
    let minor = if no_fallback {
        ATTRIBUTES_VERSION
    } else {
        MINOR_VERSION
    };
    [
        HEADER_SIZE as u8,
        0,
        MAGIC[0],
        MAGIC[1],
        INFO_SIZE as u8,
        0,
        0,
        0,
        0,
        CHARSET_FAMILY,
        UNIT_SIZE,
        0,
        DATA_FORMAT[0],
        DATA_FORMAT[1],
        DATA_FORMAT[2],
        DATA_FORMAT[3],
        MAJOR_VERSION,
        minor,
        0,
        0,
        0,
        0,
        0,
        0,
        0,
        0,
        0,
        0,
        0,
        0,
        0,
        0,
    ]
}
