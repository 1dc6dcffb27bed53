//! The names of errors: that of `RESB_TEXT_BAD_INT` is `TextBadInt`.
ghost use Rattle.resb.specs.Names.{IsAtText, IsZeroEnded};

use crate::text::write_start;

/// A name with zero bytes after it.
type Name = [u8; 18];

/// The name of a number that has none.
const UNNAMED: &Name = b"\0\0\0\0\0\0\0\0\0\0\0\0\0\0\0\0\0\0";

fn request_name(error: u32) -> &'static Name
    ensures { IsZeroEnded result.now }
{
    match error {
        0 => b"Ok\0\0\0\0\0\0\0\0\0\0\0\0\0\0\0\0",
        1 => b"Memory\0\0\0\0\0\0\0\0\0\0\0\0",
        2 => b"NotOpen\0\0\0\0\0\0\0\0\0\0\0",
        3 => b"AlreadyOpen\0\0\0\0\0\0\0",
        4 => b"Shared\0\0\0\0\0\0\0\0\0\0\0\0",
        5 => b"NoRoom\0\0\0\0\0\0\0\0\0\0\0\0",
        6 => b"OtherKind\0\0\0\0\0\0\0\0\0",
        7 => b"NoEntry\0\0\0\0\0\0\0\0\0\0\0",
        8 => b"Stale\0\0\0\0\0\0\0\0\0\0\0\0\0",
        11 => b"BadApp\0\0\0\0\0\0\0\0\0\0\0\0",
        12 => b"Reserved\0\0\0\0\0\0\0\0\0\0",
        13 => b"BadLocale\0\0\0\0\0\0\0\0\0",
        14 => b"BadText\0\0\0\0\0\0\0\0\0\0\0",
        15 => b"BadFile\0\0\0\0\0\0\0\0\0\0\0",
        16 => b"Exists\0\0\0\0\0\0\0\0\0\0\0\0",
        17 => b"Absent\0\0\0\0\0\0\0\0\0\0\0\0",
        18 => b"Full\0\0\0\0\0\0\0\0\0\0\0\0\0\0",
        19 => b"Twice\0\0\0\0\0\0\0\0\0\0\0\0\0",
        20 => b"TreeTooLarge\0\0\0\0\0\0",
        21 => b"BadPath\0\0\0\0\0\0\0\0\0\0\0",
        22 => b"PathTooLong\0\0\0\0\0\0\0",
        23 => b"Chain\0\0\0\0\0\0\0\0\0\0\0\0\0",
        24 => b"BadParent\0\0\0\0\0\0\0\0\0",
        25 => b"NoBundle\0\0\0\0\0\0\0\0\0\0",
        26 => b"Missing\0\0\0\0\0\0\0\0\0\0\0",
        27 => b"AliasText\0\0\0\0\0\0\0\0\0",
        28 => b"AliasPackage\0\0\0\0\0\0",
        29 => b"TooManyAliases\0\0\0\0",
        30 => b"TooManySteps\0\0\0\0\0\0",
        _ => UNNAMED,
    }
}

fn source_name(error: u32) -> &'static Name
    ensures { IsZeroEnded result.now }
{
    match error {
        31 => b"TextTooLong\0\0\0\0\0\0\0",
        32 => b"TextNotUtf8\0\0\0\0\0\0\0",
        33 => b"TextBadEscape\0\0\0\0\0",
        34 => b"TextOpenQuote\0\0\0\0\0",
        35 => b"TextOpenComment\0\0\0",
        36 => b"TextUnexpected\0\0\0\0",
        37 => b"TextUnknownType\0\0\0",
        38 => b"TextBadKey\0\0\0\0\0\0\0\0",
        39 => b"TextDuplicateKey\0\0",
        40 => b"TextBadInt\0\0\0\0\0\0\0\0",
        41 => b"TextBadHex\0\0\0\0\0\0\0\0",
        42 => b"TextTooDeep\0\0\0\0\0\0\0",
        43 => b"TextTrailingText\0\0",
        44 => b"TextTooLarge\0\0\0\0\0\0",
        51 => b"FileTooLong\0\0\0\0\0\0\0",
        52 => b"FileHeader\0\0\0\0\0\0\0\0",
        53 => b"FileBigEndian\0\0\0\0\0",
        54 => b"FileFamily\0\0\0\0\0\0\0\0",
        55 => b"FileFormatVersion\0",
        56 => b"FileIndexes\0\0\0\0\0\0\0",
        57 => b"FileAttributes\0\0\0\0",
        58 => b"FileRoot\0\0\0\0\0\0\0\0\0\0",
        59 => b"FileItemType\0\0\0\0\0\0",
        60 => b"FileOffset\0\0\0\0\0\0\0\0",
        61 => b"FileLength\0\0\0\0\0\0\0\0",
        62 => b"FileNotTerminated\0",
        63 => b"FileKey\0\0\0\0\0\0\0\0\0\0\0",
        64 => b"FileKeyOrder\0\0\0\0\0\0",
        65 => b"FileTooDeep\0\0\0\0\0\0\0",
        _ => UNNAMED,
    }
}

fn other_name(error: u32) -> &'static Name
    ensures { IsZeroEnded result.now }
{
    match error {
        71 => b"ParentsShape\0\0\0\0\0\0",
        72 => b"ParentsBadLocale\0\0",
        73 => b"ParentsTwoParents\0",
        75 => b"IcuAlias\0\0\0\0\0\0\0\0\0\0",
        76 => b"IcuParent\0\0\0\0\0\0\0\0\0",
        77 => b"IcuTarget\0\0\0\0\0\0\0\0\0",
        78 => b"IcuItems\0\0\0\0\0\0\0\0\0\0",
        79 => b"ReplyTooLong\0\0\0\0\0\0",
        81 => b"JsonTooLong\0\0\0\0\0\0\0",
        82 => b"JsonNotUtf8\0\0\0\0\0\0\0",
        83 => b"JsonNotJson\0\0\0\0\0\0\0",
        84 => b"JsonTrailingText\0\0",
        85 => b"JsonNotTable\0\0\0\0\0\0",
        86 => b"JsonUnknownValue\0\0",
        87 => b"JsonBadTag\0\0\0\0\0\0\0\0",
        88 => b"JsonBadKey\0\0\0\0\0\0\0\0",
        89 => b"JsonDuplicateKey\0\0",
        90 => b"JsonBadNumber\0\0\0\0\0",
        91 => b"JsonBadBinary\0\0\0\0\0",
        92 => b"JsonBadUnits\0\0\0\0\0\0",
        93 => b"JsonTooDeep\0\0\0\0\0\0\0",
        94 => b"JsonTooLarge\0\0\0\0\0\0",
        _ => UNNAMED,
    }
}

fn name(error: u32) -> &'static Name
    ensures { IsZeroEnded result.now }
{
    match error {
        0..=30 => request_name(error),
        31..=70 => source_name(error),
        _ => other_name(error),
    }
}

/// Writes to `start` where the name of an error begins: bytes of the library with a zero byte at
/// the end, which never change. A number without a name has an empty one.
#[unsafe(no_mangle)]
pub extern "C" fn resb_get_error_name(error: u32, start: &mut *mut u8)
    ensures { IsAtText start.new }
{
    write_start(name(error), start)
}
