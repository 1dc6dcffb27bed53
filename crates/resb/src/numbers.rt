//! The numbers of errors, which `resb.h` names.
ghost use Rattle.std.specs.Prelude.{◌≡◌, ◌≢◌, Some};
ghost use Rattle.resb.specs.Numbers.{app_number, file_number, text_number};
ghost use Rattle.resb.specs.Numbers.{look_number, reply_number};
ghost use Rattle.resb.specs.Releases.{draft_number};

use rb_engine::{AppFault, DraftFault, LookFault, Reply};
use rb_format::FileFault;
use rb_json_reader::JsonFaultKind;
use rb_lexer::SourceKind;

pub(crate) const MEMORY: u32 = 1;

/// The handle has no engine.
pub(crate) const CLOSED: u32 = 2;

/// The handle has an engine.
pub(crate) const OPEN: u32 = 3;

/// Another handle has the same engine, so it can't change.
pub(crate) const SHARED: u32 = 4;

/// The caller's buffer is too short.
pub(crate) const NO_ROOM: u32 = 5;

/// The table has no entry with the index.
pub(crate) const NO_ENTRY: u32 = 7;

/// The item is of another kind.
pub(crate) const OTHER_KIND: u32 = 6;

/// The engine has changed since the locale was opened.
pub(crate) const STALE: u32 = 8;

/// The locale isn't a name.
pub(crate) const BAD_LOCALE: u32 = 13;

/// The text isn't compiled.
pub(crate) const BAD_TEXT: u32 = 14;

/// The tree is too large.
pub(crate) const TREE_TOO_LARGE: u32 = 20;

/// The text of the bundle would be too long to be read again.
pub(crate) const TEXT_TOO_LARGE: u32 = 44;

/// The root has a key that leads libicu to another bundle.
pub(crate) const ICU_ALIAS: u32 = 75;

pub(crate) const ICU_PARENT: u32 = 76;

/// An alias ends with a slash.
pub(crate) const ICU_TARGET: u32 = 77;

/// The tree has more items than the file has words.
pub(crate) const ICU_ITEMS: u32 = 78;

/// The item as JSON is longer than the caller allows.
pub(crate) const REPLY_TOO_LONG: u32 = 79;

/// The lookup takes more steps than the caller allows.
pub(crate) const TOO_MANY_STEPS: u32 = 30;

pub(crate) fn file_number(fault: FileFault) -> u32
    ensures number { result ≡ file_number fault }
    ensures error { result ≢ 0 }
{
    match fault {
        FileFault::Memory => MEMORY,
        FileFault::TooLong => 51,
        FileFault::Header => 52,
        FileFault::BigEndian => 53,
        FileFault::Family => 54,
        FileFault::FormatVersion => 55,
        FileFault::Indexes => 56,
        FileFault::Attributes => 57,
        FileFault::Root => 58,
        FileFault::ItemType => 59,
        FileFault::Offset => 60,
        FileFault::Length => 61,
        FileFault::NotTerminated => 62,
        FileFault::Key => 63,
        FileFault::KeyOrder => 64,
        FileFault::TooDeep => 65,
    }
}

pub(crate) fn text_number(kind: SourceKind) -> u32
    ensures number { result ≡ text_number kind }
    ensures error { result ≢ 0 }
    ensures room { result ≢ 5 }
{
    match kind {
        SourceKind::Memory => MEMORY,
        SourceKind::TooLong => 31,
        SourceKind::NotUtf8 => 32,
        SourceKind::BadEscape => 33,
        SourceKind::OpenQuote => 34,
        SourceKind::OpenComment => 35,
        SourceKind::Unexpected => 36,
        SourceKind::UnknownType => 37,
        SourceKind::BadKey => 38,
        SourceKind::DuplicateKey => 39,
        SourceKind::BadInt => 40,
        SourceKind::BadHex => 41,
        SourceKind::TooDeep => 42,
        SourceKind::TrailingText => 43,
        SourceKind::TooLarge => 44,
    }
}

pub(crate) fn look_number(fault: LookFault) -> u32
    ensures number { result ≡ look_number fault }
    ensures error { result ≢ 0 }
    ensures steps { result ≢ 30 }
    ensures stale { result ≢ 8 }
{
    match fault {
        LookFault::BadApp => 11,
        LookFault::Reserved => 12,
        LookFault::BadLocale => 13,
        LookFault::BadPath => 21,
        LookFault::PathTooLong => 22,
        LookFault::Chain => 23,
        LookFault::BadParent => 24,
        LookFault::NoBundle => 25,
        LookFault::Missing => 26,
        LookFault::AliasText => 27,
        LookFault::AliasPackage => 28,
        LookFault::TooManyAliases => 29,
    }
}

/// Returns the number of a reply to a change. A list of names answers no change, and has the number
/// of no error.
pub(crate) fn reply_number(reply: &Reply) -> u32
    ensures number { result ≡ reply_number reply.now }
    ensures done { result ≡ 0 → reply.now ≡ Reply.Done }
{
    match reply {
        Reply::Done => 0,
        Reply::Memory => MEMORY,
        Reply::BadApp => 11,
        Reply::Reserved => 12,
        Reply::BadLocale => 13,
        Reply::BadText => 14,
        Reply::BadFile => 15,
        Reply::Exists => 16,
        Reply::Absent => 17,
        Reply::Full => 18,
        Reply::Names(_) => 99,
    }
}

pub(crate) fn app_number(fault: AppFault) -> u32
    ensures number { result ≡ app_number fault }
    ensures error { result ≢ 0 }
    ensures unshared { result ≢ 4 }
{
    match fault {
        AppFault::BadApp => 11,
        AppFault::Reserved => 12,
    }
}

pub(crate) fn json_number(kind: JsonFaultKind) -> u32
    ensures error { result ≢ 0 }
{
    match kind {
        JsonFaultKind::Memory => MEMORY,
        JsonFaultKind::TooLong => 81,
        JsonFaultKind::NotUtf8 => 82,
        JsonFaultKind::NotJson => 83,
        JsonFaultKind::TrailingText => 84,
        JsonFaultKind::NotTable => 85,
        JsonFaultKind::UnknownValue => 86,
        JsonFaultKind::BadTag => 87,
        JsonFaultKind::BadKey => 88,
        JsonFaultKind::DuplicateKey => 89,
        JsonFaultKind::BadNumber => 90,
        JsonFaultKind::BadBinary => 91,
        JsonFaultKind::BadUnits => 92,
        JsonFaultKind::TooDeep => 93,
        JsonFaultKind::TooLarge => 94,
    }
}

pub(crate) fn draft_number(fault: DraftFault) -> u32
    ensures number { result ≡ draft_number (Some fault) }
    ensures error { result ≢ 0 }
    ensures unshared { result ≢ 4 }
{
    match fault {
        DraftFault::Absent => 17,
        DraftFault::Full => 18,
        DraftFault::Memory => MEMORY,
    }
}

/// Evaluates to the value of a result, or returns the number of its error.
macro_rules! or_number {
    ($result:expr => $number:ident) => {
        match $result {
            Ok(value) => value,
            Err(fault) => return $number(fault),
        }
    };
}

pub(crate) use or_number;
