//! The file format of resource bundles (ResB 1.1 and later minor versions): its layout, and what a
//! file denotes.
#![tactic(auto)]

mod attributes;
mod constants;
mod fault;
mod geometry;
mod header;
mod key_order;
mod kind;
pub mod laws;
mod layout;
mod place;
mod words;

pub use attributes::Attributes;
pub use constants::{
    ATTRIBUTES_INDEX_COUNT, ATTRIBUTES_VERSION, CHARSET_FAMILY, DATA_FORMAT, FILE_LIMIT,
    HEADER_SIZE, INDEX_COUNT, INFO_SIZE, MAGIC, MAJOR_VERSION, MINOR_VERSION, MINOR_VERSION_AT,
    UNIT_SIZE,
};
pub use fault::FileFault;
pub use geometry::{KeyPlaces, TableParts, long_table_parts, table_parts};
pub use header::{Header, body, is_short_enough};
pub use key_order::compare_key;
pub use kind::{ItemKind, is_table, item_kind, item_offset, item_type};
pub use layout::{Layout, has_valid_indexes};
pub use place::{half, half_at, key_at, key_within, word, word_at};
