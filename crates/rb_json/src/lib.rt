//! Trees as JSON: a tree as one value, and items as objects.
#![tactic(auto)]

mod buffer;
mod item;
pub mod laws;
mod layout;
mod limit;
mod list;
mod outlet;
mod room;
mod spell;
mod text;
mod units;
mod value;

pub use buffer::Buffer;
pub use item::{item_text, put_found, put_item, put_name};
pub use layout::Layout;
pub use limit::is_within;
pub use list::skips_items;
pub use outlet::Outlet;
pub use room::Room;
pub use spell::{
    is_well_formed, spell_bytes, spell_hex, spell_integer, spell_text, spell_units, spell_unsigned,
};
pub use value::{put_key, put_leaf, put_value};
