//! Trees of resource bundles: what a bundle text spells and a bundle file stores.
#![tactic(auto)]

mod arrange;
mod ending;
mod key;
mod kind;
pub mod laws;
mod limits;
mod lists;
mod measure;
mod node;
mod path;
mod table;
mod tree;
mod words;

pub use ending::{Ending, walk};
pub use key::Key;
pub use kind::Kind;
pub use limits::{HEIGHT_LIMIT, WEIGHT_LIMIT};
pub use lists::{ByteList, Int28, NumberList, OwnedList, UnitList};
pub use node::Node;
pub use path::{key_head, key_ok, path_ok};
pub use table::TableFault;
pub use tree::{Entries, Entry, Tree, TreeList};
