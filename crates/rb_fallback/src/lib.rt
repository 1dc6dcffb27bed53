//! Lookups that follow locale inheritance and aliases, with an optional observer.
#![tactic(auto)]

mod alias;
mod fault;
mod found;
mod from_stops;
pub mod laws;
mod level;
mod limits;
mod path;
mod path_buffer;
mod search;
mod steps;
mod stops;
mod watch;
mod words;

pub use alias::{Target, read_alias};
pub use fault::{AliasFault, BoundedError, LookError};
pub use found::Found;
pub use from_stops::{find_from, look_from};
pub use limits::{LEVEL_LIMIT, PATH_LIMIT};
pub use path::rest_behind;
pub use search::{look, look_watched, look_within};
pub use steps::TrailNames;
pub use stops::Stops;
pub use watch::{Visit, Watch};
