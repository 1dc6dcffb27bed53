//! Checks the keys of tables: `checker` compares them byte by byte (`plain`), then with known
//! lengths (`lengths`), then by rank with cached results (`known`, `links`). `ranks` checks the
//! ranks that `rank_builder` makes with `cover`, `blocks` and `suffixes`.
mod blocks;
pub mod checker;
mod cover;
mod known;
mod lengths;
mod links;
mod plain;
mod rank_builder;
mod ranks;
mod suffixes;
