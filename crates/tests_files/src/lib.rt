//! Tests the layout and the views of bundle files (`rb_format`, `rb_views`), and proves that the
//! parser reads what is printed, and that the reader of JSON reads no other tree than the printed
//! one. What commands show of files and texts is tested by the script `tests/test_bundles.py`.
#![tactic(auto)]

#[cfg(test)]
mod format;
pub mod laws;
#[cfg(test)]
mod samples;
mod sound;
#[cfg(test)]
mod views;
