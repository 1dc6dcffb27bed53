//! Tests requests by the line (`rb_requests`) and the lines of replies (`rb_replies`): readers and
//! writers that fail, limits and pieces. `tests/replies.sh` tests requests, and extended ones,
//! through the program.
#![tactic(auto)]

#[cfg(test)]
mod devices;
#[cfg(test)]
mod items;
#[cfg(test)]
mod limited;
#[cfg(test)]
mod line_lengths;
#[cfg(test)]
mod lines;
#[cfg(test)]
mod run;
#[cfg(test)]
mod streams;
