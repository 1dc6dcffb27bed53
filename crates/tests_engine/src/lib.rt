//! Tests of the engine (`rb_engine`) that no request reaches: open locales, and the reply to
//! `Engine::handle`. `tests/replies.sh` tests requests through the program.
#![tactic(auto)]

#[cfg(test)]
mod engine;
#[cfg(test)]
mod open_locales;
