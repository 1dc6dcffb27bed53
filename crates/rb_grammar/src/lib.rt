//! The grammar of bundle texts: their forms, meanings and errors, and the numbers they spell.
#![tactic(auto)]

mod bytes;
pub mod laws;
mod limits;
mod number;

pub use bytes::read_bytes;
pub use limits::{ELEMENT_MODULUS, INT_MODULUS, LEAST_ELEMENT_MAGNITUDE, LEAST_INT_MAGNITUDE};
pub use number::{read_element, read_int};
