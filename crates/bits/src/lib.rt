//! Fields of bits in a slice of bytes, and the mirror of a number's bits.
#![tactic(auto)]

pub mod fields;
pub mod mirror;
