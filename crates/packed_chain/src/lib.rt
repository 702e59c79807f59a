//! A chain that is read straight from the bytes of its packed file.
#![tactic(auto)]

mod packed_chain;
mod questions;
mod rows;

pub use crate::packed_chain::PackedChain;
