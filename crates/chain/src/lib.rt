//! Markov chains with whole-number weights: the interface, its limits, and the built-in chain.
#![tactic(auto)]

mod built_in;
mod interface;
mod limits;

pub use crate::built_in::BuiltIn;
pub use crate::interface::Chain;
pub use crate::limits::{MOST_DENOMINATOR, MOST_EDGES, MOST_STATES};
