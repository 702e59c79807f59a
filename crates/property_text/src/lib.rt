//! The text of a property as tokens, and what can be wrong with it.
#![tactic(auto)]

mod bytes;
mod fault;
mod tokens;

pub use crate::fault::PropertyFault;
pub use crate::tokens::Tokens;
