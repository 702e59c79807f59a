//! A chain over two tables in memory.
#![tactic(auto)]

mod questions;
mod table_chain;

pub use crate::table_chain::TableChain;
