//! A chain as two tables in memory: their faults, and the check for them.
#![tactic(auto)]

mod fault;
mod order;
mod tables;

pub use crate::fault::TableFault;
pub use crate::order::check;
pub use crate::tables::{TableEdge, TableRow, Tables};
