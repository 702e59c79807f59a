//! The packed file of any chain, written into a caller's buffer.
#![tactic(auto)]

mod bit_writer;
mod chain_row;
mod fault;
mod file;
mod rows;

pub use crate::fault::WriteFault;
pub use crate::file::write;
