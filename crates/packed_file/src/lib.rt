//! The packed file of a chain: its format, its faults, and the check for them.
#![tactic(auto)]

mod fault;
mod fields;
mod file;
mod header;
mod rows;

pub use crate::fault::FileFault;
pub use crate::file::{DECIDING_BYTES, check, faultless_body};
