//! The state formulas in the text of a property, read into a table of parts.
#![tactic(auto)]

mod formulas;
mod operator;
mod reader;

pub use crate::operator::Operator;
pub use crate::reader::FormulaReader;
