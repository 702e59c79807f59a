//! The parts of a property in their table, their truth in a set of propositions, and their written form.
#![tactic(auto)]

mod form;
mod kinds;
mod parts;
mod table;
mod truths;

pub use crate::form::PartForm;
pub use crate::kinds::Kind;
pub use crate::parts::Part;
pub use crate::table::PartTable;
