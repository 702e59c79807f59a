//! A property: a ceiling for the probability to reach a goal through a ground within so many moves.
#![tactic(auto)]

mod ceiling;
mod form;
mod limits;
mod property;
mod questions;
mod reader;

pub use crate::ceiling::Ceiling;
pub use crate::property::Property;
pub use property_text::PropertyFault;
