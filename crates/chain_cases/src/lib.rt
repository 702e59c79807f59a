//! Tables worked through, and chains that are the same as tables and as files.
#![tactic(auto)]

#[cfg(test)]
mod alike;
mod behind;
#[cfg(test)]
mod faults;
#[cfg(test)]
mod makes;

pub use crate::behind::denominator_of;
