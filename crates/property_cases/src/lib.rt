//! Texts of properties worked through.
#![tactic(auto)]

#[cfg(test)]
mod faults;
#[cfg(test)]
mod readings;
#[cfg(test)]
mod texts;
#[cfg(test)]
mod truths;
