//! Files worked through: the check's answer on each, and what the chains taken up from them answer.
#![tactic(auto)]

#[cfg(test)]
mod draft;
#[cfg(test)]
mod faults;
#[cfg(test)]
mod questions;
