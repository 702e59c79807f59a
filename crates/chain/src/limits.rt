//! The limits of a lawful chain.

pub const MOST_STATES: usize = 1024;

pub const MOST_EDGES: usize = 4096;

pub const MOST_DENOMINATOR: u32 = 65_535;
