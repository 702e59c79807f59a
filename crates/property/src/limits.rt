//! The limits of a property.

/// The most bytes of its text.
pub(crate) const MOST_BYTES: usize = 1024;

/// The largest lower number of a ceiling.
pub(crate) const MOST_LOWER: u32 = 65_535;

/// The largest hop bound.
pub(crate) const MOST_HOPS: u32 = 64;

/// The most parentheses that are open at once.
pub(crate) const MOST_OPEN: usize = 16;
