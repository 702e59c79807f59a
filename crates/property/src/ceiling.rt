//! The ceiling of a property.

/// The fraction `upper / lower`.
#[derive(Clone, Copy)]
pub struct Ceiling {
    pub upper: u32,
    pub lower: u32,
}
