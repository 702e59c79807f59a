//! Where a formula stands.

/// A state formula is terms joined by `|`, a term is factors joined by `&`,
/// and a factor is a letter, `!` and a letter, `T`, `F`, or a state formula in parentheses.
#[derive(Clone, Copy)]
pub enum Kind {
    State,
    Term,
    Factor,
}
