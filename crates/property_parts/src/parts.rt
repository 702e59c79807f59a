//! What a part of a property is.

/// A letter (a is 0, p is 15), a truth, or an operator; an operator names the parts that are its operands.
#[derive(Clone, Copy)]
pub enum Part {
    Letter(u8),
    Not(u8),
    True,
    False,
    And(u8, u8),
    Or(u8, u8),
}
