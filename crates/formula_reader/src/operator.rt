//! The operators that join formulas.
ghost use Rattle.std.specs.Prelude.{◌≡◌};
ghost use Rattle.formula_reader.specs.Operators.{sign, part};

use property_parts::Part;

#[derive(Clone, Copy)]
pub enum Operator {
    And,
    Or,
}

impl Operator {
    /// The byte that writes it.
    pub(crate) fn sign(self) -> u8
        ensures { result ≡ sign self }
    {
        match self {
            Operator::And => b'&',
            Operator::Or => b'|',
        }
    }

    /// The part that joins the parts of those numbers.
    pub(crate) fn part(self, left: u8, right: u8) -> Part
        ensures { result ≡ part self left right }
    {
        match self {
            Operator::And => Part::And(left, right),
            Operator::Or => Part::Or(left, right),
        }
    }
}
