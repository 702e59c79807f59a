//! The written form of a part.
ghost use Rattle.std.specs.Prelude.{◌≡◌, ◌<◌, Some};
ghost use Rattle.property_parts.specs.Form.{form, part_needs};
ghost use Rattle.property_parts.specs.Table.{held};

use crate::kinds::Kind;
use crate::parts::Part;
use crate::table::PartTable;
use std::fmt;

impl Part {
    /// Whether the part, where it stands as that kind, is in parentheses: `a&b` is no factor, and `a|b` is no term.
    fn is_enclosed(self, kind: Kind) -> bool
        ensures { result ≡ part_needs self kind }
    {
        matches!(
            (self, kind),
            (Part::And(..), Kind::Factor) | (Part::Or(..), Kind::Term | Kind::Factor)
        )
    }
}

/// A part of a table where it stands as that kind.
#[derive(Clone, Copy)]
pub struct PartForm<'a> {
    parts: &'a PartTable,
    number: usize,
    kind: Kind,
    ghost filled: { number < parts.now.count },
}

impl PartTable {
    /// The written form of the part of that number, where it stands as that kind.
    pub fn form(&self, number: usize, kind: Kind) -> PartForm<'_>
        requires { number < self.now.count }
        ensures text { form (held result.parts.now) result.number result.kind ≡ form (held self.now) number kind }
        ensures number { result.number ≡ number }
        ensures kind { result.kind ≡ kind }
    {
        PartForm {
            parts: self,
            number,
            kind,
        }
    }
}

impl fmt::Display for PartForm<'_> {
    ghost output = { λ p. Some (form (held p.parts.now) p.number p.kind) };

    fn fmt<W: fmt::Write>(&self, f: &mut fmt::Formatter<W>) -> fmt::Result {
        let part = self.parts.part(self.number);
        if part.is_enclosed(self.kind) {
            f.write_str("(")?;
            self.parts.form(self.number, Kind::State).fmt(f)?;
            return f.write_str(")");
        }
        match part {
            Part::Letter(letter) => f.write_char((b'a' + letter) as char),
            Part::Not(operand) => {
                f.write_str("!")?;
                self.parts.form(operand as usize, Kind::Factor).fmt(f)
            }
            Part::True => f.write_str("T"),
            Part::False => f.write_str("F"),
            Part::And(left, right) => {
                self.parts.form(left as usize, Kind::Term).fmt(f)?;
                f.write_str("&")?;
                self.parts.form(right as usize, Kind::Factor).fmt(f)
            }
            Part::Or(left, right) => {
                self.parts.form(left as usize, Kind::State).fmt(f)?;
                f.write_str("|")?;
                self.parts.form(right as usize, Kind::Term).fmt(f)
            }
        }
    }
}
