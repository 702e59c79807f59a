//! The truth of a part, worked out from the parts that it names.
ghost use Rattle.std.specs.Prelude.{◌≡◌, ◌<◌};
ghost use Rattle.property_parts.specs.Parts.{truth};
ghost use Rattle.property_parts.specs.Table.{held};

use crate::parts::Part;
use crate::table::PartTable;

impl PartTable {
    /// Whether the part of that number is true where the propositions are these; a is bit 0.
    #[tactic(auto, using(crate::proofs::Values::truth_at))]
    pub fn holds(&self, number: usize, propositions: u16) -> bool
        requires { number < self.now.count }
        ensures { result ≡ truth (held self.now) propositions number }
    {
        match self.part(number) {
            Part::Letter(letter) => (propositions >> letter) % 2 == 1,
            Part::Not(operand) => !self.holds(operand as usize, propositions),
            Part::True => true,
            Part::False => false,
            Part::And(left, right) => self.holds(left as usize, propositions)
                && self.holds(right as usize, propositions),
            Part::Or(left, right) => self.holds(left as usize, propositions)
                || self.holds(right as usize, propositions),
        }
    }
}
