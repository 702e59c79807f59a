//! What a property answers.
ghost use Rattle.std.specs.Prelude.{◌≡◌, ◌+◌, length, Ok, codes};
ghost use Rattle.property_parts.specs.Formula.{holds_in};
ghost use Rattle.property_parts.specs.Parts.{truth};
ghost use Rattle.property.specs.Asked.{Asked, in_parts};
ghost use Rattle.property.specs.Meaning.{meaning};
ghost use Rattle.property.specs.Reading.{answer};

use crate::ceiling::Ceiling;
use crate::property::Property;
use property_parts::{Part, PartTable};

impl Property {
    /// The fresh property, `P<=0/1[F U<=0 F]`.
    pub fn fresh() -> Property
        ensures { answer (codes "P<=0/1[F U<=0 F]") ≡ Ok (meaning result) }
    {
        let mut parts = PartTable::new();
        let ground_part = parts.fill(Part::False).unwrap();
        let goal_part = parts.fill(Part::False).unwrap();
        Property {
            ceiling: Ceiling { upper: 0, lower: 1 },
            hop_bound: 0,
            ground_part,
            goal_part,
            parts,
        }
    }

    pub fn ceiling(&self) -> Ceiling
        ensures { result ≡ (meaning self.now).ceiling }
    {
        self.ceiling
    }

    pub fn hop_bound(&self) -> u32
        ensures { result ≡ (meaning self.now).hops }
    {
        self.hop_bound
    }

    /// How many parts the ground and the goal have together.
    pub fn part_count(&self) -> usize
        ensures { result ≡ length (meaning self.now).parts }
    {
        self.parts.count()
    }

    // Two public functions of a line each: one that is told which of the two is meant would take an enum that nothing else needs.

    /// Whether a state with these propositions is in the ground; a is bit 0.
    pub fn ground_holds(&self, propositions: u16) -> bool
        ensures value { result ≡ truth (meaning self.now).parts propositions (meaning self.now).ground_part }
        ensures formula { (a : Asked) → meaning self.now ≡ in_parts a → result ≡ holds_in a.ground_formula propositions }
    {
        self.parts.holds(self.ground_part as usize, propositions)
    }

    /// Whether a state with these propositions is in the goal; a is bit 0.
    pub fn goal_holds(&self, propositions: u16) -> bool
        ensures value { result ≡ truth (meaning self.now).parts propositions (meaning self.now).goal_part }
        ensures formula { (a : Asked) → meaning self.now ≡ in_parts a → result ≡ holds_in a.goal_formula propositions }
    {
        self.parts.holds(self.goal_part as usize, propositions)
    }
}
