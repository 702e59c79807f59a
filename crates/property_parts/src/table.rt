//! The table of parts.
ghost use Rattle.std.specs.Prelude.{◌≡◌, ◌<◌, ◌≤◌, true, length, MatchOption, slice_index_or};
ghost use Rattle.property_parts.specs.declared.parts.Part.TheVariants.{Letter};
ghost use Rattle.property_parts.specs.Parts.{Falls, names_earlier, most_parts};

use crate::parts::Part;

/// The most parts that a property has.
const MOST_PARTS: usize = 128;

/// The parts of a property, in the order in which they were filled; each names only parts before it.
/// An array, since a slot of the table is lent to be filled, by rule of the project;
/// an operator names its operands by number, since the library takes no heap for a tree of boxes.
#[derive(Drop)]
pub struct PartTable {
    pub(crate) parts: [Part; MOST_PARTS],
    pub(crate) count: usize,
    ghost whole: { length parts ≡ most_parts },
    ghost few: { count ≤ most_parts },
    ghost falls: { Falls parts count },
}

impl PartTable {
    ghost use Rattle.property_parts.specs.Table.{held, Filled};

    /// A table without parts.
    pub fn new() -> PartTable
        ensures { result.count ≡ 0 }
    {
        PartTable {
            // the part whose bytes are zeros, with which the slots are cleared at once
            parts: [Part::Letter(0); MOST_PARTS],
            count: 0,
        }
    }

    /// How many parts are filled.
    pub fn count(&self) -> usize
        ensures { result ≡ self.now.count }
    {
        self.count
    }

    // Parts are asked for by number, since their truth is worked out over the numbers, by rule of the project: so the bound stands
    // where one is asked for. The number is a `usize`, as it was: a narrower type would ask more of callers.

    /// The part of that number.
    pub fn part(&self, number: usize) -> Part
        requires { number < self.now.count }
        ensures value { result ≡ slice_index_or (held self.now) number (Letter 0) }
        ensures falls { names_earlier result number ≡ true }
    {
        self.parts[number]
    }

    /// Fills the next slot and answers the part's number; or answers none and changes nothing, where every slot is filled.
    #[tactic(auto, using(crate::proofs::Filled::fills, crate::proofs::Filled::fills_held))]
    pub fn fill(&mut self, part: Part) -> Option<u8>
        requires { names_earlier part self.old.count ≡ true }
        ensures { MatchOption result
            ((self.old.count ≡ most_parts) × (self.new ≡ self.old))
            (λ n. Filled self.old part self.new n) }
    {
        let number = self.count;
        if number == MOST_PARTS {
            return None;
        }
        let slot = &mut self.parts[number];
        *slot = part;
        self.count += 1;
        Some(number as u8)
    }
}
