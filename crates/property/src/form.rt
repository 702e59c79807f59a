//! The written form of a property.
ghost use Rattle.std.specs.Prelude.{◌≡◌, Some};
ghost use Rattle.property.specs.Meaning.{meaning};
ghost use Rattle.property.specs.Written.{written};

use crate::property::Property;
use property_parts::Kind;
use std::fmt;

impl fmt::Display for Property {
    ghost output = { λ p. Some (written (meaning p)) };

    fn fmt<W: fmt::Write>(&self, f: &mut fmt::Formatter<W>) -> fmt::Result {
        let upper = self.ceiling.upper;
        let lower = self.ceiling.lower;
        let hops = self.hop_bound;
        let ground = self.parts.form(self.ground_part as usize, Kind::State);
        let goal = self.parts.form(self.goal_part as usize, Kind::State);
        write!(f, "P<={upper}/{lower}[{ground} U<={hops} {goal}]")
    }
}
