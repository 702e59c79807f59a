//! What a property is.
ghost use Rattle.std.specs.Prelude.{◌<◌, ◌≤◌};
ghost use Rattle.property.specs.Limits.{most_lower, most_hops};

use crate::ceiling::Ceiling;
use property_parts::PartTable;

/// At most the ceiling of all runs reach the goal within the hop bound, through states of the ground alone.
/// Ground and goal are parts of its table.
#[derive(Drop)]
pub struct Property {
    pub(crate) ceiling: Ceiling,
    pub(crate) hop_bound: u32,
    pub(crate) ground_part: u8,
    pub(crate) goal_part: u8,
    pub(crate) parts: PartTable,
    ghost some: { 1 ≤ ceiling.lower },
    ghost small: { ceiling.lower ≤ most_lower },
    ghost fraction: { ceiling.upper ≤ ceiling.lower },
    ghost near: { hop_bound ≤ most_hops },
    ghost grounded: { ground_part < parts.count },
    ghost aimed: { goal_part < parts.count },
}
