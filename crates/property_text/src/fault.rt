//! What can be wrong with the text of a property.
ghost use Rattle.property_text.specs.Faults.{number_of};

use refusal::Fault;
use thiserror::Error;

/// In its words the mark is the place of the refusal.
#[derive(Clone, Copy, PartialEq, Eq, Debug, Error)]
pub enum PropertyFault {
    #[error("The text is longer than 1024 bytes; the first of those too many is marked.")]
    TextTooLong = 11,
    #[error("What is needed at the mark does not stand there; behind the ] nothing may stand.")]
    TokenMissing = 12,
    #[error("The number at the mark has more than five digits, or a needless 0 in front.")]
    BadNumber = 13,
    #[error("The number at the mark, the lower one of the ceiling, is 0, above 65535, or less than the upper one.")]
    BadCeiling = 14,
    #[error("The number at the mark, the hop bound, is above 64.")]
    TooManyHops = 15,
    #[error("The parenthesis at the mark is the seventeenth that is open at once; sixteen may be.")]
    TooDeep = 16,
    #[error("What stands at the mark is the 129th part of the property; it may have 128.")]
    TooManyParts = 17,
}

impl Fault for PropertyFault {
    ghost numbered = { number_of };

    fn number(self) -> u32 {
        self as u32
    }
}
