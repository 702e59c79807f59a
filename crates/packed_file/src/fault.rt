//! What can be wrong with a packed file.
ghost use Rattle.packed_file.specs.Number.{number};

use refusal::Fault;
use thiserror::Error;

#[derive(Clone, Copy, PartialEq, Eq, Debug, Error)]
pub enum FileFault {
    #[error("The file begins FF FE: its bytes stand the wrong way round.")]
    ReversedMark = 1,
    #[error("The file does not begin with the mark FE FF.")]
    NoMark = 2,
    #[error("The file ends inside a field.")]
    EndsInField = 3,
    #[error("The denominator is 0.")]
    ZeroDenominator = 4,
    #[error("The start is not a state of the chain.")]
    StartOutside = 5,
    #[error("A target is not a state of the chain, or not above the target before it in its row.")]
    BadTarget = 6,
    #[error("A weight is 0.")]
    ZeroWeight = 7,
    #[error("The weights of a row do not add up to the denominator.")]
    WrongSum = 8,
    #[error("An edge count brings the edges above the most that a chain may have.")]
    TooManyEdges = 9,
    #[error("After the last row a bit is set, or a whole byte is left.")]
    Leftover = 10,
}

impl Fault for FileFault {
    ghost numbered = { number };

    fn number(self) -> u32 {
        self as u32
    }
}
