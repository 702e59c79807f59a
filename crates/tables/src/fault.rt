//! What can be wrong with tables.
ghost use Rattle.tables.specs.Number.{number};

use refusal::Fault;
use thiserror::Error;

#[derive(Clone, Copy, PartialEq, Eq, Debug, Error)]
pub enum TableFault {
    #[error("There is no row, or there are more than a chain can have.")]
    BadRowCount = 2,
    #[error("The edges run out in a row.")]
    EdgesRunOut = 3,
    #[error("The denominator is 0, or above its limit.")]
    BadDenominator = 4,
    #[error("The start is not a state.")]
    StartOutside = 5,
    #[error("A target is not a state, or not above the target before it.")]
    BadTarget = 6,
    #[error("A weight is 0.")]
    ZeroWeight = 7,
    #[error("The weights of a row do not add up to the denominator.")]
    WrongSum = 8,
    #[error("A row brings the edges above their limit.")]
    TooManyEdges = 9,
    #[error("An edge is left after the last row.")]
    Leftover = 10,
}

impl Fault for TableFault {
    ghost numbered = { number };

    fn number(self) -> u32 {
        self as u32
    }
}
