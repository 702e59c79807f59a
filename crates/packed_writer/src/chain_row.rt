//! The questions of a chain about a state that it has.
ghost use Rattle.std.specs.Prelude.{◌≡◌, ◌^◌, ◌<◌, ◌≤◌, length, slice_index_or};
ghost use Rattle.packed_writer.specs.Within.{row_of};

use chain::Chain;
use std::marker::Model;

/// A state of a chain, which a clause sees as its row.
#[derive(Drop)]
pub(crate) struct ChainRow<'a, C: Chain> {
    chain: &'a C,
    state: usize,
}

impl<'a, C: Chain> Model for ChainRow<'a, C> {
    ghost use Rattle.std.specs.Prelude.{◌<◌, length};
    ghost use Rattle.chain.specs.Markov.{Row};
    ghost use Rattle.packed_writer.specs.Within.{row_of};

    ghost Value = { Row };

    ghost view = { λ r. row_of (C.Chain.meaning r.chain.now) r.state };

    ghost invariant = { λ r. r.state < length (C.Chain.meaning r.chain.now).rows };
}

impl<'a, C: Chain> ChainRow<'a, C> {
    pub(crate) fn new(chain: &'a C, state: usize) -> ChainRow<'a, C>
        requires { state < length (C.Chain.meaning chain.now).rows }
        ensures { result ≡ row_of (C.Chain.meaning chain.now) state }
    {
        ChainRow { chain, state }
    }

    pub(crate) fn propositions(&self) -> u16
        ensures { result ≡ self.now.propositions }
    {
        self.chain.propositions(self.state).unwrap()
    }

    pub(crate) fn edge_count(&self) -> usize
        ensures value { result ≡ length self.now.edges }
        ensures bound { result ≤ 1024 }
    {
        self.chain.edge_count(self.state).unwrap()
    }

    pub(crate) fn edge(&self, place: usize) -> (usize, u32)
        requires { place < length self.now.edges }
        ensures value { result ≡ slice_index_or self.now.edges place (0, 0) }
        ensures bound { (result.0 < 2 ^ 10) × (result.1 < 2 ^ 16) }
    {
        self.chain.edge(self.state, place).unwrap()
    }
}
