//! The chain of a packed file, with what it needs to find a row.
ghost use Rattle.std.specs.Prelude.{◌≡◌};
ghost use Rattle.chain.specs.Questions.{edge_total};
ghost use Rattle.packed_file.specs.Format.{decoded, denominator_in, start_in};
ghost use Rattle.packed_file.specs.Judgement.{Faultless};
ghost use Rattle.packed_chain.specs.Places.{row_places};

use arrayvec::ArrayVec;
use chain::MOST_STATES;

#[derive(Drop)]
pub struct PackedChain<'a> {
    pub(crate) body: &'a [u8],
    pub(crate) rows: ArrayVec<u32, MOST_STATES>,
    pub(crate) edges: usize,
    pub(crate) denominator: u32,
    pub(crate) start: usize,
    ghost faultless: { Faultless body.now },
    ghost placed: { rows.items ≡ row_places body.now },
    ghost summed: { edges ≡ edge_total (decoded body.now) },
    ghost divided: { denominator ≡ denominator_in body.now },
    ghost started: { start ≡ start_in body.now },
}
