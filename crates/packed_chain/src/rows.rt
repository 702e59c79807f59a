//! Where the rows of a body begin.
ghost use Rattle.std.specs.Prelude.{◌≡◌, []};
ghost use Rattle.chain.specs.Questions.{edge_total};
ghost use Rattle.packed_file.specs.Format.{decoded};
ghost use Rattle.packed_file.specs.Judgement.{Faultless};
ghost use Rattle.packed_chain.specs.Places.{row_places, Found};

use crate::packed_chain::PackedChain;
use arrayvec::ArrayVec;
use bits::fields::get;
use chain::MOST_STATES;

/// Finds where each row begins, and tells how many edges there are in all.
// Fields are read at their places and not from the front: a question has to take a time that does not depend on the number of states.
pub(crate) fn find_rows(body: &[u8], rows: &mut ArrayVec<u32, MOST_STATES>) -> usize
    requires faultless { Faultless body.now }
    requires empty { rows.old.items ≡ [] }
    ensures placed { rows.new.items ≡ row_places body.now }
    ensures summed { result ≡ edge_total (decoded body.now) }
{
    let states = get(body, 0, 10) as usize + 1;
    let mut at = 10 + 16 + 10;
    let mut edges = 0;
    for _ in 0..states {
        rows.push(at);
        let count = get(body, at as usize + 16, 11);
        at += 16 + 11 + 26 * count;
        edges += count as usize;
    }
    edges
}

impl PackedChain<'_> {
    /// Where the row of a state begins.
    pub(crate) fn row(&self, state: usize) -> Option<usize>
        ensures { Found self.now.body.now state result }
    {
        let place = self.rows.get(state)?;
        Some(*place as usize)
    }
}
