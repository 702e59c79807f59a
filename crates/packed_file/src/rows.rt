//! The rows of a body.
ghost use Rattle.std.specs.Prelude.{◌≡◌, ◌+◌, ◌*◌, ◌^◌, ◌<◌, ◌≤◌, IfOk};
ghost use Rattle.bits.specs.Fields.{field};
ghost use Rattle.chain.specs.Limits.{most_edges};
ghost use Rattle.chain.specs.Markov.{weight_sum};
ghost use Rattle.refusal.specs.Demands.{told};
ghost use Rattle.packed_file.specs.Format.{edges_at, count_at};
ghost use Rattle.packed_file.specs.Faults.{edge_demands, edges_demands, row_demands, rows_demands};
ghost use Rattle.packed_file.specs.Reading.{Reads};

use crate::fault::FileFault;
use crate::fields::Fields;
use crate::header::Header;
use chain::MOST_EDGES;
use refusal::{Refusal, demand};

impl Fields<'_> {
    /// The target and the weight of the next edge, of a chain with `states` states; its target is at least `low`.
    fn edge(&mut self, states: usize, low: u32) -> Result<(u32, u32), Refusal<FileFault>>
        ensures bound { IfOk result (λ edge. (edge.0 < 2 ^ 16) × (edge.1 < 2 ^ 16)) }
        ensures read { let body = self.old.body.now in let at = self.old.at in
            Reads self.old self.new result (edge_demands body states at low) (field body at 10, field body (at + 10) 16) 26 }
    {
        let place = self.place();
        let target = self.take(10)?;
        demand(
            low <= target && (target as usize) < states,
            FileFault::BadTarget,
            place,
        )?;
        let place = self.place();
        let weight = self.take(16)?;
        demand(weight > 0, FileFault::ZeroWeight, place)?;
        Ok((target, weight))
    }

    /// The sum of the weights of the next `count` edges.
    // `tables` has the like loops over another source. One for both would take a trait with ghost members
    // for the demands, the value and what is left, each given twice: more than it would save.
    fn edges(&mut self, states: usize, count: usize) -> Result<u32, Refusal<FileFault>>
        requires { count ≤ 2048 }
        ensures { let body = self.old.body.now in let at = self.old.at in
            Reads self.old self.new result (edges_demands body states count at 0) (weight_sum (edges_at body at count)) (26 * count) }
    {
        let mut low = 0;
        let mut sum = 0;
        for _ in 0..count {
            let (target, weight) = self.edge(states, low)?;
            low = target + 1;
            sum += weight;
        }
        Ok(sum)
    }

    /// How many edges there are up to the end of the next row, where `before` stand before it.
    fn row(&mut self, header: Header, before: usize) -> Result<usize, Refusal<FileFault>>
        requires { before ≤ most_edges }
        ensures bound { IfOk result (λ edges. edges ≤ most_edges) }
        ensures read { let body = self.old.body.now in let at = self.old.at in
            Reads self.old self.new result (row_demands body header.states header.denominator at before) (before + count_at body at) (16 + 11 + 26 * count_at body at) }
    {
        self.take(16)?;
        let place = self.place();
        let count = self.take(11)? as usize;
        demand(before + count <= MOST_EDGES, FileFault::TooManyEdges, place)?;
        let sum = self.edges(header.states, count)?;
        demand(sum == header.denominator, FileFault::WrongSum, place)?;
        Ok(before + count)
    }

    /// The rows, and then the end.
    pub(crate) fn rows(mut self, header: Header) -> Result<(), Refusal<FileFault>>
        ensures { result ≡ told (rows_demands self.entry.body.now header.states header.denominator header.states self.entry.at 0) tt }
    {
        let mut edges = 0;
        for _ in 0..header.states {
            edges = self.row(header, edges)?;
        }
        self.end()
    }
}
