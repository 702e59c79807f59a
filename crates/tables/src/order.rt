//! The check of tables, in the order of a file.
ghost use Rattle.std.specs.Prelude.{◌≡◌, ◌+◌, ◌-◌, ◌*◌, ◌^◌, ◌<◌, ◌≤◌, length, drop, Ok, Err, IfOk, OnOk, MatchResult};
ghost use Rattle.std.specs.Slice.Iter.{iter_rest};
ghost use Rattle.chain.specs.Limits.{most_states, most_edges};
ghost use Rattle.chain.specs.Markov.{weight_sum};
ghost use Rattle.refusal.specs.Demands.{told};
ghost use Rattle.tables.specs.Tabled.{next_edge, next_edges};
ghost use Rattle.tables.specs.Faults.{edge_demands, edges_demands, row_demands, rows_demands, head_demands, judged};
ghost use Rattle.tables.specs.Judgement.{Judges};

use crate::fault::TableFault;
use crate::tables::{TableEdge, TableRow, Tables};
use chain::{MOST_DENOMINATOR, MOST_EDGES, MOST_STATES};
use refusal::{Refusal, demand};
use std::slice;

impl<'a> Tables<'a> {
    /// The number of rows, the denominator and the start.
    fn check_head(&self) -> Result<(), Refusal<TableFault>>
        ensures bound { OnOk result (length self.now.rows.now ≤ most_states) }
        ensures told { result ≡ told (head_demands self.now) tt }
    {
        let states = self.rows.len();
        demand(
            (1..=MOST_STATES).contains(&states),
            TableFault::BadRowCount,
            0,
        )?;
        demand(
            (1..=MOST_DENOMINATOR).contains(&self.denominator),
            TableFault::BadDenominator,
            0,
        )?;
        demand(self.start < states, TableFault::StartOutside, 0)
    }

    // The edges that are left are handed along: a reader that owned them would owe in each clause that the tables stay the same.

    /// The next edge, of the state `state`; its target is at least `low`.
    // By reference: the target of a copy would share a word with the fault, and each edge would pay for that.
    fn next_edge<'e>(
        &self,
        state: usize,
        edges: &mut slice::Iter<'e, TableEdge>,
        low: usize,
    ) -> Result<&'e TableEdge, Refusal<TableFault>>
        ensures bound { IfOk result (λ e. (e.now.target < length self.now.rows.now) × (e.now.weight < 2 ^ 32)) }
        ensures told { let answer = told (edge_demands self.now state (iter_rest edges.old) low) (next_edge (iter_rest edges.old)) in
            MatchResult result (λ e. Ok e.now ≡ answer) (λ f. Err f ≡ answer) }
        ensures left { OnOk result (iter_rest edges.new ≡ drop 1 (iter_rest edges.old)) }
    {
        let edge = edges.next().ok_or(Refusal {
            fault: TableFault::EdgesRunOut,
            place: state,
        })?;
        demand(
            (low..self.rows.len()).contains(&edge.target),
            TableFault::BadTarget,
            state,
        )?;
        demand(edge.weight > 0, TableFault::ZeroWeight, state)?;
        Ok(edge)
    }

    /// The sum of the weights of the next `count` edges.
    // `packed_file` has the like loops over another source, and says why they are two.
    fn sum_edges(
        &self,
        state: usize,
        edges: &mut slice::Iter<TableEdge>,
        count: usize,
    ) -> Result<u64, Refusal<TableFault>>
        requires { count ≤ most_edges }
        ensures told { result ≡ told (edges_demands self.now state count (iter_rest edges.old) 0) (weight_sum (next_edges count (iter_rest edges.old))) }
        ensures left { OnOk result (iter_rest edges.new ≡ drop count (iter_rest edges.old)) }
    {
        let mut low = 0;
        let mut sum = 0;
        for _ in 0..count {
            let edge = self.next_edge(state, edges, low)?;
            low = edge.target + 1;
            sum += u64::from(edge.weight);
        }
        Ok(sum)
    }

    /// The row of the state `state`, after rows with `before` edges.
    fn check_row(
        &self,
        state: usize,
        row: &TableRow,
        before: usize,
        edges: &mut slice::Iter<TableEdge>,
    ) -> Result<(), Refusal<TableFault>>
        requires { before ≤ most_edges }
        ensures bound { OnOk result (before + row.now.count ≤ most_edges) }
        ensures told { result ≡ told (row_demands self.now state row.now before (iter_rest edges.old)) tt }
        ensures left { OnOk result (iter_rest edges.new ≡ drop row.now.count (iter_rest edges.old)) }
    {
        demand(
            row.count <= MOST_EDGES - before,
            TableFault::TooManyEdges,
            state,
        )?;
        let sum = self.sum_edges(state, edges, row.count)?;
        demand(
            sum == u64::from(self.denominator),
            TableFault::WrongSum,
            state,
        )
    }

    /// The rows, and that no edge is left.
    fn check_rows(&self) -> Result<(), Refusal<TableFault>>
        requires { length self.now.rows.now ≤ most_states }
        ensures { result ≡ told (rows_demands self.now 0 self.now.rows.now 0 self.now.edges.now) tt }
    {
        let mut edges = self.edges.iter();
        let mut before = 0;
        for (state, row) in self.rows.iter().enumerate() {
            self.check_row(state, row, before, &mut edges)?;
            before += row.count;
        }
        demand(edges.len() == 0, TableFault::Leftover, self.rows.len())
    }
}

/// Whether the tables are a chain's; if not, the first fault in the order of a file.
pub fn check(tables: &Tables) -> Result<(), Refusal<TableFault>>
    ensures value { result ≡ judged tables.now }
    ensures judges { Judges tables.now result }
{
    tables.check_head()?;
    tables.check_rows()
}
