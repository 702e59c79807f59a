//! The chain over two tables, with what it needs to find a state's edges.
ghost use Rattle.std.specs.Prelude.{◌≡◌};
ghost use Rattle.tables.specs.Faults.{Faultless};
ghost use Rattle.table_chain.specs.Places.{first_edges};

use arrayvec::ArrayVec;
use chain::MOST_STATES;
use tables::Tables;

#[derive(Drop)]
pub struct TableChain<'a> {
    pub(crate) tables: Tables<'a>,
    // where the edges of each state begin: four bytes for a state, where a slice of its edges would take sixteen
    pub(crate) firsts: ArrayVec<u32, MOST_STATES>,
    ghost faultless: { Faultless tables },
    ghost placed: { firsts.items ≡ first_edges 0 tables.rows.now },
}
