//! Taking up tables, and the questions, answered from them.
ghost use Rattle.std.specs.Prelude.{◌≡◌, []};
ghost use Rattle.table_chain.specs.Meaning.{meaning_of};
ghost use Rattle.table_chain.specs.Places.{first_edges};
ghost use Rattle.tables.specs.Faults.{Faultless};
ghost use Rattle.tables.specs.Tabled.{tabled};
ghost use Rattle.tables.specs.TakenUp.{taken_up};
ghost use Rattle.tables.proofs.Fits.{faultless_lawful};

use crate::table_chain::TableChain;
use arrayvec::ArrayVec;
use chain::{Chain, MOST_STATES};
use tables::{TableEdge, TableRow, Tables, check};

static BUILT_IN_ROWS: [TableRow; 1] = [TableRow {
    propositions: 0,
    count: 1,
}];

static BUILT_IN_EDGES: [TableEdge; 1] = [TableEdge {
    target: 0,
    weight: 1,
}];

/// The tables, or those of the built-in chain where the tables have a fault.
fn faultless_or_built_in<'a>(tables: Tables<'a>) -> Tables<'a>
    ensures faultless { Faultless result }
    ensures meaning { tabled result ≡ taken_up tables.entry }
{
    match check(&tables) {
        Ok(()) => tables,
        Err(_) => Tables {
            rows: &BUILT_IN_ROWS,
            edges: &BUILT_IN_EDGES,
            start: 0,
            denominator: 1,
        },
    }
}

/// Finds where the edges of each state begin.
fn find_first_edges(tables: &Tables, firsts: &mut ArrayVec<u32, MOST_STATES>)
    requires faultless { Faultless tables.now }
    requires empty { firsts.old.items ≡ [] }
    ensures { firsts.new.items ≡ first_edges 0 tables.now.rows.now }
{
    let mut first = 0;
    for row in tables.rows {
        firsts.push(first as u32);
        first += row.count;
    }
}

impl<'a> TableChain<'a> {
    /// Takes up tables: their chain, or the built-in chain where they have a fault.
    pub fn new(tables: Tables<'a>) -> TableChain<'a>
        ensures { meaning_of result ≡ taken_up tables.entry }
    {
        let tables = faultless_or_built_in(tables);
        let mut firsts = ArrayVec::new();
        find_first_edges(&tables, &mut firsts);
        TableChain { tables, firsts }
    }
}

impl<'a> Chain for TableChain<'a> {
    ghost meaning = { meaning_of };

    ghost lawful = { λ c. faultless_lawful c.tables c.faultless };

    fn states(&self) -> usize {
        self.tables.rows.len()
    }

    fn edges(&self) -> usize {
        self.tables.edges.len()
    }

    fn start(&self) -> usize {
        self.tables.start
    }

    fn denominator(&self) -> u32 {
        self.tables.denominator
    }

    fn propositions(&self, state: usize) -> Option<u16> {
        let row = self.tables.rows.get(state)?;
        Some((row.propositions % 65_536) as u16)
    }

    fn edge_count(&self, state: usize) -> Option<usize> {
        let row = self.tables.rows.get(state)?;
        Some(row.count)
    }

    fn edge(&self, state: usize, place: usize) -> Option<(usize, u32)> {
        let row = self.tables.rows.get(state)?;
        if place >= row.count {
            return None;
        }
        let edge = self.tables.edges[self.firsts[state] as usize + place];
        Some((edge.target, edge.weight))
    }
}
