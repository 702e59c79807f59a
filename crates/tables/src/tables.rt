//! The two tables, and what stands beside them.

/// A state: its propositions, a as bit 0 and p as bit 15, and how many edges leave it. Higher bits count for nothing.
#[derive(Clone, Copy)]
pub struct TableRow {
    pub propositions: u32,
    pub count: usize,
}

#[derive(Clone, Copy)]
pub struct TableEdge {
    pub target: usize,
    pub weight: u32,
}

/// A chain as tables: a row for each state, and the edges of all states, row after row.
#[derive(Clone, Copy)]
pub struct Tables<'a> {
    pub rows: &'a [TableRow],
    pub edges: &'a [TableEdge],
    pub start: usize,
    pub denominator: u32,
}
