//! Tables for the tests.
use std::alloc::{AllocError, Global};
use tables::{TableEdge, TableRow, Tables};

/// Tables that own their rows and edges.
#[derive(Drop)]
pub(crate) struct Made {
    pub(crate) rows: Vec<TableRow>,
    pub(crate) edges: Vec<TableEdge>,
    pub(crate) start: usize,
    pub(crate) denominator: u32,
}

impl Made {
    pub(crate) fn lent(&self) -> Tables<'_> {
        Tables {
            rows: self.rows.as_slice(),
            edges: self.edges.as_slice(),
            start: self.start,
            denominator: self.denominator,
        }
    }

    fn row(&mut self, propositions: u32, edges: &[(usize, u32)]) -> Result<(), AllocError> {
        let count = edges.len();
        self.rows.push(TableRow {
            propositions,
            count,
        })?;
        for (target, weight) in edges {
            self.edges.push(TableEdge {
                target: *target,
                weight: *weight,
            })?;
        }
        Ok(())
    }
}

fn empty(heap: Global, start: usize, denominator: u32) -> Made {
    Made {
        rows: Vec::new(heap),
        edges: Vec::new(heap),
        start,
        denominator,
    }
}

/// Four states, nine edges, out of 10.
pub(crate) fn four_states(heap: Global) -> Result<Made, AllocError> {
    let mut made = empty(heap, 0, 10);
    made.row(1, &[(1, 6), (2, 1), (3, 3)])?;
    made.row(1, &[(0, 2), (1, 3), (2, 4), (3, 1)])?;
    made.row(2, &[(2, 10)])?;
    made.row(0, &[(3, 10)])?;
    Ok(made)
}

/// One state for each target, and an edge from the first to every one of 1,024.
pub(crate) fn wide(heap: Global) -> Result<Made, AllocError> {
    let mut made = empty(heap, 7, 1024);
    made.rows.push(TableRow {
        propositions: 0xFFFF,
        count: 1024,
    })?;
    for target in 0..1024 {
        made.edges.push(TableEdge { target, weight: 1 })?;
    }
    for state in 1..1024 {
        made.row(state as u32, &[(state, 1024)])?;
    }
    Ok(made)
}

/// A line of 600 states, each with an edge to the next.
pub(crate) fn deep(heap: Global) -> Result<Made, AllocError> {
    let mut made = empty(heap, 0, 3);
    for state in 0..599 {
        made.row(2, &[(state, 1), (state + 1, 2)])?;
    }
    made.row(4, &[(599, 3)])?;
    Ok(made)
}

/// As many states and edges as a chain can have.
pub(crate) fn largest(heap: Global) -> Result<Made, AllocError> {
    let mut made = empty(heap, 1023, 65_535);
    for _ in 0..1024 {
        made.row(0x8001, &[(0, 1), (1, 1), (2, 1), (1023, 65_532)])?;
    }
    Ok(made)
}
