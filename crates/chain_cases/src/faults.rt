//! Every fault of tables, at the first and the last state where it can arise.
use crate::faults::Damage::*;
use crate::makes::{Made, four_states, largest};
use chain::Chain;
use refusal::{Fault, Refusal};
use std::alloc::{AllocError, Global};
use std::process::Abort;
use std::test::Fail;
use table_chain::TableChain;
use tables::TableFault::*;
use tables::{TableEdge, TableFault, TableRow, Tables, check as check_tables};

/// What is changed: the start, the denominator, a row's count, an edge's target or weight, or the number of edges.
#[derive(Clone, Copy)]
enum Damage {
    Start(usize),
    Denominator(u32),
    Count(usize, usize),
    Target(usize, usize),
    Weight(usize, u32),
    OneEdgeLess,
    OneEdgeMore,
}

/// What is changed, and the fault, its number and its place.
type Case = (Damage, TableFault, u32, usize);

const FOUR_STATES: [Case; 15] = [
    (OneEdgeLess, EdgesRunOut, 3, 3),
    (Denominator(0), BadDenominator, 4, 0),
    (Denominator(65_536), BadDenominator, 4, 0),
    (Denominator(u32::MAX), BadDenominator, 4, 0),
    (Start(4), StartOutside, 5, 0),
    (Target(0, 4), BadTarget, 6, 0),
    (Target(1, 1), BadTarget, 6, 0),
    (Weight(0, 0), ZeroWeight, 7, 0),
    (Weight(0, 7), WrongSum, 8, 0),
    (Weight(0, u32::MAX), WrongSum, 8, 0),
    (Count(0, 0), WrongSum, 8, 0),
    (Count(3, 0), WrongSum, 8, 3),
    (Count(0, 4097), TooManyEdges, 9, 0),
    (Count(3, usize::MAX), TooManyEdges, 9, 3),
    (OneEdgeMore, Leftover, 10, 4),
];

const LARGEST: [Case; 8] = [
    (OneEdgeLess, EdgesRunOut, 3, 1023),
    (Start(usize::MAX), StartOutside, 5, 0),
    (Target(4095, 2), BadTarget, 6, 1023),
    (Target(4095, usize::MAX), BadTarget, 6, 1023),
    (Weight(4095, 0), ZeroWeight, 7, 1023),
    (Weight(4095, 65_533), WrongSum, 8, 1023),
    (Count(1023, 5), TooManyEdges, 9, 1023),
    (OneEdgeMore, Leftover, 10, 1024),
];

// A constant table of cases holds values and no closures, so what is changed is an enum.
impl Damage {
    fn apply(self, made: &mut Made) -> Result<(), AllocError> {
        match self {
            Start(start) => made.start = start,
            Denominator(denominator) => made.denominator = denominator,
            Count(state, count) => {
                if let Some(row) = made.rows.get_mut(state) {
                    row.count = count;
                }
            }
            Target(at, target) => {
                if let Some(edge) = made.edges.get_mut(at) {
                    edge.target = target;
                }
            }
            Weight(at, weight) => {
                if let Some(edge) = made.edges.get_mut(at) {
                    edge.weight = weight;
                }
            }
            OneEdgeLess => {
                let _ = made.edges.pop();
            }
            OneEdgeMore => made.edges.push(TableEdge {
                target: 0,
                weight: 1,
            })?,
        }
        Ok(())
    }
}

fn refused(rt: &impl Abort, tables: &Tables, fault: TableFault, number: u32, place: usize) {
    assert_eq!(rt; check_tables(tables), Err(Refusal { fault, place }));
    assert_eq!(rt; fault.number(), number);
    let built_in = TableChain::new(*tables);
    assert_eq!(rt; (built_in.states(), built_in.edge(0, 0)), (1, Some((0, 1))));
}

fn all_refused<F: Fn(Global) -> Result<Made, AllocError>>(
    rt: &impl Abort,
    heap: Global,
    make: F,
    cases: &[Case],
) -> Result<(), AllocError>
    requires { F.IsAlwaysCallable make }
{
    for (damage, fault, number, place) in cases {
        let mut made = make(heap)?;
        damage.apply(&mut made)?;
        refused(rt, &made.lent(), *fault, *number, *place);
    }
    Ok(())
}

#[test]
fn every_fault(rt: HostRuntime) -> Result<(), Fail> {
    all_refused(&rt, rt.alloc(), four_states, &FOUR_STATES)?;
    all_refused(&rt, rt.alloc(), largest, &LARGEST)?;
    Ok(())
}

#[test]
fn row_counts(rt: HostRuntime) -> Result<(), Fail> {
    let mut made = largest(rt.alloc())?;
    made.rows.push(TableRow {
        propositions: 0,
        count: 0,
    })?;
    refused(&rt, &made.lent(), BadRowCount, 2, 0);
    made.rows.clear();
    refused(&rt, &made.lent(), BadRowCount, 2, 0);
    Ok(())
}

#[test]
fn lawful(rt: HostRuntime) -> Result<(), Fail> {
    assert_eq!(rt; check_tables(&four_states(rt.alloc())?.lent()), Ok(()));
    assert_eq!(rt; check_tables(&largest(rt.alloc())?.lent()), Ok(()));
    Ok(())
}
