//! What the chains taken up from files answer.
use crate::draft::{four_states, largest};
use chain::{BuiltIn, Chain};
use packed_chain::PackedChain;
use std::process::Abort;
use std::test::Fail;

/// The numbers of states and edges, the start and the denominator.
fn numbers(chain: &impl Chain) -> (usize, usize, usize, u32) {
    let states = chain.states();
    let edges = chain.edges();
    (states, edges, chain.start(), chain.denominator())
}

#[test]
fn four_states_answer(rt: HostRuntime) -> Result<(), Fail> {
    let bytes = four_states(rt.alloc(), None)?;
    let chain = PackedChain::new(bytes.as_slice());
    assert_eq!(rt; numbers(&chain), (4, 9, 0, 10));
    let letters = [chain.propositions(0), chain.propositions(2)];
    assert_eq!(rt; letters, [Some(1), Some(2)]);
    let letters = [chain.propositions(3), chain.propositions(4)];
    assert_eq!(rt; letters, [Some(0), None]);
    assert_eq!(rt; [chain.edge_count(1), chain.edge_count(4)], [Some(4), None]);
    assert_eq!(rt; [chain.edge(1, 3), chain.edge(1, 4)], [Some((3, 1)), None]);
    Ok(())
}

#[test]
fn largest_answers(rt: HostRuntime) -> Result<(), Fail> {
    let bytes = largest(rt.alloc(), None)?;
    let chain = PackedChain::new(bytes.as_slice());
    assert_eq!(rt; numbers(&chain), (1024, 4096, 1023, 65_535));
    let letters = [chain.propositions(1023), chain.propositions(1024)];
    assert_eq!(rt; letters, [Some(1 << 15), None]);
    let counts = [chain.edge_count(1023), chain.edge_count(1024)];
    assert_eq!(rt; counts, [Some(4), None]);
    let edges = [chain.edge(1023, 3), chain.edge(1023, 4)];
    assert_eq!(rt; edges, [Some((3, 65_532)), None]);
    Ok(())
}

fn like_built_in(rt: &impl Abort, chain: &impl Chain) {
    assert_eq!(rt; numbers(chain), (1, 1, 0, 1));
    let letters = [chain.propositions(0), chain.propositions(1)];
    assert_eq!(rt; letters, [Some(0), None]);
    assert_eq!(rt; [chain.edge_count(0), chain.edge_count(1)], [Some(1), None]);
    assert_eq!(rt; [chain.edge(0, 0), chain.edge(0, 1)], [Some((0, 1)), None]);
}

#[test]
fn refused_is_built_in(rt: HostRuntime) {
    like_built_in(&rt, &BuiltIn);
    like_built_in(&rt, &PackedChain::new(&[]));
    like_built_in(&rt, &PackedChain::new(&[0xFF, 0xFE, 0, 0, 0, 0x40]));
}
