//! A chain from tables, and the chain of the file that is written from it, answer every question alike.
use crate::makes::{Made, deep, four_states, largest, wide};
use chain::Chain;
use packed_chain::PackedChain;
use packed_writer::{WriteFault, write};
use refusal::{Fault, Refusal};
use std::alloc::Global;
use std::process::Abort;
use std::test::Fail;
use table_chain::TableChain;

fn same_state(rt: &impl Abort, one: &impl Chain, other: &impl Chain, state: usize) {
    assert_eq!(rt; one.propositions(state), other.propositions(state));
    assert_eq!(rt; one.edge_count(state), other.edge_count(state));
    for place in 0..1026 {
        assert_eq!(rt; one.edge(state, place), other.edge(state, place));
    }
}

fn same(rt: &impl Abort, one: &impl Chain, other: &impl Chain) {
    assert_eq!(rt; one.states(), other.states());
    assert_eq!(rt; one.edges(), other.edges());
    assert_eq!(rt;
        (one.start(), one.denominator()),
        (other.start(), other.denominator())
    );
    for state in 0..1026 {
        same_state(rt, one, other, state);
    }
}

fn written_alike(rt: &impl Abort, heap: Global, made: Made) -> Result<(), Fail> {
    let chain = TableChain::new(made.lent());
    let mut buffer = vec![in heap; 0xA5u8; 16_780]?;
    let Ok(length) = write(&chain, buffer.as_mut_slice()) else {
        return Err(Fail::new("the buffer is too short"));
    };
    assert_eq!(rt; buffer.last().copied(), Some(0xA5));
    buffer.truncate(length);
    assert_eq!(rt; packed_file::check(buffer.as_slice()).is_ok(), true);
    same(rt, &chain, &PackedChain::new(buffer.as_slice()));
    Ok(())
}

#[test]
fn four_states_alike(rt: HostRuntime) -> Result<(), Fail> {
    written_alike(&rt, rt.alloc(), four_states(rt.alloc())?)
}

#[test]
fn wide_alike(rt: HostRuntime) -> Result<(), Fail> {
    written_alike(&rt, rt.alloc(), wide(rt.alloc())?)
}

#[test]
fn deep_alike(rt: HostRuntime) -> Result<(), Fail> {
    written_alike(&rt, rt.alloc(), deep(rt.alloc())?)
}

#[test]
fn largest_alike(rt: HostRuntime) -> Result<(), Fail> {
    written_alike(&rt, rt.alloc(), largest(rt.alloc())?)
}

#[test]
fn short_buffer(rt: HostRuntime) -> Result<(), Fail> {
    let made = four_states(rt.alloc())?;
    let chain = TableChain::new(made.lent());
    let mut buffer = [7u8; 49];
    let refusal = Refusal {
        fault: WriteFault::BufferTooShort,
        place: 0,
    };
    assert_eq!(rt; write(&chain, &mut buffer), Err(refusal));
    assert_eq!(rt; buffer, [7u8; 49]);
    assert_eq!(rt; WriteFault::BufferTooShort.number(), 30);
    let mut buffer = [7u8; 50];
    assert_eq!(rt; write(&chain, &mut buffer), Ok(50));
    Ok(())
}
