//! Every fault, at the first and the last place where it can arise.
use crate::draft::{Change, four_states, largest, one_state, widest_rows};
use crate::faults::End::*;
use packed_file::FileFault::*;
use packed_file::{FileFault, check as check_file};
use refusal::{Fault, Refusal};
use std::alloc::{AllocError, Global};
use std::process::Abort;
use std::test::Fail;

#[derive(Clone, Copy)]
enum End {
    Whole,
    WithoutLastByte,
    WithZeroByte,
    WithLastBitSet,
}

// In the largest file the last row begins at bit 134,065, and its last edge at bit 134,170.
const LAST_COUNT: usize = 134_081;

const LAST_TARGET: usize = 134_170;

const LAST_WEIGHT: usize = 134_180;

const LAST_BIT: usize = 134_196;

// The fourth row is the first that can pass the limit of edges: a row of more edges than states has a bad target before.
const FOURTH: usize = 52 + 3 * (27 + 26 * 1024) + 16;

const FOURTH_END: usize = FOURTH + 11 + 26 * 1024;

/// What is changed, and how the file ends; the fault, its number and its place.
type Case = (Option<Change>, End, FileFault, u32, usize);

const ONE_STATE: [Case; 9] = [
    (None, WithoutLastByte, EndsInField, 3, 89),
    (Some(Change(26, 0)), Whole, ZeroDenominator, 4, 26),
    (Some(Change(42, 1)), Whole, StartOutside, 5, 42),
    (Some(Change(79, 1)), Whole, BadTarget, 6, 79),
    (Some(Change(89, 0)), Whole, ZeroWeight, 7, 89),
    (Some(Change(68, 0)), Whole, WrongSum, 8, 68),
    (Some(Change(89, 2)), Whole, WrongSum, 8, 68),
    (None, WithLastBitSet, Leftover, 10, 105),
    (None, WithZeroByte, Leftover, 10, 105),
];

const FOUR_STATES: [Case; 3] = [
    (Some(Change(105, 1)), Whole, BadTarget, 6, 105),
    (Some(Change(105, 0)), Whole, BadTarget, 6, 105),
    (Some(Change(131, 4)), Whole, BadTarget, 6, 131),
];

const LARGEST: [Case; 10] = [
    (None, WithoutLastByte, EndsInField, 3, LAST_WEIGHT),
    (Some(Change(26, 0)), Whole, ZeroDenominator, 4, 26),
    (Some(Change(16, 1022)), Whole, StartOutside, 5, 42),
    (
        Some(Change(LAST_TARGET, 2)),
        Whole,
        BadTarget,
        6,
        LAST_TARGET,
    ),
    (
        Some(Change(LAST_WEIGHT, 0)),
        Whole,
        ZeroWeight,
        7,
        LAST_WEIGHT,
    ),
    (
        Some(Change(LAST_WEIGHT, 65_531)),
        Whole,
        WrongSum,
        8,
        LAST_COUNT,
    ),
    (
        Some(Change(LAST_WEIGHT, 65_533)),
        Whole,
        WrongSum,
        8,
        LAST_COUNT,
    ),
    (
        Some(Change(LAST_COUNT, 5)),
        Whole,
        TooManyEdges,
        9,
        LAST_COUNT,
    ),
    (None, WithLastBitSet, Leftover, 10, LAST_BIT),
    (None, WithZeroByte, Leftover, 10, LAST_BIT),
];

const WIDEST_ROWS: [Case; 2] = [
    (None, Whole, EndsInField, 3, FOURTH_END),
    (Some(Change(FOURTH, 1025)), Whole, TooManyEdges, 9, FOURTH),
];

// A constant table of cases holds values and no closures, so how a file ends is an enum.
fn ended(mut bytes: Vec<u8>, end: End) -> Result<Vec<u8>, AllocError> {
    match end {
        Whole => {}
        WithoutLastByte => {
            let _ = bytes.pop();
        }
        WithZeroByte => bytes.push(0)?,
        WithLastBitSet => {
            if let Some(last) = bytes.last_mut() {
                *last |= 1;
            }
        }
    }
    Ok(bytes)
}

fn refused(rt: &impl Abort, bytes: &[u8], fault: FileFault, number: u32, place: usize) {
    assert_eq!(rt; check_file(bytes), Err(Refusal { fault, place }));
    assert_eq!(rt; fault.number(), number);
}

fn all_refused<F: Fn(Global, Option<Change>) -> Result<Vec<u8>, AllocError>>(
    rt: &impl Abort,
    heap: Global,
    file: F,
    cases: &[Case],
) -> Result<(), AllocError>
    requires { F.IsAlwaysCallable file }
{
    for (change, end, fault, number, place) in cases {
        let bytes = ended(file(heap, *change)?, *end)?;
        refused(rt, bytes.as_slice(), *fault, *number, *place);
    }
    Ok(())
}

#[test]
fn every_fault(rt: HostRuntime) -> Result<(), Fail> {
    let heap = rt.alloc();
    all_refused(&rt, heap, one_state, &ONE_STATE)?;
    all_refused(&rt, heap, four_states, &FOUR_STATES)?;
    all_refused(&rt, heap, largest, &LARGEST)?;
    all_refused(&rt, heap, widest_rows, &WIDEST_ROWS)?;
    Ok(())
}

#[test]
fn marks(rt: HostRuntime) {
    refused(&rt, &[0xFF, 0xFE], ReversedMark, 1, 0);
    refused(&rt, &[0xFF, 0xFE, 0, 0], ReversedMark, 1, 0);
    refused(&rt, &[], NoMark, 2, 0);
    refused(&rt, &[0xFE], NoMark, 2, 0);
    refused(&rt, &[0xFE, 0xFE, 0xFF], NoMark, 2, 0);
    refused(&rt, &[0xFE, 0xFF], EndsInField, 3, 16);
}

/// One state with b, written out byte for byte, and what its last byte decides.
#[test]
fn last_byte(rt: HostRuntime) {
    assert_eq!(rt;
        check_file(&[0xFE, 0xFF, 0, 0, 0, 0x40, 4, 0, 0, 2, 0, 0, 0, 0x80]),
        Ok(())
    );
    refused(
        &rt,
        &[0xFE, 0xFF, 0, 0, 0, 0x40, 4, 0, 0, 2, 0, 0, 0, 0],
        ZeroWeight,
        7,
        89,
    );
    refused(
        &rt,
        &[0xFE, 0xFF, 0, 0, 0, 0x40, 4, 0, 0, 2, 0, 0, 0, 0x81],
        Leftover,
        10,
        105,
    );
    refused(
        &rt,
        &[0xFE, 0xFF, 0, 0, 0, 0x40, 4, 0, 0, 2, 0, 0, 0],
        EndsInField,
        3,
        89,
    );
}

#[test]
fn largest_is_lawful(rt: HostRuntime) -> Result<(), Fail> {
    let bytes = largest(rt.alloc(), Some(Change(LAST_TARGET, 1023)))?;
    assert_eq!(rt; bytes.len(), 16_775);
    assert_eq!(rt; check_file(bytes.as_slice()), Ok(()));
    Ok(())
}
