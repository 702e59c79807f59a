//! Every fault of a text, at the first and the last place where it can arise.
use crate::texts::Text;
use property::PropertyFault::*;
use property::{Property, PropertyFault};
use refusal::{Fault, Refusal};
use std::alloc::{AllocError, Global};
use std::process::Abort;

/// A text, and the fault, its number and its place.
type Case = (Text, PropertyFault, u32, usize);

const LENGTHS: [Case; 5] = [
    (Text("", " ", 1_025, ""), TextTooLong, 11, 1024),
    (
        Text("P<=1/2[aU<=1b]", " ", 1_011, ""),
        TextTooLong,
        11,
        1024,
    ),
    (Text("Q", " ", 1_024, ""), TextTooLong, 11, 1024),
    (Text("", " ", 1_024, ""), TokenMissing, 12, 1024),
    (
        Text("P<=1/2[aU<=1b]", " ", 1_009, "a"),
        TokenMissing,
        12,
        1023,
    ),
];

const TOKENS: [(&str, usize); 34] = [
    ("", 0),
    ("p<=1/2", 0),
    ("  <=1/2", 2),
    ("P", 1),
    ("P< =1/2", 1),
    ("P<1/2", 1),
    ("P\t<=1/2", 1),
    ("P<=", 3),
    ("P<=-1/2", 3),
    ("P<=1", 4),
    ("P<=1 2", 5),
    ("P<=1/", 5),
    ("P<=1/2", 6),
    ("P<=1/2  (", 8),
    ("P<=1/2[", 7),
    ("P<=1/2[q", 7),
    ("P<=1/2[A", 7),
    ("P<=1/2[)", 7),
    ("P<=1/2[!T", 8),
    ("P<=1/2[!!a", 8),
    ("P<=1/2[!", 8),
    ("P<=1/2[a", 8),
    ("P<=1/2[a b", 9),
    ("P<=1/2[a&  |", 11),
    ("P<=1/2[a|", 9),
    ("P<=1/2[(a U", 10),
    ("P<=1/2[a)", 8),
    ("P<=1/2[aU", 9),
    ("P<=1/2[aU<=", 11),
    ("P<=1/2[aU<=1", 12),
    ("P<=1/2[aU<=1b", 13),
    ("P<=1/2[aU<=1b)", 13),
    ("P<=1/2[aU<=1b]]", 14),
    ("P<=1/2[aU<=1b] ]", 15),
];

const NUMBERS: [(&str, PropertyFault, u32, usize); 21] = [
    ("P<=00/1", BadNumber, 13, 3),
    ("P<=01/2", BadNumber, 13, 3),
    ("P<=100000/1", BadNumber, 13, 3),
    ("P<=1/02", BadNumber, 13, 5),
    ("P<=1/000000", BadNumber, 13, 5),
    ("P<=1/ 100000", BadNumber, 13, 6),
    ("P<=1/2[aU<=00b]", BadNumber, 13, 11),
    ("P<=1/2[aU<=  000064b]", BadNumber, 13, 13),
    ("P<=0/0", BadCeiling, 14, 5),
    ("P<=0/65536", BadCeiling, 14, 5),
    ("P<=1/99999[a", BadCeiling, 14, 5),
    ("P<=1/0", BadCeiling, 14, 5),
    ("P<=2/1[", BadCeiling, 14, 5),
    ("P <= 2 / 1", BadCeiling, 14, 9),
    ("P<=65535/65534[", BadCeiling, 14, 9),
    ("P<=65536/65535[", BadCeiling, 14, 9),
    ("P<=99999/65535[", BadCeiling, 14, 9),
    ("P<=1/2[aU<=65b]", TooManyHops, 15, 11),
    ("P<=1/2[aU<=99999", TooManyHops, 15, 11),
    ("P<=1/2[aU<= 65", TooManyHops, 15, 12),
    ("P<=1/2[a U <= 65 b]", TooManyHops, 15, 14),
];

/// The seventeenth parenthesis, and the 129th part of each kind.
const LIMITS: [Case; 17] = [
    (Text("P<=1/2[", "(", 17, ""), TooDeep, 16, 23),
    (Text("P<=1/2[", "(", 17, "a"), TooDeep, 16, 23),
    (Text("P<=1/2[", "(", 16, ""), TokenMissing, 12, 23),
    (Text("P<=1/2[", "( ", 17, ""), TooDeep, 16, 39),
    (Text("P<=1/2[(a)|", "(", 17, ""), TooDeep, 16, 27),
    (Text("P<=1/2[aU<=1", "(", 17, ""), TooDeep, 16, 28),
    (Text("P<=1/2[!a", "|a", 63, "U<=1b]"), TooManyParts, 17, 139),
    (Text("P<=1/2[!a", "|a", 63, "U<=1T]"), TooManyParts, 17, 139),
    (Text("P<=1/2[!a", "|a", 63, "U<=1F]"), TooManyParts, 17, 139),
    (
        Text("P<=1/2[!a", "|a", 63, "U<=1!b]"),
        TooManyParts,
        17,
        140,
    ),
    (Text("P<=1/2[a", "|a", 63, "U<=1!b]"), TooManyParts, 17, 138),
    (
        Text("P<=1/2[!a", "|a", 62, "U<=1b&c]"),
        TooManyParts,
        17,
        138,
    ),
    (
        Text("P<=1/2[!a", "|a", 62, "U<=1b|c]"),
        TooManyParts,
        17,
        138,
    ),
    (
        Text("P<=1/2[!a", "|a", 62, "U<=1b&!c]"),
        TooManyParts,
        17,
        139,
    ),
    (Text("P<=1/2[a", "&a", 64, "?"), TooManyParts, 17, 134),
    (Text("P<=1/2[a", "|a", 64, "?"), TooManyParts, 17, 134),
    (Text("P<=1/2[a", "&a", 63, "&?"), TokenMissing, 12, 135),
];

fn refused(rt: &impl Abort, text: &[u8], fault: PropertyFault, number: u32, place: usize) {
    assert_eq!(rt; Property::read(text).err(), Some(Refusal { fault, place }));
    assert_eq!(rt; fault.number(), number);
}

fn all_refused(rt: &impl Abort, heap: Global, cases: &[Case]) -> Result<(), AllocError> {
    for (text, fault, number, place) in cases {
        let text = text.made(heap)?;
        refused(rt, text.as_bytes(), *fault, *number, *place);
    }
    Ok(())
}

#[test]
fn too_long(rt: HostRuntime) -> Result<(), AllocError> {
    all_refused(&rt, rt.alloc(), &LENGTHS)
}

#[test]
fn tokens_missing(rt: HostRuntime) {
    for (text, place) in TOKENS {
        refused(&rt, text.as_bytes(), TokenMissing, 12, place);
    }
}

#[test]
fn numbers(rt: HostRuntime) {
    for (text, fault, number, place) in NUMBERS {
        refused(&rt, text.as_bytes(), fault, number, place);
    }
}

#[test]
fn limits(rt: HostRuntime) -> Result<(), AllocError> {
    all_refused(&rt, rt.alloc(), &LIMITS)
}
