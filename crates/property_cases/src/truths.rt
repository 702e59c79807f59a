//! The truth of ground and goal in sets of propositions.
use property::Property;

const A: u16 = 1;

const B: u16 = 2;

const C: u16 = 4;

const P: u16 = 32_768;

/// A text, a set of propositions, and whether ground and goal hold there.
const TRUTHS: [(&str, u16, bool, bool); 20] = [
    ("P<=1/2[a U<=1 b]", 0, false, false),
    ("P<=1/2[a U<=1 b]", A, true, false),
    ("P<=1/2[a U<=1 b]", B, false, true),
    ("P<=1/2[!a U<=1 p]", P, true, true),
    ("P<=1/2[!a U<=1 p]", A, false, false),
    ("P<=1/2[T U<=1 F]", 0, true, false),
    ("P<=1/2[T U<=1 F]", u16::MAX, true, false),
    ("P<=1/2[a&b U<=1 a|b]", A, false, true),
    ("P<=1/2[a&b U<=1 a|b]", B, false, true),
    ("P<=1/2[a&b U<=1 a|b]", A | B, true, true),
    ("P<=1/2[a&b U<=1 a|b]", C, false, false),
    ("P<=1/2[a|b&c U<=1 (a|b)&c]", A, true, false),
    ("P<=1/2[a|b&c U<=1 (a|b)&c]", A | C, true, true),
    ("P<=1/2[a|b&c U<=1 (a|b)&c]", B | C, true, true),
    ("P<=1/2[a|b&c U<=1 (a|b)&c]", C, false, false),
    ("P<=1/2[a&b|c U<=1 a&(b|c)]", C, true, false),
    ("P<=1/2[a&b|c U<=1 a&(b|c)]", A | C, true, true),
    ("P<=1/2[!a&!b U<=1 !a|!b]", 0, true, true),
    ("P<=1/2[!a&!b U<=1 !a|!b]", A, false, true),
    ("P<=1/2[!a&!b U<=1 !a|!b]", A | B, false, false),
];

#[test]
fn ground_and_goal(rt: HostRuntime) {
    for (text, propositions, ground, goal) in TRUTHS {
        let property = Property::read(text.as_bytes()).unwrap_or(Property::fresh());
        let truths = (
            property.ground_holds(propositions),
            property.goal_holds(propositions),
        );
        assert_eq!(rt; truths, (ground, goal));
    }
}

#[test]
fn nothing_holds_in_the_fresh_one(rt: HostRuntime) {
    let fresh = Property::fresh();
    assert_eq!(rt; (fresh.hop_bound(), fresh.part_count()), (0, 2));
    assert_eq!(rt;
        (fresh.ground_holds(u16::MAX), fresh.goal_holds(0)),
        (false, false)
    );
}
