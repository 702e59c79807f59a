//! Texts that are read, and how they are written back.
use crate::texts::Text;
use property::Property;
use std::test::Fail;

/// A text, its upper and lower number, its hop bound and its parts.
type Reading = (Text, u32, u32, u32, usize);

const READINGS: [Reading; 18] = [
    (Text("P<=3/1000[a U<=12 b]", "", 0, ""), 3, 1000, 12, 2),
    (Text("P<=3/1000[aU<=12b]", "", 0, ""), 3, 1000, 12, 2),
    (
        Text("  P  <=  3  /  1000  [  a  U  <=  12  b  ]  ", "", 0, ""),
        3,
        1000,
        12,
        2,
    ),
    (Text("P<=0/1[F U<=0 F]", "", 0, ""), 0, 1, 0, 2),
    (
        Text("P<=65535/65535[T U<=64 F]", "", 0, ""),
        65_535,
        65_535,
        64,
        2,
    ),
    (
        Text(" P <= 1 / 20 [ a & b&!c | T U <= 64 (a|p)&F ] ", "", 0, ""),
        1,
        20,
        64,
        13,
    ),
    (
        Text("P<=1/2[", "(", 16, "a))))))))))))))))U<=1b]"),
        1,
        2,
        1,
        2,
    ),
    (
        Text("P<=1/2[aU<=1", "(", 16, "b))))))))))))))))]"),
        1,
        2,
        1,
        2,
    ),
    (Text("P<=1/2[", "(a)|", 20, "a U<=1b]"), 1, 2, 1, 42),
    (Text("P<=1/2[a", "|a", 63, "U<=1b]"), 1, 2, 1, 128),
    (Text("P<=1/2[a", "|a", 63, "U<=1T]"), 1, 2, 1, 128),
    (Text("P<=1/2[a", "|a", 63, "U<=1F]"), 1, 2, 1, 128),
    (Text("P<=1/2[!a", "|a", 62, "U<=1!b]"), 1, 2, 1, 128),
    (Text("P<=1/2[a", "|a", 62, "U<=1b&c]"), 1, 2, 1, 128),
    (Text("P<=1/2[a", "|a", 62, "U<=1b|c]"), 1, 2, 1, 128),
    (Text("P<=1/2[aU<=1b]", " ", 1_010, ""), 1, 2, 1, 2),
    (Text("", " ", 1_010, "P<=1/2[aU<=1b]"), 1, 2, 1, 2),
    (Text("P<=1/2[", " ", 1_010, "aU<=1b]"), 1, 2, 1, 2),
];

#[test]
fn are_read(rt: HostRuntime) -> Result<(), Fail> {
    for (text, upper, lower, hops, parts) in READINGS {
        let text = text.made(rt.alloc())?;
        let property = Property::read(text.as_bytes()).unwrap_or(Property::fresh());
        let ceiling = property.ceiling();
        let read = (
            ceiling.upper,
            ceiling.lower,
            property.hop_bound(),
            property.part_count(),
        );
        assert_eq!(rt; read, (upper, lower, hops, parts));
    }
    Ok(())
}

/// A text, and its plainest form.
const FORMS: [(&str, &str); 12] = [
    ("P<=3/1000[aU<=12b]", "P<=3/1000[a U<=12 b]"),
    (" P <= 3 / 1000 [ a U <= 12 b ] ", "P<=3/1000[a U<=12 b]"),
    ("P<=0/1[F U<=0 F]", "P<=0/1[F U<=0 F]"),
    ("P<=1/2[((a)) U<=1 ((!p))]", "P<=1/2[a U<=1 !p]"),
    ("P<=1/2[(a&b)&c U<=1 (a|b)|c]", "P<=1/2[a&b&c U<=1 a|b|c]"),
    (
        "P<=1/2[a&(b&c) U<=1 a|(b|c)]",
        "P<=1/2[a&(b&c) U<=1 a|(b|c)]",
    ),
    ("P<=1/2[(a&b)|(c&d) U<=1 T]", "P<=1/2[a&b|c&d U<=1 T]"),
    ("P<=1/2[(a|b)&(c|d) U<=1 T]", "P<=1/2[(a|b)&(c|d) U<=1 T]"),
    ("P<=1/2[a|b&c U<=1 a&b|c]", "P<=1/2[a|b&c U<=1 a&b|c]"),
    ("P<=1/2[a|(b&c) U<=1 (a&b)|c]", "P<=1/2[a|b&c U<=1 a&b|c]"),
    (
        "P<=1/2[a&((b|c)&d) U<=1 !a&!b]",
        "P<=1/2[a&((b|c)&d) U<=1 !a&!b]",
    ),
    (
        "P<=1/2[(((a|b))) U<=1 ((a)|(b))&T]",
        "P<=1/2[a|b U<=1 (a|b)&T]",
    ),
];

#[test]
fn are_written_back(rt: HostRuntime) -> Result<(), Fail> {
    for (text, form) in FORMS {
        let property = Property::read(text.as_bytes()).unwrap_or(Property::fresh());
        assert_eq!(rt; format!(in rt.alloc(); "{property}")?.as_str(), form);
    }
    Ok(())
}
