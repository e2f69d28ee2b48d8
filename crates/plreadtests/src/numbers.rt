//! The integer that a text is (plnumber).
use plnumber::number::number_of;

/// A text, and the integer that it is, if it is one: layout may stand before it and not behind it, and a sign directly before
/// its digits (8.16.7, 8.16.8).
type Row = (&'static str, Option<i64>);

const NUMBERS: [&[Row]; 3] = [
    &[
        ("12", Some(12)),
        (" \n12", Some(12)),
        ("% c\n/* d */12", Some(12)),
        ("-12", Some(-12)),
        (" -0", Some(0)),
        ("0x1F", Some(31)),
    ],
    &[
        ("-0b101", Some(-5)),
        ("0'a", Some(97)),
        ("9223372036854775807", Some(i64::MAX)),
        ("9223372036854775808", None),
        ("-9223372036854775808", Some(i64::MIN)),
        ("- 12", None),
    ],
    &[
        ("--12", None),
        ("12 ", None),
        ("1.5", None),
        ("a", None),
        ("/* c", None),
        ("", None),
    ],
];

/// The first text that is another integer, or none.
fn first_wrong(rows: &[Row]) -> Option<&'static str> {
    for row in rows.iter() {
        let (text, value) = *row;
        if number_of(text.as_bytes()) != value {
            return Some(text);
        }
    }
    None
}

#[test]
fn integers_of_texts(rt: HostRuntime) {
    for rows in NUMBERS {
        assert_eq!(rt; first_wrong(rows), None);
    }
}
