//! The characters of names (plterm).
use plterm::characters::is_alphanumeric;

/// Characters on both sides of each range of letters, digits and `_`, and whether they are of one (6.5.2).
const BYTES: [(u8, bool); 14] = [
    (b'/', false),
    (b'0', true),
    (b'9', true),
    (b':', false),
    (b'@', false),
    (b'A', true),
    (b'Z', true),
    (b'[', false),
    (b'_', true),
    (b'`', false),
    (b'a', true),
    (b'z', true),
    (b'{', false),
    (0xC3, false),
];

#[test]
fn alphanumeric_bytes(rt: HostRuntime) {
    for (b, is) in BYTES {
        assert!(rt; is_alphanumeric(b) == is, "{b}");
    }
}
