//! The items of terms' bytes, one at a time (plpack).
use plpack::item::next_item;
use plpack::packing::{put_atom, put_compound, put_integer, put_variable};
use plterm::node::Node;
use plterm::numbers::Numbers;
use std::alloc::{AllocError, Global};
use std::fmt::Write;
use std::string::String;
use std::test::Fail;

/// The items of f/2, of the variables 7, 3 and 7, of the atoms a and of the empty name, and of -2 and 258.
const ITEMS: &[u8] =
    b"\x03\x00\x02\x00\x01f\x00\x00\x00\x00\x00\x00\x00\x00\x00\x00\x00\x00\x00\x00\x00\x00\x00\x01\x00\x00\x00\x00\x00\x00\x00\x00\x00\x02\x00\x01a\x02\x00\x00\x01\xff\xff\xff\xff\xff\xff\xff\xfe\x01\x00\x00\x00\x00\x00\x00\x01\x02";

/// Adds these items.
fn put_all(out: &mut Vec<u8>, seen: &mut Numbers) -> Result<(), AllocError> {
    put_compound(out, "f", 2)?;
    for variable in [7, 3, 7] {
        put_variable(out, seen, variable)?;
    }
    put_atom(out, "a")?;
    put_atom(out, "")?;
    put_integer(out, -2)?;
    put_integer(out, 258)
}

/// Whether these are the items.
fn are_items(alloc: Global) -> Result<bool, AllocError> {
    let mut out = Vec::new(alloc);
    let mut seen = Numbers::new(alloc);
    put_all(&mut out, &mut seen)?;
    Ok(out.as_slice() == ITEMS)
}

// A variable's item has its place among those seen.
#[test]
fn put_one_by_one(rt: HostRuntime) -> Result<(), Fail> {
    assert!(rt; are_items(rt.alloc())?);
    Ok(())
}

fn tell_node(told: &mut String, node: &Node) -> Result<(), AllocError> {
    match node {
        Node::Var(number) => write!(told, "variable {number}"),
        Node::Int(value) => write!(told, "{value}"),
        Node::Atom(name) => write!(told, "atom {}", name.as_str()),
        Node::Compound(name, arity) => write!(told, "{}/{arity}", name.as_str()),
    }
}

/// Bytes, how many variables were seen before, and their first item.
type Row = (&'static [u8], u32, &'static str);

const FIRST: [&[Row]; 2] = [
    &[
        (b"\x03\x00\x02\x00\x01fxyz", 0, "f/2, 3 behind, 0 seen"),
        (b"\x03\x00\x02\x00\x01f", 5, "f/2, 0 behind, 5 seen"),
        (
            b"\x00\x00\x00\x00\x00\x00\x00\x00\x00x",
            0,
            "variable 0, 1 behind, 1 seen",
        ),
        (
            b"\x00\x00\x00\x00\x00\x00\x00\x00\x00x",
            1,
            "variable 0, 1 behind, 1 seen",
        ),
        (
            b"\x00\x00\x00\x00\x00\x00\x00\x00\x01",
            1,
            "variable 1, 0 behind, 2 seen",
        ),
        (b"\x00\x00\x00\x00\x00\x00\x00\x00\x01", 0, "none"),
    ],
    &[
        (
            b"\x01\xff\xff\xff\xff\xff\xff\xff\xfe",
            3,
            "-2, 0 behind, 3 seen",
        ),
        (b"\x01\xff\xff\xff\xff\xff\xff\xff", 3, "none"),
        (b"\x02\x00\x02ab\x02", 0, "atom ab, 1 behind, 0 seen"),
        (b"\x02\x00\x03ab", 0, "none"),
        (b"\x03\x00\x00\x00\x01f", 0, "none"),
        (b"\x04", 0, "none"),
        (b"", 0, "none"),
    ],
];

/// Adds the first item of bytes, where so many variables were seen before, how many bytes stand behind it, and how many
/// variables are seen with it.
fn tell_first(alloc: Global, told: &mut String, bytes: &[u8], seen: u32) -> Result<(), AllocError> {
    match next_item(alloc, bytes, u64::from(seen))? {
        Some(next) => {
            tell_node(told, &next.node)?;
            write!(told, ", {} behind, {} seen", next.behind.len(), next.seen)
        }
        None => told.push_str("none"),
    }
}

/// Whether that is told of the bytes of a row.
fn is_first(alloc: Global, row: &Row) -> Result<bool, AllocError> {
    let (bytes, seen, wanted) = *row;
    let mut told = String::new(alloc);
    tell_first(alloc, &mut told, bytes, seen)?;
    Ok(told.as_str() == wanted)
}

/// The place of the first row of which that is not so.
fn first_wrong(alloc: Global, rows: &[Row]) -> Result<Option<usize>, AllocError> {
    for (place, row) in rows.iter().enumerate() {
        if !is_first(alloc, row)? {
            return Ok(Some(place));
        }
    }
    Ok(None)
}

// An item that is cut off, an arity of 0, an unknown tag and a variable that leaves out a number are none.
#[test]
fn first_items(rt: HostRuntime) -> Result<(), Fail> {
    for rows in FIRST {
        assert_eq!(rt; first_wrong(rt.alloc(), rows)?, None);
    }
    Ok(())
}
