//! Operators (plops).
use plops::error::OpError;
use plops::operator::{Kind, Operator};
use plops::table::OpTable;
use std::alloc::{AllocError, Global};
use std::test::Fail;

/// A name, and its priorities as an infix and as a prefix operator; 0 where it is none.
type NameRow = (&'static str, u16, u16);

const OPERATORS: [&[NameRow]; 3] = [
    &[
        (":-", 1200, 1200),
        ("?-", 0, 1200),
        ("dynamic", 0, 1150),
        (";", 1100, 0),
        ("->", 1050, 0),
        (",", 1000, 0),
    ],
    &[
        ("\\+", 0, 900),
        ("=..", 700, 0),
        ("is", 700, 0),
        ("-", 500, 200),
        ("//", 400, 0),
        ("mod", 400, 0),
    ],
    &[
        ("**", 200, 0),
        ("^", 200, 0),
        ("\\", 0, 200),
        ("<", 700, 0),
        ("a", 0, 0),
    ],
];

/// The priority of a name as an infix operator.
fn infix(operators: &OpTable, name: &str) -> u16 {
    operators.infix(name).map_or(0, |op| op.priority)
}

/// How many operators a table has.
fn count(alloc: Global, operators: &OpTable) -> Result<usize, AllocError> {
    let list = operators.list(alloc)?;
    Ok(list.len())
}

/// The first name that has other priorities, or is a postfix operator.
fn first_wrong(operators: &OpTable, rows: &[NameRow]) -> Option<&'static str> {
    for row in rows.iter() {
        let (name, between, before) = *row;
        let prefix = operators.prefix(name).map_or(0, |op| op.priority);
        if (infix(operators, name), prefix) != (between, before)
            || operators.postfix(name).is_some()
        {
            return Some(name);
        }
    }
    None
}

/// The same under the standard operators, of which there are 44.
fn first_wrong_of_iso(alloc: Global, rows: &[NameRow]) -> Result<Option<&'static str>, AllocError> {
    let iso = OpTable::iso(alloc)?;
    Ok(if count(alloc, &iso)? == 44 {
        first_wrong(&iso, rows)
    } else {
        Some("44 operators")
    })
}

// The operators of the standard's table, and of directives; `<` is before no operand, `a` is no operator.
#[test]
fn looks_up(rt: HostRuntime) -> Result<(), Fail> {
    for rows in OPERATORS {
        assert_eq!(rt; first_wrong_of_iso(rt.alloc(), rows)?, None);
    }
    Ok(())
}

/// An operator that is refused, and why.
type RefusedRow = (u16, Kind, &'static str, OpError);

const REFUSED: [RefusedRow; 8] = [
    (700, Kind::Xfx, ",", OpError::Comma),
    (0, Kind::Fy, ",", OpError::Comma),
    (1201, Kind::Xfx, "a", OpError::Priority),
    (1201, Kind::Xfx, ",", OpError::Priority),
    (200, Kind::Xf, "+", OpError::InfixPostfix),
    (200, Kind::Xfy, "|", OpError::Reserved),
    (0, Kind::Xfy, "[]", OpError::Reserved),
    (1200, Kind::Fy, "{}", OpError::Reserved),
];

/// Whether an operator is refused so by a table of the standard operators, which is then as it was.
fn is_refused(alloc: Global, ops: &mut OpTable, row: &RefusedRow) -> Result<bool, AllocError> {
    let (priority, kind, name, error) = *row;
    let is = ops.add(priority, kind, name) == Err(error);
    Ok(is && infix(ops, "+") == 500 && count(alloc, ops)? == 44)
}

/// The place of the first row of which that is not so.
fn first_not_refused(
    alloc: Global,
    ops: &mut OpTable,
    rows: &[RefusedRow],
) -> Result<Option<usize>, AllocError> {
    for (place, row) in rows.iter().enumerate() {
        if !is_refused(alloc, ops, row)? {
            return Ok(Some(place));
        }
    }
    Ok(None)
}

// What is refused, and why, with the first of several causes; a refused table is as it was.
#[test]
fn refuses(rt: HostRuntime) -> Result<(), Fail> {
    let mut ops = OpTable::iso(rt.alloc())?;
    assert_eq!(rt; first_not_refused(rt.alloc(), &mut ops, &REFUSED)?, None);
    Ok(())
}

/// An operator that is added, why it is refused where it is, and the greatest priority that its name, as an infix or a
/// postfix operator, then has to its left; 0 where it is none.
type AddedRow = (u16, Kind, &'static str, Option<OpError>, u16);

/// Operators that are added one after the other, those of the second group behind a copy of the table.
const ADDED: [&[AddedRow]; 2] = [
    &[(1200, Kind::Xfx, "===>", None, 1199)],
    &[
        (800, Kind::Yfx, "===>", None, 800),
        (0, Kind::Xfy, "===>", None, 0),
        (0, Kind::Xf, "+", None, 500),
        (200, Kind::Yf, "!", None, 200),
        (200, Kind::Xfx, "!", Some(OpError::InfixPostfix), 200),
    ],
];

/// The greatest priority that a name has to its left.
fn left(ops: &OpTable, name: &str) -> u16 {
    match ops.infix(name) {
        Some(op) => op.left,
        None => ops.postfix(name).map_or(0, |op| op.left),
    }
}

/// The place of the first row that is told otherwise.
fn first_not_added(ops: &mut OpTable, rows: &[AddedRow]) -> Option<usize> {
    for (place, row) in rows.iter().enumerate() {
        let (priority, kind, name, error, wanted) = *row;
        let found = ops.add(priority, kind, name).err();
        if found != error || left(ops, name) != wanted {
            return Some(place);
        }
    }
    None
}

/// What a copy tells of `===>`, and of how many operators, when others are added to the table itself, and the place of the
/// first of these that is told otherwise.
fn kept(alloc: Global, ops: &mut OpTable) -> Result<(u16, usize, Option<usize>), AllocError> {
    let copy = ops.copy(alloc)?;
    let wrong = first_not_added(ops, ADDED[1]);
    let right = copy.infix("===>").map_or(0, |op| op.right);
    Ok((right, count(alloc, &copy)?, wrong))
}

// An operator is added, replaced and removed; a copy keeps what it was.
#[test]
fn adds(rt: HostRuntime) -> Result<(), Fail> {
    let mut ops = OpTable::iso(rt.alloc())?;
    let wrong = first_not_added(&mut ops, ADDED[0]);
    assert!(rt; wrong.is_none() && kept(rt.alloc(), &mut ops)? == (1199, 45, None));
    Ok(())
}

// An operator is made of its priority and its kind, and tells its kind.
#[test]
fn kinds(rt: HostRuntime) {
    for kind in [
        Kind::Xfx,
        Kind::Xfy,
        Kind::Yfx,
        Kind::Fx,
        Kind::Fy,
        Kind::Xf,
        Kind::Yf,
    ] {
        let told = match Operator::of(700, kind) {
            Operator::Before(op) => op.kind(),
            Operator::Between(op) => op.kind(),
            Operator::Behind(op) => op.kind(),
        };
        assert_eq!(rt; told, kind);
    }
}
