//! Names by number (platoms).
ghost use Rattle.std.specs.Prelude.{IfOk};
ghost use Rattle.platoms.specs.Names.{HasAtom};

use platoms::evaluable::Operation;
use platoms::names::{Functor, Names};
use plterm::name::Name;
use std::alloc::{AllocError, Global};
use std::test::Fail;

/// The number of a short name.
fn number_of(alloc: Global, names: &mut Names, text: &str) -> Result<u32, AllocError>
    ensures { IfOk result (λ a. HasAtom names.new a text.now) }
{
    let name = Name::new(alloc, text)?;
    if name.len() > 65535 {
        return Err(AllocError);
    }
    names.atom(&name)
}

/// A name that is asked for, its number, and the number of its functor of two arguments, where that is asked for too.
type Row = (&'static str, u32, Option<u32>);

/// Names that are asked for one after the other.
const ASKED: [&[Row]; 3] = [
    &[("a", 0, None), ("b", 1, Some(0))],
    // Also behind other ones.
    &[
        ("a", 0, None),
        ("", 1, None),
        ("é", 2, None),
        ("a", 0, None),
        ("[]", 3, None),
    ],
    // Names of one length that begin and end alike, asked for in turns.
    &[
        ("axb", 0, None),
        ("ayb", 1, None),
        ("axb", 0, None),
        ("ayb", 1, None),
    ],
];

/// Whether the number of a name's functor of two arguments is this one, which stands for that functor.
fn is_functor(
    alloc: Global,
    names: &mut Names,
    text: &str,
    number: u32,
) -> Result<bool, AllocError> {
    let name = number_of(alloc, names, text)?;
    let functor = Functor { name, arity: 2 };
    let found = names.functor(functor)?;
    Ok(found == number && names.functor_of(found) == functor)
}

/// Whether a name, and its functor, have the numbers of a row, and the number stands for that name.
fn is_row(alloc: Global, names: &mut Names, row: &Row) -> Result<bool, AllocError> {
    let (text, number, functor) = *row;
    let found = number_of(alloc, names, text)?;
    if found != number || names.atom_name(found).as_str() != text {
        return Ok(false);
    }
    match functor {
        Some(number) => is_functor(alloc, names, text, number),
        None => Ok(true),
    }
}

/// The place of the first row of which that is not so.
fn first_wrong(
    alloc: Global,
    names: &mut Names,
    rows: &[Row],
) -> Result<Option<usize>, AllocError> {
    for (place, row) in rows.iter().enumerate() {
        if !is_row(alloc, names, row)? {
            return Ok(Some(place));
        }
    }
    Ok(None)
}

/// The same of names of which none was asked for before.
fn first_wrong_of_new(alloc: Global, rows: &[Row]) -> Result<Option<usize>, AllocError> {
    let mut names = Names::new(alloc);
    first_wrong(alloc, &mut names, rows)
}

// A number stands for its name, and a functor's number for that functor.
#[test]
fn numbers_of_names(rt: HostRuntime) -> Result<(), Fail> {
    for rows in ASKED {
        assert_eq!(rt; first_wrong_of_new(rt.alloc(), rows)?, None);
    }
    Ok(())
}

/// A name, how many arguments a compound of it has, and how many values its operation takes; 0, where it is not evaluable (ISO/IEC 13211-1
/// 9.1, 9.3, 9.4).
const OPERATIONS: [(&str, u16, usize); 12] = [
    ("-", 1, 1),
    ("-", 2, 2),
    ("-", 3, 0),
    ("foo", 2, 0),
    ("abs", 1, 1),
    ("abs", 2, 0),
    ("mod", 2, 2),
    ("mod", 1, 0),
    ("^", 2, 2),
    ("foo", 1, 0),
    ("\\", 1, 1),
    ("-", 2, 2),
];

/// How many values the operation of a functor takes, as its number tells.
fn values_of(
    alloc: Global,
    names: &mut Names,
    text: &str,
    arity: u16,
) -> Result<usize, AllocError> {
    let name = number_of(alloc, names, text)?;
    if arity == 0 || arity > 1024 {
        return Err(AllocError);
    }
    let f = names.functor(Functor { name, arity })?;
    match names.operation(f) {
        None => Ok(0),
        Some(Operation::One(_)) => Ok(1),
        Some(Operation::Two(_)) => Ok(2),
    }
}

// A functor's number tells what it evaluates to, whatever was asked for before.
#[test]
fn operations_by_number(rt: HostRuntime) -> Result<(), Fail> {
    let alloc = rt.alloc();
    let mut names = Names::new(alloc);
    for (text, arity, values) in OPERATIONS {
        assert_eq!(rt;
            values_of(alloc, &mut names, text, arity)?,
            values,
            "{text}"
        );
    }
    Ok(())
}
