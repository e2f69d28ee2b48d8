//! What a name with an arity is (plnames).
use crate::terms::indicator;
use plnames::table::NameTable;
use std::alloc::{AllocError, Global};
use std::test::Fail;

/// Names with their arities, and whether they are fixed.
type Row = (&'static str, u16, bool);

const FIXED: [&[Row]; 5] = [
    &[
        ("true", 0, true),
        (",", 2, true),
        ("->", 2, true),
        ("!", 0, true),
        ("once", 1, true),
        ("\\+", 1, true),
        ("catch", 3, true),
    ],
    &[
        ("throw", 1, true),
        ("call", 0, false),
        ("call", 1, true),
        ("call", 8, true),
        ("call", 9, false),
        ("=", 2, true),
        ("write", 1, true),
    ],
    &[
        ("nl", 0, true),
        ("assertz", 1, true),
        ("assertz", 2, false),
        ("asserta", 1, true),
        ("asserta", 2, false),
        ("retract", 1, true),
        ("clause", 2, true),
    ],
    &[
        ("clause", 3, false),
        ("transaction", 1, true),
        ("transaction", 3, false),
        ("transaction_updates", 1, false),
        ("thread_create", 3, true),
        ("thread_create", 4, false),
        ("mutex_trylock", 1, true),
    ],
    &[
        ("erase", 1, false),
        ("bagof", 3, false),
        ("setof", 3, false),
        ("phrase", 2, false),
        ("phrase", 3, false),
        ("p", 0, false),
    ],
];

/// The first name of which that is not so.
fn first_wrong(
    alloc: Global,
    names: &NameTable,
    rows: &[Row],
) -> Result<Option<&'static str>, AllocError> {
    for row in rows.iter() {
        let (name, arity, is) = *row;
        let procedure = indicator(alloc, name, arity)?;
        if names.is_fixed(&procedure) != is {
            return Ok(Some(name));
        }
    }
    Ok(None)
}

/// The same by a table of its own.
fn first_wrong_of_new(alloc: Global, rows: &[Row]) -> Result<Option<&'static str>, AllocError> {
    let names = NameTable::new(alloc)?;
    first_wrong(alloc, &names, rows)
}

// Control constructs and built-in predicates are fixed.
#[test]
fn fixed_procedures(rt: HostRuntime) -> Result<(), Fail> {
    for rows in FIXED {
        assert_eq!(rt; first_wrong_of_new(rt.alloc(), rows)?, None);
    }
    Ok(())
}
