//! The table of names, by hash.
ghost use Rattle.std.specs.Prelude.{◌≡◌, ◌++◌, [], IfOk, fold, map};
ghost use Rattle.plnames.specs.Names.{kept as kept_names, kind_of, is_fixed, rows};
ghost use Rattle.plnames.specs.Entries.{entry_row, kept_row, name_row, noted_in, put, noted_row, whole_row};

use crate::kind::Kind;
use crate::rows::{KEPT, ROWS};
use indexmap::IndexMap;
use plterm::indicator::Indicator;
use std::alloc::{AllocError, Global};

/// The kinds of names with arities; of one that is kept, none.
type Kinds = IndexMap<(&'static str, u16), Option<Kind>>;

/// The rows of the table by name and arity, and the names that are kept. It is made once, and a look-up takes constant time.
#[derive(Drop)]
pub struct NameTable {
    kinds: Kinds,
    ghost whole: { map entry_row kinds.entries ≡ map whole_row rows ++ map kept_row kept_names },
}

impl NameTable {
    /// The table of all rows.
    pub fn new(alloc: Global) -> Result<NameTable, AllocError> {
        let kinds = with_rows(IndexMap::new(alloc), ROWS)?;
        let kinds = with_kept(kinds, KEPT)?;
        Ok(NameTable { kinds })
    }

    /// What stands in the table at a name with an arity.
    fn noted(&self, name: &str, arity: u16) -> Option<Option<Kind>>
        ensures { result ≡ noted_in (map whole_row rows ++ map kept_row kept_names) name.now arity }
    {
        self.kinds.get(&(name, arity)).copied()
    }

    /// What a name with an arity is: a control construct or a built-in predicate, if it is one.
    pub fn kind_of(&self, name: &str, arity: u16) -> Option<Kind>
        ensures { result ≡ kind_of name.now arity }
    {
        self.noted(name, arity)?
    }

    /// Whether the procedure is a control construct or a built-in predicate, or its name is kept for one: it is static whatever the program
    /// holds (ISO/IEC 13211-1 7.5.2).
    pub fn is_fixed(&self, indicator: &Indicator) -> bool
        ensures { result ≡ is_fixed indicator.now }
    {
        self.noted(indicator.name.as_str(), indicator.arity)
            .is_some()
    }
}

/// The kinds with those of rows, by name and arity.
fn with_rows(mut kinds: Kinds, rows: &[(&'static str, u16, Kind)]) -> Result<Kinds, AllocError>
    ensures { IfOk result (λ made. map entry_row made.entries ≡ fold put (map entry_row kinds.entry.entries) (map noted_row rows.now)) }
{
    for &(name, arity, kind) in rows {
        kinds.insert((name, arity), Some(kind))?;
    }
    Ok(kinds)
}

/// The kinds with names and arities that are kept.
fn with_kept(mut kinds: Kinds, names: &[(&'static str, u16)]) -> Result<Kinds, AllocError>
    ensures { IfOk result (λ made. map entry_row made.entries ≡ fold put (map entry_row kinds.entry.entries) (map name_row names.now)) }
{
    for &(name, arity) in names {
        kinds.insert((name, arity), None)?;
    }
    Ok(kinds)
}
