//! Names of atoms by number, of which the first ones are shared.

ghost use Rattle.std.specs.Prelude.{◌≡◌, ◌<◌, ◌↔◌, [], length, get_or, false, IfOk, IfSome, IfNone, OnOk, OnErr, IsSome};
ghost use Rattle.std.specs.List.{list_any};
ghost use Rattle.std.specs.Str.{bytes_eq};
ghost use Rattle.indexmap.specs.IndexSet.{insert_key};

use indexmap::IndexSet;
use plterm::name::Name;
use std::alloc::{AllocError, Global};
use std::marker::Model;
use std::sync::Arc;

/// The names that many tables have first, in their order. There may be none.
#[derive(Drop)]
struct Base {
    names: Option<Arc<IndexSet<Name>>>,
}

impl Model for Base {
    ghost use Rattle.std.specs.Prelude.{ℕ, List};
    ghost use Rattle.platoms.specs.Names.{keys_of};

    ghost Value = { List (List ℕ) };

    ghost view = { λ b. keys_of b.names };
}

impl Base {
    /// No names.
    fn none() -> Base
        ensures { result ≡ [] }
    {
        Base { names: None }
    }

    /// These names, which are shared from now on.
    fn of(alloc: Global, names: IndexSet<Name>) -> Result<Base, AllocError>
        ensures { IfOk result (λ b. b ≡ names.keys) }
    {
        let names = Arc::new(alloc, names)?;
        Ok(Base { names: Some(names) })
    }

    /// The same names again, none of which is copied.
    fn copied(&self) -> Result<Base, AllocError>
        ensures { IfOk result (λ b. b ≡ self.now) }
    {
        match &self.names {
            None => Ok(Base::none()),
            Some(names) => {
                let names = Arc::try_clone(names)?;
                Ok(Base { names: Some(names) })
            }
        }
    }

    /// The name at a place.
    #[inline(always)]
    fn get(&self, place: usize) -> Option<&Name>
        ensures some { IfSome result (λ name. name.now ≡ get_or self.now place []) }
        ensures found { IsSome result ↔ (place < length self.now) }
    {
        match &self.names {
            None => None,
            Some(names) => names.get_index(place),
        }
    }

    /// The place of a name.
    fn find(&self, name: &Name) -> Option<usize>
        ensures some { IfSome result (λ place. (place < length self.now) × (get_or self.now place [] ≡ name.now)) }
        ensures none { IfNone result (list_any (bytes_eq name.now) self.now ≡ false) }
    {
        match &self.names {
            None => None,
            Some(names) => names.get_index_of(name),
        }
    }
}

/// The names of atoms, each at its number: those of a base, and then a table's own. There are fewer than 2^32 of them.
#[derive(Drop)]
pub struct Atoms {
    base: Base,
    below: u32,
    own: IndexSet<Name>,
}

impl Model for Atoms {
    ghost use Rattle.std.specs.Prelude.{◌≡◌, ◌+◌, ◌<◌, ◌^◌, ◌++◌, ℕ, List, length};

    ghost Value = { List (List ℕ) };

    ghost view = { λ a. a.base ++ a.own.keys };

    ghost invariant = { λ a. (a.below ≡ length a.base) × (a.below + length a.own.keys < 2 ^ 32) };
}

/// The same names in the same order, in time linear in them.
fn copied_names(alloc: Global, names: &IndexSet<Name>) -> Result<IndexSet<Name>, AllocError>
    ensures { IfOk result (λ copy. copy.keys ≡ names.now.keys) }
{
    let mut copy = IndexSet::new(alloc);
    for name in names.as_slice() {
        copy.insert(name.copied()?)?;
    }
    Ok(copy)
}

impl Atoms {
    /// No names.
    pub fn new(alloc: Global) -> Atoms
        ensures { result ≡ [] }
    {
        Atoms {
            base: Base::none(),
            below: 0,
            own: IndexSet::new(alloc),
        }
    }

    /// The same names, which are a base from now on, if they have none.
    pub fn frozen(self, alloc: Global) -> Result<Atoms, AllocError>
        ensures { IfOk result (λ atoms. atoms ≡ self) }
    {
        if self.below > 0 {
            return Ok(self);
        }
        let below = self.own.len() as u32;
        let base = Base::of(alloc, self.own)?;
        Ok(Atoms {
            base,
            below,
            own: IndexSet::new(alloc),
        })
    }

    /// The same names again, in time linear in those that are no base's.
    pub fn copied(&self, alloc: Global) -> Result<Atoms, AllocError>
        ensures { IfOk result (λ atoms. atoms ≡ self.now) }
    {
        let base = self.base.copied()?;
        let own = copied_names(alloc, &self.own)?;
        Ok(Atoms {
            base,
            below: self.below,
            own,
        })
    }

    /// The name with a number.
    #[inline(always)]
    pub fn get(&self, a: u32) -> Option<&Name>
        ensures some { IfSome result (λ name. name.now ≡ get_or self.now a []) }
        ensures found { IsSome result ↔ (a < length self.now) }
    {
        if a < self.below {
            self.base.get(a as usize)
        } else {
            self.own.get_index((a - self.below) as usize)
        }
    }

    /// The number of a name, which stands behind the others where it is new. If there are as many as there may be, it takes no call.
    pub fn put(&mut self, name: Name) -> Result<u32, AllocError>
        ensures is { IfOk result (λ a. (a < length self.new) × (get_or self.new a [] ≡ name)) }
        ensures put { OnOk result (self.new ≡ insert_key bytes_eq self.old name) }
        ensures err { OnErr result (self.new ≡ self.old) }
    {
        if let Some(place) = self.base.find(&name) {
            return Ok(place as u32);
        }
        if self.own.len() >= (u32::MAX - self.below) as usize {
            return Err(AllocError);
        }
        let (place, _) = self.own.insert_full(name)?;
        Ok(self.below + place as u32)
    }
}
