//! Numbers of functors, of which the first ones are shared.

ghost use Rattle.std.specs.Prelude.{◌≡◌, ◌<◌, ◌++◌, ◌∷◌, [], length, get_or, false, IfOk, IfSome, IfNone, OnOk, OnErr};
ghost use Rattle.std.specs.List.{list_any};
ghost use Rattle.platoms.specs.Names.{no_functor, same_functor};

use crate::names::Functor;
use indexmap::IndexSet;
use std::alloc::{AllocError, Global};
use std::marker::Model;
use std::sync::Arc;

/// The functors that many tables have first, in their order. There may be none.
#[derive(Drop)]
struct Base {
    functors: Option<Arc<IndexSet<Functor>>>,
}

impl Model for Base {
    ghost use Rattle.std.specs.Prelude.{List};
    ghost use Rattle.platoms.specs.Names.{keys_of};
    ghost use Rattle.platoms.specs.declared.names.Functor.{Functor as OfFunctor};

    ghost Value = { List OfFunctor };

    ghost view = { λ b. keys_of b.functors };
}

impl Base {
    /// No functors.
    fn none() -> Base
        ensures { result ≡ [] }
    {
        Base { functors: None }
    }

    /// These functors, which are shared from now on.
    fn of(alloc: Global, functors: IndexSet<Functor>) -> Result<Base, AllocError>
        ensures { IfOk result (λ b. b ≡ functors.keys) }
    {
        let functors = Arc::new(alloc, functors)?;
        Ok(Base {
            functors: Some(functors),
        })
    }

    /// The same functors again, none of which is copied.
    fn copied(&self) -> Result<Base, AllocError>
        ensures { IfOk result (λ b. b ≡ self.now) }
    {
        match &self.functors {
            None => Ok(Base::none()),
            Some(functors) => {
                let functors = Arc::try_clone(functors)?;
                Ok(Base {
                    functors: Some(functors),
                })
            }
        }
    }

    /// The place of a functor.
    fn find(&self, functor: Functor) -> Option<usize>
        ensures some { IfSome result (λ f. (f < length self.now) × (get_or self.now f no_functor ≡ functor)) }
        ensures none { IfNone result (list_any (same_functor functor) self.now ≡ false) }
    {
        match &self.functors {
            None => None,
            Some(functors) => functors.get_index_of(&functor),
        }
    }
}

/// The number of each functor: those of a base come first, and then a table's own. There are fewer than 2^32 of them.
#[derive(Drop)]
pub struct Functors {
    base: Base,
    below: u32,
    own: IndexSet<Functor>,
}

impl Model for Functors {
    ghost use Rattle.std.specs.Prelude.{◌≡◌, ◌+◌, ◌<◌, ◌^◌, ◌++◌, List, length};
    ghost use Rattle.platoms.specs.declared.names.Functor.{Functor as OfFunctor};

    ghost Value = { List OfFunctor };

    ghost view = { λ a. a.base ++ a.own.keys };

    ghost invariant = { λ a. (a.below ≡ length a.base) × (a.below + length a.own.keys < 2 ^ 32) };
}

/// The same functors in the same order, in time linear in them.
fn copied_functors(
    alloc: Global,
    functors: &IndexSet<Functor>,
) -> Result<IndexSet<Functor>, AllocError>
    ensures { IfOk result (λ copy. copy.keys ≡ functors.now.keys) }
{
    let mut copy = IndexSet::new(alloc);
    for functor in functors.as_slice() {
        copy.insert(*functor)?;
    }
    Ok(copy)
}

impl Functors {
    /// No functors.
    pub fn new(alloc: Global) -> Functors
        ensures { result ≡ [] }
    {
        Functors {
            base: Base::none(),
            below: 0,
            own: IndexSet::new(alloc),
        }
    }

    /// The same functors, which are a base from now on, if they have none.
    pub fn frozen(self, alloc: Global) -> Result<Functors, AllocError>
        ensures { IfOk result (λ functors. functors ≡ self) }
    {
        if self.below > 0 {
            return Ok(self);
        }
        let below = self.own.len() as u32;
        let base = Base::of(alloc, self.own)?;
        Ok(Functors {
            base,
            below,
            own: IndexSet::new(alloc),
        })
    }

    /// The same functors again, in time linear in those that are no base's.
    pub fn copied(&self, alloc: Global) -> Result<Functors, AllocError>
        ensures { IfOk result (λ functors. functors ≡ self.now) }
    {
        let base = self.base.copied()?;
        let own = copied_functors(alloc, &self.own)?;
        Ok(Functors {
            base,
            below: self.below,
            own,
        })
    }

    /// The number of a functor.
    pub fn find(&self, functor: Functor) -> Option<u32>
        ensures some { IfSome result (λ f. (f < length self.now) × (get_or self.now f no_functor ≡ functor)) }
        ensures none { IfNone result (list_any (same_functor functor) self.now ≡ false) }
    {
        if let Some(place) = self.base.find(functor) {
            return Some(place as u32);
        }
        let place = self.own.get_index_of(&functor)?;
        Some(self.below + place as u32)
    }

    /// Puts a new functor behind the others: its number. If there are as many as there may be, it takes no call.
    pub fn push(&mut self, functor: Functor) -> Result<u32, AllocError>
        requires { list_any (same_functor functor) self.old ≡ false }
        ensures is { IfOk result (λ f. f ≡ length self.old) }
        ensures push { OnOk result (self.new ≡ self.old ++ functor ∷ []) }
        ensures err { OnErr result (self.new ≡ self.old) }
    {
        let count = self.own.len();
        if count >= (u32::MAX - self.below) as usize {
            return Err(AllocError);
        }
        self.own.insert(functor)?;
        Ok(self.below + count as u32)
    }
}
