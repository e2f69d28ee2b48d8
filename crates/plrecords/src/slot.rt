//! Slots: numbers under which the clauses of a procedure are found whose first arguments have a key. Others may share them.
ghost use Rattle.std.specs.Prelude.{◌≡◌};
ghost use Rattle.plevent.specs.declared.key.Key.TheVariants.{Any, Int, Atom, Functor};
ghost use Rattle.plevent.specs.Keys.{first_key, key_of};
ghost use Rattle.plrecords.specs.Slots.{pred_hash, slot_behind};

use plevent::Key;
use plterm::indicator::Indicator;
use plterm::name::Name;
use plterm::walk::{Shape, TermRef};
use std::hash::{FoldHasher, Hash, Hasher};

/// The slots of a procedure.
#[derive(Clone, Copy)]
pub struct Slots {
    /// What the procedure is hashed to, before any key.
    hasher: FoldHasher,
}

impl Slots {
    pub fn new(pred: &Indicator) -> Slots
        ensures { result.hasher ≡ pred_hash pred.now }
    {
        let mut hasher = FoldHasher::default();
        pred.hash(&mut hasher);
        Slots { hasher }
    }

    /// That of clauses with a variable, or nothing, as their first argument, which may be for goals of any key.
    pub fn any(self) -> u64
        ensures { result ≡ slot_behind self.hasher Any }
    {
        let mut hasher = self.hasher;
        hasher.write_u8(0);
        hasher.finish()
    }

    /// That of a goal's key.
    pub fn of_key(self, key: &Key) -> u64
        ensures { result ≡ slot_behind self.hasher key.now }
    {
        match key {
            Key::Any => self.any(),
            Key::Int(value) => self.of_int(*value),
            Key::Atom(name) => self.of_atom(name),
            Key::Functor(name, arity) => self.of_functor(name, *arity as usize),
        }
    }

    /// That of a clause with this head.
    pub fn of_head(self, head: &TermRef<'_>) -> u64
        ensures { result ≡ slot_behind self.hasher (first_key head.now) }
    {
        match head.shape() {
            Shape::Compound(_, mut args) => match args.next_term() {
                Some(first) => self.of_argument(&first),
                None => self.any(),
            },
            Shape::Var(_) | Shape::Int(_) | Shape::Atom(_) => self.any(),
        }
    }

    fn of_argument(self, first: &TermRef<'_>) -> u64
        ensures { result ≡ slot_behind self.hasher (key_of first.now) }
    {
        match first.shape() {
            Shape::Var(_) => self.any(),
            Shape::Int(value) => self.of_int(value),
            Shape::Atom(name) => self.of_atom(name),
            Shape::Compound(name, args) => self.of_functor(name, args.len()),
        }
    }

    fn of_int(self, value: i64) -> u64
        ensures { result ≡ slot_behind self.hasher (Int value) }
    {
        let mut hasher = self.hasher;
        hasher.write_u8(1);
        hasher.write_i64(value);
        hasher.finish()
    }

    fn of_atom(self, name: &Name) -> u64
        ensures { result ≡ slot_behind self.hasher (Atom name.now) }
    {
        let mut hasher = self.hasher;
        hasher.write_u8(2);
        name.hash(&mut hasher);
        hasher.finish()
    }

    fn of_functor(self, name: &Name, arity: usize) -> u64
        ensures { result ≡ slot_behind self.hasher (Functor name.now arity) }
    {
        let mut hasher = self.hasher;
        hasher.write_u8(3);
        name.hash(&mut hasher);
        hasher.write_usize(arity);
        hasher.finish()
    }
}
