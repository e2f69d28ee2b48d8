//! Atoms and compounds put by their names.
ghost use Rattle.std.specs.Prelude.{◌≡◌, ◌<◌, ◌≤◌, length, map, IfOk, OnErr};
ghost use Rattle.plterm.specs.Reading.{IsName};
ghost use Rattle.plterm.specs.Tree.{atom, compound, trees};
ghost use Rattle.plcells.specs.declared.cell.Cell.TheVariants.{Atom as AtomCell};
ghost use Rattle.plcells.specs.Putting.{PutsTerm};
ghost use Rattle.plcells.specs.Store.{renamed as renamed_heap, value, AreValues, Preserves};
ghost use Rattle.plenv.specs.Changes.{Puts, Stays};
ghost use Rattle.plenv.specs.Env.{renamed};

use crate::env::Environment;
use plcells::cell::Cell;
use plcells::heap::Heap;
use plterm::name::Name;
use std::alloc::AllocError;

/// The number of an atom on a heap.
fn atom_on(heap: &mut Heap, name: &Name) -> Result<u32, AllocError>
    requires { IsName name.now }
    ensures ok { IfOk result (λ a. PutsTerm heap.old heap.new (AtomCell a) (atom name.now)) }
    ensures preserves { Preserves heap.old heap.new }
    ensures err { OnErr result (heap.new ≡ renamed_heap heap.old heap.new.names) }
{
    heap.atom(name)
}

/// Puts a compound of values on a heap: its value.
fn compound_on(heap: &mut Heap, name: &Name, values: &[Cell]) -> Result<Cell, AllocError>
    requires name { IsName name.now }
    requires some { 0 < length values.now }
    requires few { length values.now ≤ 1024 }
    requires values { AreValues heap.old values.now }
    ensures ok { IfOk result (λ v. PutsTerm heap.old heap.new v (compound name.now (trees (map (value heap.old) values.now)))) }
    ensures preserves { Preserves heap.old heap.new }
    ensures err { OnErr result (heap.new ≡ renamed_heap heap.old heap.new.names) }
{
    let f = heap.functor_named(name, values.len() as u16)?;
    heap.compound(f, values)
}

impl Environment {
    /// The number of an atom, which is a new one where the names do not have it. After an `Err` there may be more names, and nothing else.
    pub fn atom(&mut self, name: &Name) -> Result<u32, AllocError>
        requires { IsName name.now }
        ensures ok { IfOk result (λ a. Puts self.old self.new (AtomCell a) (atom name.now)) }
        ensures err { OnErr result (Stays self.old self.new) }
        ensures back { OnErr result (self.new ≡ renamed self.old self.new.heap.names) }
    {
        atom_on(&mut self.heap, name)
    }

    /// Puts an atom: its value. After an `Err` there may be more names, and nothing else.
    pub fn put_atom(&mut self, name: &Name) -> Result<Cell, AllocError>
        requires { IsName name.now }
        ensures ok { IfOk result (λ v. Puts self.old self.new v (atom name.now)) }
        ensures err { OnErr result (Stays self.old self.new) }
        ensures back { OnErr result (self.new ≡ renamed self.old self.new.heap.names) }
    {
        let a = self.atom(name)?;
        Ok(Cell::Atom(a))
    }

    /// Puts a compound of values: its value. After an `Err` there may be more names, and nothing else.
    pub fn put_named(&mut self, name: &Name, values: &[Cell]) -> Result<Cell, AllocError>
        requires name { IsName name.now }
        requires some { 0 < length values.now }
        requires few { length values.now ≤ 1024 }
        requires values { AreValues self.old.heap values.now }
        ensures ok { IfOk result (λ v. Puts self.old self.new v (compound name.now (trees (map (value self.old.heap) values.now)))) }
        ensures err { OnErr result (Stays self.old self.new) }
        ensures back { OnErr result (self.new ≡ renamed self.old self.new.heap.names) }
    {
        compound_on(&mut self.heap, name, values)
    }
}
