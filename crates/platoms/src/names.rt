//! The table of names.

ghost use Rattle.std.specs.Prelude.{◌≡◌, ◌<◌, [], length, false, IfOk, IfSome, OnErr};
ghost use Rattle.std.specs.List.{list_any};
ghost use Rattle.plterm.specs.Reading.{IsName};
ghost use Rattle.platoms.specs.Names.{Table, IsTable, IsFunctor, Extends, HasAtom, HasFunctor, atom_at, functor_at, operation_at, same_functor};

use crate::atoms::Atoms;
use crate::evaluable::Operation;
use crate::functors::Functors;
use plterm::name::Name;
use std::alloc::{AllocError, Global};
use std::marker::Model;

/// A name by its number, and how many arguments a compound of it has.
#[derive(Clone, Copy, Drop, PartialEq, Eq, Hash)]
pub struct Functor {
    pub name: u32,
    pub arity: u16,
}

/// How many names, and functors, that were asked for lately are found without a look-up.
const RECENT: usize = 64;

/// A functor, and what it evaluates to, if it is evaluable.
#[derive(Clone, Copy, Drop)]
struct Entry {
    functor: Functor,
    operation: Option<Operation>,
}

/// The names of atoms and the functors of compounds, by number. A table holds fewer than 2^32 of each. Those of a frozen table are shared with
/// its copies, and stand below what a copy gains.
#[derive(Drop)]
pub struct Names {
    atoms: Atoms,
    functors: Functors,
    /// All functors at their numbers, so that one is read without asking whether it is shared.
    entries: Vec<Entry>,
    /// Numbers of names and of functors that were asked for lately, by their places. Nothing but time depends on them.
    recent_atoms: [u32; RECENT],
    recent_functors: [u32; RECENT],
}

impl Model for Names {
    ghost use Rattle.platoms.specs.Names.{Table, IsTable, Lists};

    ghost Value = { Table };

    ghost view = { λ a. record { atoms = a.atoms; functors = a.functors } };

    ghost invariant = { λ a. IsTable (record { atoms = a.atoms; functors = a.functors }) × Lists (record { atoms = a.atoms; functors = a.functors }) a.entries.items };
}

/// Where the number of a name is noted when it was asked for: names of other lengths or with other ends mostly have other places.
fn place_of_name(name: &str) -> usize
    ensures { result < 64 }
{
    let bytes = name.as_bytes();
    let ends = match (bytes.first(), bytes.last()) {
        (Some(first), Some(last)) => usize::from(*first) + 2 * usize::from(*last),
        _ => 0,
    };
    (ends + 16 * (bytes.len() % 4)) % RECENT
}

/// Where the number of a functor is noted when it was asked for.
fn place_of_functor(functor: Functor) -> usize
    ensures { result < 64 }
{
    (functor.name as usize + 16 * usize::from(functor.arity % 4)) % RECENT
}

impl Names {
    /// A table with no names.
    pub fn new(alloc: Global) -> Names
        ensures empty { result ≡ record { atoms = []; functors = [] } }
        ensures table { IsTable result }
    {
        Names {
            atoms: Atoms::new(alloc),
            functors: Functors::new(alloc),
            entries: Vec::new(alloc),
            recent_atoms: [0; RECENT],
            recent_functors: [0; RECENT],
        }
    }

    /// The same table, whose names its copies share. A table is frozen once: what it gains later its copies copy.
    pub fn frozen(self, alloc: Global) -> Result<Names, AllocError>
        ensures is { IfOk result (λ names. names ≡ self) }
        ensures table { IfOk result (λ names. IsTable names) }
    {
        Ok(Names {
            atoms: self.atoms.frozen(alloc)?,
            functors: self.functors.frozen(alloc)?,
            entries: self.entries,
            recent_atoms: self.recent_atoms,
            recent_functors: self.recent_functors,
        })
    }

    /// The same table again, in time linear in its functors, and in its names that are not frozen. What one of the two gains later the other
    /// does not have.
    pub fn copied(&self, alloc: Global) -> Result<Names, AllocError>
        ensures is { IfOk result (λ names. names ≡ self.now) }
        ensures table { IfOk result (λ names. IsTable names) }
    {
        let atoms = self.atoms.copied(alloc)?;
        let functors = self.functors.copied(alloc)?;
        let entries = self.entries.to_vec(alloc)?;
        Ok(Names {
            atoms,
            functors,
            entries,
            recent_atoms: self.recent_atoms,
            recent_functors: self.recent_functors,
        })
    }

    /// The number of a name, which is a new one where the table does not have it: then a copy of the name stays there. A full table takes no
    /// call.
    pub fn atom(&mut self, name: &Name) -> Result<u32, AllocError>
        requires { IsName name.now }
        ensures is { IfOk result (λ a. HasAtom self.new a name.now) }
        ensures extends { Extends self.old self.new }
        ensures functors { self.new.functors ≡ self.old.functors }
        ensures table { IsTable self.new }
        ensures err { OnErr result (self.new ≡ self.old) }
    {
        let recent = place_of_name(name.as_str());
        if let Some(a) = self.recent_atom(recent, name) {
            return Ok(a);
        }
        let name = name.copied()?;
        self.atom_in(recent, name)
    }

    /// The number of a name, looked for in the whole table, and noted as the one that was asked for last at a place.
    fn atom_in(&mut self, recent: usize, name: Name) -> Result<u32, AllocError>
        requires name { IsName name }
        requires recent { recent < 64 }
        ensures is { IfOk result (λ a. HasAtom self.new a name) }
        ensures extends { Extends self.old self.new }
        ensures functors { self.new.functors ≡ self.old.functors }
        ensures table { IsTable self.new }
        ensures err { OnErr result (self.new ≡ self.old) }
    {
        let a = self.atoms.put(name)?;
        self.recent_atoms[recent] = a;
        Ok(a)
    }

    /// The number of a name, if it is the one that was asked for last at a place.
    fn recent_atom(&self, recent: usize, name: &Name) -> Option<u32>
        requires { recent < 64 }
        ensures is { IfSome result (λ a. HasAtom self.now a name.now) }
        ensures table { IsTable self.now }
    {
        let a = self.recent_atoms[recent];
        let held = self.atoms.get(a)?;
        if held.is_same(name) { Some(a) } else { None }
    }

    /// The number of a functor, if it is the one that was asked for last at a place.
    fn recent_functor(&self, recent: usize, functor: Functor) -> Option<u32>
        requires { recent < 64 }
        ensures { IfSome result (λ f. HasFunctor self.now f functor) }
    {
        let f = self.recent_functors[recent];
        let held = self.entries.get(f as usize)?;
        if held.functor == functor {
            Some(f)
        } else {
            None
        }
    }

    /// The number of a functor, which is a new one where the table does not have it. A full table takes no call.
    pub fn functor(&mut self, functor: Functor) -> Result<u32, AllocError>
        requires { IsFunctor self.old functor }
        ensures is { IfOk result (λ f. HasFunctor self.new f functor) }
        ensures extends { Extends self.old self.new }
        ensures atoms { self.new.atoms ≡ self.old.atoms }
        ensures table { IsTable self.new }
        ensures err { OnErr result (self.new ≡ self.old) }
    {
        let recent = place_of_functor(functor);
        if let Some(f) = self.recent_functor(recent, functor) {
            return Ok(f);
        }
        let f = match self.functors.find(functor) {
            Some(f) => f,
            None => self.new_functor(functor)?,
        };
        self.recent_functors[recent] = f;
        Ok(f)
    }

    /// The number of a functor that the table does not have.
    fn new_functor(&mut self, functor: Functor) -> Result<u32, AllocError>
        requires fits { IsFunctor self.old functor }
        requires new { list_any (same_functor functor) self.old.functors ≡ false }
        ensures is { IfOk result (λ f. HasFunctor self.new f functor) }
        ensures extends { Extends self.old self.new }
        ensures atoms { self.new.atoms ≡ self.old.atoms }
        ensures table { IsTable self.new }
        ensures err { OnErr result (self.new ≡ self.old) }
    {
        let name = self.atom_name(functor.name);
        let operation = Operation::of(name.as_str(), functor.arity);
        self.entries.push(Entry { functor, operation })?;
        match self.functors.push(functor) {
            Ok(f) => Ok(f),
            Err(_) => {
                self.entries.pop();
                Err(AllocError)
            }
        }
    }

    /// The name with a number.
    pub fn atom_name(&self, a: u32) -> &Name
        requires { a < length self.now.atoms }
        ensures is { result.now ≡ atom_at self.now a }
        ensures table { IsTable self.now }
    {
        let Some(name) = self.atoms.get(a) else {
            unreachable!()
        };
        name
    }

    /// The functor with a number.
    pub fn functor_of(&self, f: u32) -> Functor
        requires { f < length self.now.functors }
        ensures is { result ≡ functor_at self.now f }
        ensures fits { IsFunctor self.now result }
        ensures table { IsTable self.now }
    {
        self.entries[f as usize].functor
    }

    /// What the functor with a number evaluates to, if it is evaluable.
    pub fn operation(&self, f: u32) -> Option<Operation>
        requires { f < length self.now.functors }
        ensures { result ≡ operation_at self.now f }
    {
        self.entries[f as usize].operation
    }
}
