//! What is called by a number: the table of names and a program's procedures, with no hash at a call.
ghost use Rattle.std.specs.Prelude.{◌≡◌, ◌==◌, ℕ, if◌then◌else◌, get_or, IfOk, OnOk};
ghost use Rattle.platoms.specs.Names.{IsTable, Extends};
ghost use Rattle.plcode.specs.declared.callee.Callee.TheVariants.{Unknown};
ghost use Rattle.plcode.specs.declared.callee.Number.{Number as OfNumber};
ghost use Rattle.plcode.specs.Callees.{callee_at, found, is_of, IsNumbered};

use platoms::names::{Functor, Names};
use plnames::kind::{BuiltIn, Control};
use plterm::name::Name;
use std::alloc::{AllocError, Global};

/// A name has at most so many bytes.
const LONGEST: usize = 65_535;

/// A compound has at most so many arguments.
const MOST: u16 = 1024;

/// What is called: a control construct, a built-in predicate, a procedure of the program's text by its place, or none of them. What
/// is unknown here may be a dynamic procedure.
#[derive(Clone, Copy, PartialEq, Eq)]
pub enum Callee {
    Control(Control),
    BuiltIn(BuiltIn),
    Static(u32),
    Unknown,
}

/// The number of a procedure: its name's where it has no arguments, and else its functor's.
#[derive(Clone, Copy)]
pub enum Number {
    Atom(u32),
    Functor(u32),
}

/// What a procedure is, by its number, if it has one.
#[derive(Clone, Copy)]
pub struct Entry {
    pub number: Option<Number>,
    pub callee: Callee,
}

/// The number of a procedure; none, where its name is too long or its arguments are too many, so that nothing calls it.
pub(crate) fn number_of(
    names: &mut Names,
    name: &Name,
    arity: u16,
) -> Result<Option<Number>, AllocError>
    requires { IsTable names.old }
    ensures number { IfOk result (λ n. IsNumbered names.new (record { name = name.now; arity = arity }) n) }
    ensures extends { Extends names.old names.new }
    ensures table { IsTable names.new }
{
    if name.len() > LONGEST || arity > MOST {
        return Ok(None);
    }
    let atom = names.atom(name)?;
    if arity == 0 {
        return Ok(Some(Number::Atom(atom)));
    }
    let functor = names.functor(Functor { name: atom, arity })?;
    Ok(Some(Number::Functor(functor)))
}

/// Puts a callee at a place, behind as many unknown ones as are wanted.
fn set_at(callees: &mut Vec<Callee>, place: u32, callee: Callee) -> Result<(), AllocError>
    ensures { OnOk result ((i : ℕ) → get_or callees.new.items i Unknown ≡ (if place == i then callee else get_or callees.old.items i Unknown)) }
{
    let place = place as usize;
    for _ in callees.len()..place + 1 {
        callees.push(Callee::Unknown)?;
    }
    callees[place] = callee;
    Ok(())
}

/// What is called by each number.
#[derive(Drop)]
pub struct Callees {
    atoms: Vec<Callee>,
    functors: Vec<Callee>,
}

impl Callees {
    /// What the first entry of each number says, in time linear in the entries and the highest number.
    pub(crate) fn of(alloc: Global, entries: Vec<Entry>) -> Result<Callees, AllocError>
        ensures { IfOk result (λ m. (n : OfNumber) → callee_at m n ≡ found Unknown entries.items n) }
    {
        let mut entries = entries;
        let mut callees = Callees {
            atoms: Vec::new(alloc),
            functors: Vec::new(alloc),
        };
        'entries: while let Some(entry) = entries.pop() {
            callees.set(entry)?;
        }
        Ok(callees)
    }

    /// Puts an entry in, in place of what was there.
    fn set(&mut self, entry: Entry) -> Result<(), AllocError>
        ensures { OnOk result ((n : OfNumber) → callee_at self.new n ≡ (if is_of entry.number n then entry.callee else callee_at self.old n)) }
    {
        match entry.number {
            Some(Number::Atom(atom)) => set_at(&mut self.atoms, atom, entry.callee),
            Some(Number::Functor(functor)) => set_at(&mut self.functors, functor, entry.callee),
            None => Ok(()),
        }
    }

    /// What is called by a number.
    #[inline(always)]
    pub fn at(&self, number: Number) -> Callee
        ensures { result ≡ callee_at self.now number }
    {
        let found = match number {
            Number::Atom(atom) => self.atoms.get(atom as usize),
            Number::Functor(functor) => self.functors.get(functor as usize),
        };
        found.copied().unwrap_or(Callee::Unknown)
    }
}
