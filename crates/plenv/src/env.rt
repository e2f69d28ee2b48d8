//! The heap and the slots of clauses.
ghost use Rattle.std.specs.Prelude.{◌≡◌, ℕ, ◌+◌, ◌<◌, ◌≤◌, ◌^◌, [], ◌++◌, length, reverse, take, drop, None, true, false, IfOk, OnOk, OnErr};
ghost use Rattle.plterm.specs.Reading.{tree_of, IsTerm};
ghost use Rattle.plterm.specs.Variables.{AllBelow};
ghost use Rattle.plsubst.specs.Subst.{bind, put, shift};
ghost use Rattle.plsubst.specs.Unify.{unify as unifier_of};
ghost use Rattle.platoms.specs.Names.{IsTable};
ghost use Rattle.plcells.specs.Store.{value, AreValues, IsFresh, IsHeap, IsValue, Keeps as KeepsHeap};
ghost use Rattle.plcells.specs.Putting.{standing};
ghost use Rattle.plenv.specs.declared.slot.Slot.TheVariants.{Free as FreeSlot};
ghost use Rattle.plenv.specs.Env.{cut, free_from, freed, noted_if, renamed, slot_at, IsEnv, IsMark, IsSlot, IsWithin};
ghost use Rattle.plenv.specs.Changes.{bounded, older, released, AddsVariables, Commits, Enters, Keeps, Lowers, Puts, PutsTerm, PutsVariables, Stays, Substitutes, Unifies};

use crate::slot::{Mark, Noted, Slot};
use platoms::names::Names;
use plbind::unify::{self, Scratch};
use plcells::cell::{Argument, Cell};
use plcells::heap::Heap;
use plterm::node::Node;
use plterm::term::Term;
use std::alloc::{AllocError, Global};
use std::marker::Model;

/// The heap and the slots of clauses.
#[derive(Drop)]
pub struct Environment {
    pub(crate) heap: Heap,
    pub(crate) slots: Vec<Slot>,
    pub(crate) noted: Vec<Noted>,
    pub(crate) boundary: usize,
    count: u64,
    scratch: Scratch,
    pub(crate) block: Vec<Argument>,
}

impl Model for Environment {
    ghost use Rattle.plenv.specs.Env.{Env, AreSlots};

    ghost Value = { Env };

    ghost view = { λ a. record { heap = a.heap; slots = a.slots.items; noted = a.noted.items; boundary = a.boundary; count = a.count } };

    ghost invariant = { λ a. AreSlots (record { heap = a.heap; slots = a.slots.items; noted = a.noted.items; boundary = a.boundary; count = a.count }) };
}

/// What is known of every heap.
#[inline(always)]
pub(crate) fn known(heap: &Heap)
    ensures { IsHeap heap.now }
{
    let _ = heap.boundary();
}

/// Puts free slots behind the others, for variables from a number on.
#[inline(always)]
fn push_free(slots: &mut Vec<Slot>, number: u64, width: u32) -> Result<(), AllocError>
    requires { number + width < 2 ^ 64 }
    ensures ok { OnOk result (slots.new.items ≡ slots.old.items ++ free_from number width) }
    ensures kept { take (length slots.old.items) slots.new.items ≡ slots.old.items }
{
    for x in 0..width {
        let slot = Slot::Free(number + u64::from(x));
        // A free slot refers to no cell.
        prove!(!matches!(&slot, Slot::Set(Cell::Ref(_))));
        slots.push(slot)?;
    }
    Ok(())
}

/// Notes a slot that is set, where it is old.
#[inline(always)]
pub(crate) fn note(noted: &mut Vec<Noted>, old: bool, set: Noted) -> Result<(), AllocError>
    ensures ok { OnOk result (noted.new.items ≡ noted_if old noted.old.items set) }
    ensures err { OnErr result (noted.new.items ≡ noted.old.items) }
{
    if old {
        noted.push(set)?;
    }
    Ok(())
}

/// Frees slots again, down to the first `keep` notes. Those that were given back stay so.
fn free(slots: &mut Vec<Slot>, noted: &mut Vec<Noted>, keep: usize)
    requires { keep ≤ length noted.old.items }
    ensures slots { slots.new.items ≡ freed slots.old.items (drop keep noted.old.items) }
    ensures noted { noted.new.items ≡ take keep noted.old.items }
{
    while noted.len() > keep {
        let Some(set) = noted.pop() else {
            unreachable!()
        };
        if let Some(slot) = slots.get_mut(set.slot as usize) {
            *slot = Slot::Free(set.number);
        }
    }
}

/// Moves the notes of slots below a number to the front, in their order: how many there are.
#[inline(never)]
fn move_older(noted: &mut [Noted], slots: usize) -> usize
    ensures moved { take result noted.new ≡ older slots noted.old }
    ensures within { result ≤ length noted.old }
{
    let mut kept: usize = 0;
    for i in 0..noted.len() {
        let set = noted[i];
        if (set.slot as usize) < slots {
            noted[kept] = set;
            kept += 1;
        }
    }
    kept
}

/// Leaves of the notes from a place on only those of slots below a number.
#[inline(always)]
fn leave_older(noted: &mut Vec<Noted>, from: usize, slots: usize)
    requires { from ≤ length noted.old.items }
    ensures { noted.new.items ≡ take from noted.old.items ++ older slots (drop from noted.old.items) }
{
    if noted.len() == from {
        return;
    }
    let kept = move_older(&mut noted[from..], slots);
    noted.truncate(from + kept);
}

/// Puts new variables on the heap, with numbers from one on: their values, in a list that has none yet.
fn push_variables(
    heap: &mut Heap,
    values: &mut Vec<Cell>,
    number: u64,
    count: u32,
) -> Result<(), AllocError>
    requires room { number + count < 2 ^ 64 }
    requires none { values.old.items ≡ [] }
    requires fresh { (n : ℕ) → number ≤ n → IsFresh heap.old n }
    ensures ok { OnOk result (AddsVariables heap.old heap.new values.new.items number count) }
    ensures keeps { KeepsHeap heap.old heap.new }
    ensures names { heap.new.names ≡ heap.old.names }
{
    for x in 0..count {
        let c = heap.variable(number + u64::from(x))?;
        values.push(Cell::Ref(c))?;
    }
    Ok(())
}

/// New variables on the heap, with numbers from one on: their values. After an `Err` all is as it was.
fn new_variables(
    heap: &mut Heap,
    alloc: Global,
    number: u64,
    count: u32,
) -> Result<Vec<Cell>, AllocError>
    requires room { number + count < 2 ^ 64 }
    requires fresh { (n : ℕ) → number ≤ n → IsFresh heap.old n }
    ensures ok { IfOk result (λ vs. AddsVariables heap.old heap.new vs.items number count) }
    ensures err { OnErr result (heap.new ≡ heap.old) }
{
    let boundary = heap.boundary();
    let mark = heap.mark();
    let mut values = Vec::new(alloc);
    match push_variables(heap, &mut values, number, count) {
        Ok(()) => {
            heap.forget(boundary);
            Ok(values)
        }
        Err(e) => {
            heap.cut_back(mark, boundary);
            Err(e)
        }
    }
}

impl Environment {
    /// With nothing on it but these names.
    pub fn new(alloc: Global, names: Names) -> Environment
        requires { IsTable names }
        ensures { result ≡ record { heap = record { cells = []; numbers = []; wide = []; trail = []; boundary = 0; names = names }; slots = []; noted = []; boundary = 0; count = 0 } }
    {
        Environment {
            heap: Heap::new(alloc, names),
            slots: Vec::new(alloc),
            noted: Vec::new(alloc),
            boundary: 0,
            count: 0,
            scratch: Scratch::new(alloc),
            block: Vec::new(alloc),
        }
    }

    /// The heap.
    #[inline(always)]
    pub fn heap(&self) -> &Heap
        ensures is { result.now ≡ self.now.heap }
        ensures env { IsEnv self.now }
    {
        known(&self.heap);
        &self.heap
    }

    /// How many slots there are.
    #[inline(always)]
    pub fn slot_count(&self) -> usize
        ensures { result ≡ length self.now.slots }
    {
        self.slots.len()
    }

    /// How many variables there have been.
    pub fn count(&self) -> u64
        ensures { result ≡ self.now.count }
    {
        self.count
    }

    /// How much there is, as a mark in use: all that is there is old from now on.
    pub fn mark(&mut self) -> Mark
        ensures mark { IsMark result self.new }
        ensures now { cut result self.new ≡ self.new }
        ensures same { self.new ≡ bounded (length self.old.heap.cells) (length self.old.slots) self.old }
    {
        let heap = self.heap.mark();
        self.boundary = self.slots.len();
        Mark {
            heap,
            slots: self.slots.len(),
            noted: self.noted.len(),
            count: self.count,
        }
    }

    /// Slots for the variables of a clause, which are new: where the slots begin.
    #[inline(always)]
    pub fn enter(&mut self, width: u32) -> Result<u32, AllocError>
        ensures ok { IfOk result (λ base. Enters self.old self.new base width) }
        ensures err { OnErr result (self.new ≡ self.old) }
    {
        let base = self.slots.len();
        let Ok(place) = u32::try_from(base) else {
            return Err(AllocError);
        };
        let Some(count) = self.count.checked_add(u64::from(width)) else {
            return Err(AllocError);
        };
        if width > u32::MAX - place {
            return Err(AllocError);
        }
        match push_free(&mut self.slots, self.count, width) {
            Ok(()) => {
                self.count = count;
                Ok(place)
            }
            Err(e) => {
                self.slots.truncate(base);
                Err(e)
            }
        }
    }

    /// Gives back the slots from a place on, but those that are older than a mark in use.
    #[inline(always)]
    pub fn release(&mut self, base: u32)
        ensures { self.new ≡ released base self.old }
    {
        let keep = (base as usize).max(self.boundary);
        self.slots.truncate(keep);
    }

    /// Moves the slots from `base` on down to `keep`, but not below those that are older than a mark in use. Those between are gone. It gives
    /// the place where the slots begin then: `base`, where that is no higher.
    pub fn lower(&mut self, keep: u32, base: u32) -> u32
        requires { base ≤ length self.old.slots }
        ensures { Lowers keep base self.old self.new result }
    {
        let keep = (keep as usize).max(self.boundary);
        let from = base as usize;
        if keep >= from {
            return base;
        }
        let count = self.slots.len();
        self.slots.copy_within(from..count, keep);
        self.slots.truncate(keep + (count - from));
        keep as u32
    }

    /// The slot of a variable of a clause whose slots begin at a place.
    #[inline(always)]
    pub fn slot_of(&self, base: u32, variable: u32) -> u32
        requires { base + variable < length self.now.slots }
        ensures { result ≡ base + variable }
    {
        let _ = self.slots.len();
        base + variable
    }

    /// What a slot holds.
    #[inline(always)]
    pub fn slot(&self, slot: u32) -> Slot
        requires { slot < length self.now.slots }
        ensures is { result ≡ slot_at self.now.slots slot }
        ensures fits { IsSlot self.now result }
        ensures env { IsEnv self.now }
    {
        known(&self.heap);
        self.slots[slot as usize]
    }

    /// Sets a free slot: a value stands for its variable from now on.
    #[inline(always)]
    pub fn set(&mut self, slot: u32, v: Cell) -> Result<(), AllocError>
        requires within { slot < length self.old.slots }
        requires value { IsValue self.old.heap v }
        requires free { (n : ℕ) × (slot_at self.old.slots slot ≡ FreeSlot n) }
        ensures ok { (n : ℕ) → slot_at self.old.slots slot ≡ FreeSlot n → OnOk result (Substitutes self.old self.new (put n (value self.old.heap v))) }
        ensures heap { self.new.heap ≡ self.old.heap }
        ensures others { (i : ℕ) → (i ≡ slot → ⊥) → slot_at self.new.slots i ≡ slot_at self.old.slots i }
        ensures err { OnErr result (self.new ≡ self.old) }
    {
        known(&self.heap);
        let Slot::Free(number) = self.slots[slot as usize] else {
            unreachable!()
        };
        let is_old = (slot as usize) < self.boundary;
        note(&mut self.noted, is_old, Noted { slot, number })?;
        self.slots[slot as usize] = Slot::Set(v);
        Ok(())
    }

    /// Unifies two values in a choice: whether they have a unifier. Where they have none, or memory gives out, some variables may be bound,
    /// which an undo to a mark in use takes off.
    #[inline(always)]
    pub fn unify_in_choice(&mut self, a: Cell, b: Cell) -> Result<bool, AllocError>
        requires left { IsValue self.old.heap a }
        requires right { IsValue self.old.heap b }
        ensures yes { IfOk result (λ fits. fits ≡ true → Unifies self.old self.new (value self.old.heap a) (value self.old.heap b)) }
        ensures no { IfOk result (λ fits. fits ≡ false → unifier_of (value self.old.heap a) (value self.old.heap b) ≡ None) }
        ensures keeps { Keeps self.old self.new }
    {
        unify::unify_in_choice(&mut self.heap, &mut self.scratch, a, b)
    }

    /// Unifies two values: whether they have a unifier. Where they have none, or memory gives out, all is as it was.
    pub fn unify(&mut self, a: Cell, b: Cell) -> Result<bool, AllocError>
        requires left { IsValue self.old.heap a }
        requires right { IsValue self.old.heap b }
        ensures yes { IfOk result (λ fits. fits ≡ true → Unifies self.old self.new (value self.old.heap a) (value self.old.heap b)) }
        ensures no { IfOk result (λ fits. fits ≡ false → (unifier_of (value self.old.heap a) (value self.old.heap b) ≡ None) × (self.new ≡ self.old)) }
        ensures err { OnErr result (self.new ≡ self.old) }
    {
        unify::unify(&mut self.heap, &mut self.scratch, a, b)
    }

    /// The choice at a mark is given up: only so many cells and slots are old from now on.
    #[inline(always)]
    pub fn commit(&mut self, since: Mark, cells: usize, slots: usize)
        requires cells { cells ≤ self.old.heap.boundary }
        requires slots { slots ≤ self.old.boundary }
        requires mark { IsWithin since self.old }
        ensures { Commits since cells slots self.old self.new }
    {
        self.heap.commit(since.heap.trail, cells);
        leave_older(&mut self.noted, since.noted, slots);
        self.boundary = slots;
    }

    /// The environment as it was at the mark.
    pub fn undo(&mut self, mark: Mark)
        requires { IsMark mark self.old }
        ensures { self.new ≡ cut mark self.old }
    {
        self.heap.undo(mark.heap);
        free(&mut self.slots, &mut self.noted, mark.noted);
        self.slots.truncate(mark.slots);
        self.boundary = mark.slots;
        self.count = mark.count;
    }

    /// Only so many cells and slots are old from now on: no mark of more is in use.
    pub(crate) fn forget(&mut self, cells: usize, slots: usize)
        requires cells { cells ≤ self.old.heap.boundary }
        requires slots { slots ≤ self.old.boundary }
        ensures { self.new ≡ bounded cells slots self.old }
    {
        self.heap.forget(cells);
        self.boundary = slots;
    }

    /// Puts new variables, with the numbers from the count on: their values, in that order. After an `Err` all is as it was.
    pub fn new_values(&mut self, alloc: Global, count: u32) -> Result<Vec<Cell>, AllocError>
        ensures ok { IfOk result (λ vs. PutsVariables self.old self.new vs.items count) }
        ensures names { self.new.heap.names ≡ self.old.heap.names }
        ensures err { OnErr result (self.new ≡ self.old) }
    {
        let Some(next) = self.count.checked_add(u64::from(count)) else {
            return Err(AllocError);
        };
        let values = new_variables(&mut self.heap, alloc, self.count, count)?;
        self.count = next;
        Ok(values)
    }

    /// Puts a term, whose variable x is what value number x stands for: its value. After an `Err` there may be more names, and nothing else.
    pub fn put_over(
        &mut self,
        alloc: Global,
        term: &Term,
        values: &[Cell],
    ) -> Result<Cell, AllocError>
        requires below { AllBelow (length values.now) term.now }
        requires values { AreValues self.old.heap values.now }
        ensures ok { IfOk result (λ v. Puts self.old self.new v (bind (standing self.old.heap values.now) term.now)) }
        ensures err { OnErr result (Stays self.old self.new) }
        ensures back { OnErr result (self.new ≡ renamed self.old self.new.heap.names) }
    {
        self.heap.put(alloc, term, values)
    }

    /// Puts a term that is given by its nodes in prefix order from the end, whose variable x is what value number x stands for: its value. What
    /// the stack held is gone. After an `Err` there may be more names, and nothing else.
    pub fn put_nodes(
        &mut self,
        stack: &mut Vec<Argument>,
        nodes: &[Node],
        values: &[Cell],
    ) -> Result<Cell, AllocError>
        requires term { IsTerm (reverse nodes.now) }
        requires below { AllBelow (length values.now) (tree_of (reverse nodes.now)) }
        requires values { AreValues self.old.heap values.now }
        ensures ok { IfOk result (λ v. Puts self.old self.new v (bind (standing self.old.heap values.now) (tree_of (reverse nodes.now)))) }
        ensures err { OnErr result (Stays self.old self.new) }
        ensures back { OnErr result (self.new ≡ renamed self.old self.new.heap.names) }
    {
        self.heap.put_nodes(stack, nodes, values)
    }

    /// Puts a term with variables below a count, which are new. After an `Err` the variables may stay.
    fn put_new(&mut self, alloc: Global, term: &Term, count: u32) -> Result<Cell, AllocError>
        requires { AllBelow count term.now }
        ensures ok { IfOk result (λ v. PutsTerm self.old self.new v (shift self.old.count term.now) count) }
        ensures keeps { Keeps self.old self.new }
    {
        let values = self.new_values(alloc, count)?;
        self.put_over(alloc, term, &values)
    }

    /// Puts a term with variables below a count, which are new. After an `Err` there may be more names, and nothing else.
    pub fn put_term(&mut self, alloc: Global, term: &Term, count: u32) -> Result<Cell, AllocError>
        requires { AllBelow count term.now }
        ensures ok { IfOk result (λ v. PutsTerm self.old self.new v (shift self.old.count term.now) count) }
        ensures err { OnErr result (Stays self.old self.new) }
        ensures back { OnErr result (self.new ≡ renamed self.old self.new.heap.names) }
    {
        let cells = self.heap.boundary();
        let slots = self.boundary;
        let mark = self.mark();
        let put = self.put_new(alloc, term, count);
        let _ = self.heap();
        match put {
            Ok(v) => {
                self.forget(cells, slots);
                Ok(v)
            }
            Err(e) => {
                self.undo(mark);
                self.forget(cells, slots);
                Err(e)
            }
        }
    }
}
