//! The heap.

ghost use Rattle.std.specs.Prelude.{◌≡◌, ◌↔◌, IsTrue, ℕ, Some, None, true, false, suc, ◌+◌, ◌<◌, ◌≤◌, ◌^◌, [], ◌∷◌, ◌++◌, length, IfOk, OnOk, OnErr, take, drop, map, get_or};
ghost use Rattle.plterm.specs.Tree.{var, int, compound, trees};
ghost use Rattle.plterm.specs.Reading.{IsName};
ghost use Rattle.platoms.specs.Names.{IsTable, IsFunctor, HasAtom, HasFunctor, functor_name};
ghost use Rattle.plcells.specs.declared.cell.Cell.TheVariants.{Free as FreeCell, Lone as LoneCell, Ref as RefCell, Fun as FunCell, Ground as GroundCell};
ghost use Rattle.plcells.specs.Store.{Store, at, term, shown, value, number_at, Fits, IsHeap, IsHead, IsValue, IsEnd, IsBinding, Binds, IsWithin, IsMark, IsKept, AllBelow, cut, reset, grown, bounded_by, IsFresh, Grows, Preserves, renamed, trailed_if, HasTerms, AddsVariable, AddsValue, AreValues, IsFunctorOf, IsBlock, IsInteger, IsGround, IsSolid, AreDistinct, AddsBlock};
ghost use Rattle.plcells.specs.Blocks.{cells_of, numbers_of, stands_for, AreParts, AreSolid};
ghost use Rattle.plsubst.specs.Subst.{occurs};
ghost use Rattle.plcells.specs.Skipping.{plain, AreRising, IsPlaced, IsTarget, AllPlaced, IsClosing};
ghost use Rattle.plcells.specs.Walking.{IsFloor};
ghost use Rattle.plcells.specs.Committing.{older, Commits};
ghost use Rattle.plcells.specs.Putting.{IsFunctorNamed, AreGiven};

use crate::cell::{Argument, Cell, Mark, Trailed};
use crate::id::{CellId, NumberPlace, WidePlace};
use platoms::names::{Functor, Names};
use plterm::name::Name;
use std::alloc::{AllocError, Global};
use std::marker::Model;

/// Terms as cells, with bindings that can be undone.
#[derive(Drop)]
pub struct Heap {
    cells: Vec<Cell>,
    numbers: Vec<u64>,
    wide: Vec<i64>,
    trail: Vec<Trailed>,
    closed: Vec<CellId>,
    boundary: usize,
    names: Names,
}

impl Model for Heap {
    ghost use Rattle.std.specs.Prelude.{map};
    ghost use Rattle.plcells.specs.Store.{Store};
    ghost use Rattle.plcells.specs.Skipping.{plain, IsInside};

    ghost Value = { Store };

    ghost view = { λ a. record { cells = map plain a.cells.items; numbers = a.numbers.items; wide = a.wide.items; trail = a.trail.items; boundary = a.boundary; names = a.names } };

    ghost invariant = { λ a. IsInside (record { cells = map plain a.cells.items; numbers = a.numbers.items; wide = a.wide.items; trail = a.trail.items; boundary = a.boundary; names = a.names }) a.cells.items a.closed.items };
}

/// Where a cell is an unbound variable, the place of its number.
#[inline(always)]
fn place_of(cell: Cell) -> Option<NumberPlace>
    ensures some { (p : ℕ) → result ≡ Some p → plain cell ≡ FreeCell p }
    ensures none { result ≡ None → (p : ℕ) → plain cell ≡ FreeCell p → ⊥ }
{
    match cell {
        Cell::Free(place) | Cell::Lone(place) => Some(place),
        _ => None,
    }
}

/// From now on a cell refers to what a value refers to: its variable is lone no more.
#[inline(always)]
fn embed(cells: &mut Vec<Cell>, v: &Cell)
    requires { IsPlaced (length cells.old.items) v.now }
    ensures same { map plain cells.new.items ≡ map plain cells.old.items }
    ensures was { (d p : ℕ) → at cells.new.items d ≡ LoneCell p → at cells.old.items d ≡ LoneCell p }
    ensures lone { (d p : ℕ) → at cells.new.items d ≡ LoneCell p → v.now ≡ RefCell d → ⊥ }
{
    let Cell::Ref(c) = *v else { return };
    if let Cell::Lone(place) = cells[c.place()] {
        cells[c.place()] = Cell::Free(place);
    }
}

/// Takes off the numbers above a cell, which stand last.
fn drop_above(closed: &mut Vec<CellId>, x: usize)
    requires { AreRising closed.old.items }
    ensures kept { closed.new.items ≡ take (length closed.new.items) closed.old.items }
    ensures below { (k : ℕ) → k < length closed.new.items → get_or closed.new.items k 0 ≤ x }
{
    for n in (0..closed.len()).rev() {
        if closed[n].place() <= x {
            closed.truncate(n + 1);
            return;
        }
    }
    closed.clear();
}

/// Takes off the numbers of prefixes that are closed no more where a cell comes to hold a value.
#[inline(always)]
fn reopen(closed: &mut Vec<CellId>, x: CellId, v: &Cell)
    requires { AreRising closed.old.items }
    ensures kept { closed.new.items ≡ take (length closed.new.items) closed.old.items }
    ensures below { (d : ℕ) → IsTarget v.now d → x < d → (k : ℕ) → k < length closed.new.items → get_or closed.new.items k 0 ≤ x }
{
    match *v {
        Cell::Ref(c) | Cell::Str(c) => if c > x {
            drop_above(closed, x.place());
        },
        _ => {}
    }
}

/// Notes a binding for an undo, where its cell is old.
#[inline(always)]
fn note(trail: &mut Vec<Trailed>, old: bool, bound: Trailed) -> Result<(), AllocError>
    ensures ok { OnOk result (trail.new.items ≡ trailed_if old trail.old.items bound) }
    ensures err { OnErr result (trail.new.items ≡ trail.old.items) }
{
    if old {
        trail.push(bound)?;
    }
    Ok(())
}

/// From now on cells refer to what these values refer to.
fn embed_all(cells: &mut Vec<Cell>, values: &[Cell])
    requires { AllPlaced (length cells.old.items) values.now }
    ensures same { map plain cells.new.items ≡ map plain cells.old.items }
    ensures was { (d p : ℕ) → at cells.new.items d ≡ LoneCell p → at cells.old.items d ≡ LoneCell p }
    ensures lone { (d p : ℕ) → at cells.new.items d ≡ LoneCell p → (k : ℕ) → k < length values.now → at values.now k ≡ RefCell d → ⊥ }
{
    for v in values {
        embed(cells, v);
    }
}

/// Puts a block behind the cells.
fn push_block(cells: &mut Vec<Cell>, f: u32, values: &[Cell]) -> Result<(), AllocError>
    ensures ok { OnOk result (cells.new.items ≡ cells.old.items ++ FunCell f ∷ values.now) }
    ensures err { OnErr result (cells.new.items ≡ cells.old.items) }
{
    let count = cells.len();
    cells.push(Cell::Fun(f))?;
    match cells.extend_from_slice(values) {
        Ok(()) => Ok(()),
        Err(e) => {
            cells.truncate(count);
            Err(e)
        }
    }
}

/// Puts the cells of a block's arguments behind the others, and the numbers of its new variables behind the numbers.
#[inline(always)]
fn push_arguments(
    cells: &mut Vec<Cell>,
    numbers: &mut Vec<u64>,
    arguments: &[Argument],
) -> Result<(), AllocError>
    requires { length numbers.old.items + length arguments.now < 2 ^ 32 }
    ensures cells { OnOk result (cells.new.items ≡ cells.old.items ++ cells_of (length numbers.old.items) arguments.now) }
    ensures numbers { OnOk result (numbers.new.items ≡ numbers.old.items ++ numbers_of arguments.now) }
    ensures kept { (take (length cells.old.items) cells.new.items ≡ cells.old.items) × (take (length numbers.old.items) numbers.new.items ≡ numbers.old.items) }
{
    for a in arguments {
        match a {
            Argument::Value(v) => cells.push(*v)?,
            Argument::Variable(number) => {
                let place = numbers.len();
                numbers.push(*number)?;
                cells.push(Cell::Free(NumberPlace::new(place)))?;
            }
        }
    }
    Ok(())
}

/// Puts a block behind the cells, and the numbers of its new variables behind the numbers.
#[inline(always)]
fn push_parts(
    cells: &mut Vec<Cell>,
    numbers: &mut Vec<u64>,
    head: Cell,
    arguments: &[Argument],
) -> Result<(), AllocError>
    requires { length numbers.old.items + length arguments.now < 2 ^ 32 }
    ensures cells { OnOk result (cells.new.items ≡ cells.old.items ++ head ∷ cells_of (length numbers.old.items) arguments.now) }
    ensures numbers { OnOk result (numbers.new.items ≡ numbers.old.items ++ numbers_of arguments.now) }
    ensures err { OnErr result ((cells.new.items ≡ cells.old.items) × (numbers.new.items ≡ numbers.old.items)) }
{
    let place = cells.len();
    let count = numbers.len();
    cells.push(head)?;
    match push_arguments(cells, numbers, arguments) {
        Ok(()) => Ok(()),
        Err(e) => {
            cells.truncate(place);
            numbers.truncate(count);
            Err(e)
        }
    }
}

/// The head of a block.
fn head_of(f: u32, ground: bool) -> Cell
    ensures ground { ground ≡ true → result ≡ GroundCell f }
    ensures open { ground ≡ false → result ≡ FunCell f }
{
    if ground {
        Cell::Ground(f)
    } else {
        Cell::Fun(f)
    }
}

/// From now on cells refer to what these arguments refer to.
#[inline(always)]
fn embed_arguments(cells: &mut Vec<Cell>, arguments: &[Argument])
    requires { AllPlaced (length cells.old.items) (cells_of 0 arguments.now) }
    ensures same { map plain cells.new.items ≡ map plain cells.old.items }
    ensures was { (d p : ℕ) → at cells.new.items d ≡ LoneCell p → at cells.old.items d ≡ LoneCell p }
    ensures lone { (d p : ℕ) → at cells.new.items d ≡ LoneCell p → (n k : ℕ) → at (cells_of n arguments.now) k ≡ RefCell d → ⊥ }
{
    for a in arguments {
        if let Argument::Value(v) = a {
            embed(cells, v);
        }
    }
}

/// Puts a lone variable behind the cells, and its number behind the numbers.
fn push_variable(
    cells: &mut Vec<Cell>,
    numbers: &mut Vec<u64>,
    number: u64,
) -> Result<(), AllocError>
    requires { length numbers.old.items < 2 ^ 32 }
    ensures cells { OnOk result (cells.new.items ≡ cells.old.items ++ LoneCell (length numbers.old.items) ∷ []) }
    ensures numbers { OnOk result (numbers.new.items ≡ numbers.old.items ++ number ∷ []) }
    ensures err { OnErr result ((cells.new.items ≡ cells.old.items) × (numbers.new.items ≡ numbers.old.items)) }
{
    let place = numbers.len();
    numbers.push(number)?;
    if cells.push(Cell::Lone(NumberPlace::new(place))).is_err() {
        numbers.truncate(place);
        return Err(AllocError);
    }
    Ok(())
}

/// Notes that the cells below one refer to one another alone, where the last such note is some way below.
fn close(closed: &mut Vec<CellId>, next: CellId) -> Result<(), AllocError>
    requires { AreRising closed.old.items }
    ensures { IsClosing closed.old.items closed.new.items next }
{
    let n = closed.len();
    if n > 0 && next.place() < closed[n - 1].place() + 64 {
        return Ok(());
    }
    closed.push(next)?;
    Ok(())
}

/// Takes bindings off, down to the first `keep`.
fn take_off(cells: &mut Vec<Cell>, trail: &mut Vec<Trailed>, keep: usize)
    requires room { keep ≤ length trail.old.items }
    requires below { AllBelow (length cells.old.items) trail.old.items }
    ensures cells { cells.new.items ≡ reset cells.old.items (drop keep trail.old.items) }
    ensures trail { trail.new.items ≡ take keep trail.old.items }
{
    while trail.len() > keep {
        let Some(bound) = trail.pop() else {
            unreachable!()
        };
        cells[bound.cell.place()] = Cell::Free(bound.place);
    }
}

/// Moves the bindings of cells below a number to the front, in their order: how many there are.
#[inline(never)]
fn move_older(trail: &mut [Trailed], cells: usize) -> usize
    ensures moved { take result trail.new ≡ older cells trail.old }
    ensures within { result ≤ length trail.old }
{
    let mut kept: usize = 0;
    for i in 0..trail.len() {
        let bound = trail[i];
        if bound.cell.place() < cells {
            trail[kept] = bound;
            kept += 1;
        }
    }
    kept
}

/// Leaves of the bindings from a place on only those of cells below a number.
#[inline(always)]
fn leave_older(trail: &mut Vec<Trailed>, from: usize, cells: usize)
    requires { from ≤ length trail.old.items }
    ensures { trail.new.items ≡ take from trail.old.items ++ older cells (drop from trail.old.items) }
{
    if trail.len() == from {
        return;
    }
    let kept = move_older(&mut trail[from..], cells);
    trail.truncate(from + kept);
}

impl Heap {
    /// An empty heap, with these names.
    pub fn new(alloc: Global, names: Names) -> Heap
        requires { IsTable names }
        ensures { result ≡ record { cells = []; numbers = []; wide = []; trail = []; boundary = 0; names = names } }
    {
        Heap {
            cells: Vec::new(alloc),
            numbers: Vec::new(alloc),
            wide: Vec::new(alloc),
            trail: Vec::new(alloc),
            closed: Vec::new(alloc),
            boundary: 0,
            names,
        }
    }

    /// How many cells there are.
    #[inline(always)]
    pub fn len(&self) -> usize
        ensures { result ≡ length self.now.cells }
    {
        self.cells.len()
    }

    /// The cell that comes next.
    #[inline(always)]
    pub fn next(&self) -> CellId
        ensures is { result ≡ length self.now.cells }
        ensures heap { IsHeap self.now }
    {
        CellId::at(self.cells.len())
    }

    /// How many cells are old: a mark in use is not above.
    #[inline(always)]
    pub fn boundary(&self) -> usize
        ensures is { result ≡ self.now.boundary }
        ensures within { result ≤ length self.now.cells }
        ensures heap { IsHeap self.now }
    {
        self.boundary
    }

    /// The names.
    #[inline(always)]
    pub fn names(&self) -> &Names
        ensures { result.now ≡ self.now.names }
    {
        &self.names
    }

    /// The number of a name, which is a new one where the names do not have it. A full table takes no call.
    pub fn atom(&mut self, name: &Name) -> Result<u32, AllocError>
        requires { IsName name.now }
        ensures is { IfOk result (λ a. HasAtom self.new.names a name.now) }
        ensures same { self.new ≡ renamed self.old self.new.names }
        ensures preserves { Preserves self.old self.new }
        ensures err { OnErr result (self.new ≡ self.old) }
    {
        self.names.atom(name)
    }

    /// The number of a functor, which is a new one where the names do not have it. A full table takes no call.
    pub fn functor(&mut self, functor: Functor) -> Result<u32, AllocError>
        requires { IsFunctor self.old.names functor }
        ensures is { IfOk result (λ f. HasFunctor self.new.names f functor) }
        ensures same { self.new ≡ renamed self.old self.new.names }
        ensures preserves { Preserves self.old self.new }
        ensures err { OnErr result (self.new ≡ self.old) }
    {
        self.names.functor(functor)
    }

    /// The number of the functor of a name and so many arguments, which is a new one where the names do not have it. After an `Err` there may be more names, and nothing else.
    pub fn functor_named(&mut self, name: &Name, arity: u16) -> Result<u32, AllocError>
        requires name { IsName name.now }
        requires some { 0 < arity }
        requires most { arity ≤ 1024 }
        ensures is { IfOk result (λ f. IsFunctorNamed self.new.names f name.now arity) }
        ensures same { self.new ≡ renamed self.old self.new.names }
        ensures preserves { Preserves self.old self.new }
    {
        let name = self.atom(name)?;
        self.functor(Functor { name, arity })
    }

    /// A cell as a value: a variable's is the reference to it.
    #[inline(always)]
    pub fn argument(&self, c: CellId) -> Cell
        requires within { c < length self.now.cells }
        requires plain { IsHead (at self.now.cells c) → ⊥ }
        ensures fits { IsValue self.now result }
        ensures same { value self.now result ≡ term self.now c }
        ensures heap { IsHeap self.now }
    {
        match self.cells[c.place()] {
            Cell::Free(_) | Cell::Lone(_) => Cell::Ref(c),
            cell => cell,
        }
    }

    /// The value where the references of a value end.
    #[inline(always)]
    pub fn root(&self, v: Cell) -> Cell
        requires { IsValue self.now v }
        ensures fits { IsValue self.now result }
        ensures same { value self.now result ≡ value self.now v }
        ensures end { IsEnd self.now result }
        ensures heap { IsHeap self.now }
    {
        let mut w = v;
        loop {
            let Cell::Ref(c) = w else { return w };
            match self.cells[c.place()] {
                Cell::Free(_) | Cell::Lone(_) => return w,
                cell => w = cell,
            }
        }
    }

    /// The number of an unbound variable.
    #[inline(always)]
    pub fn number(&self, c: CellId) -> u64
        requires { IsEnd self.now (RefCell c) }
        ensures is { term self.now c ≡ var result }
        ensures heap { IsHeap self.now }
    {
        match place_of(self.cells[c.place()]) {
            Some(place) => self.numbers[place.get()],
            None => unreachable!(),
        }
    }

    /// Binds the variable of a cell to a value.
    #[inline(always)]
    pub fn bind(&mut self, x: CellId, v: Cell) -> Result<(), AllocError>
        requires { (p : ℕ) × IsBinding self.old x p v }
        ensures ok { (p : ℕ) → IsBinding self.old x p v → OnOk result (Binds self.old self.new (number_at self.old p) (value self.old v)) }
        ensures err { OnErr result (self.new ≡ self.old) }
    {
        let at = x.place();
        let Some(place) = place_of(self.cells[at]) else {
            unreachable!()
        };
        let is_old = at < self.boundary;
        note(&mut self.trail, is_old, Trailed { cell: x, place })?;
        embed(&mut self.cells, &v);
        reopen(&mut self.closed, x, &v);
        self.cells[at] = v;
        Ok(())
    }

    /// How much of the heap there is, as a mark in use: all that is there is old from now on.
    pub fn mark(&mut self) -> Mark
        ensures mark { IsMark result self.new }
        ensures now { cut result self.new ≡ self.new }
        ensures same { self.new ≡ bounded_by self.old (length self.old.cells) }
    {
        self.boundary = self.cells.len();
        Mark {
            cells: self.cells.len(),
            trail: self.trail.len(),
            numbers: self.numbers.len(),
            wide: self.wide.len(),
        }
    }

    /// Only so many cells are old from now on: no mark of more is in use.
    pub fn forget(&mut self, cells: usize)
        requires { cells ≤ self.old.boundary }
        ensures { self.new ≡ bounded_by self.old cells }
    {
        self.boundary = cells;
    }

    /// A choice is given up: only so many cells are old from now on, and of the bindings noted from a place on only those of such cells stay noted. Marks up to there stay in use.
    #[inline(always)]
    pub fn commit(&mut self, trail: usize, cells: usize)
        requires old { cells ≤ self.old.boundary }
        requires noted { trail ≤ length self.old.trail }
        ensures { Commits self.old self.new trail cells }
    {
        leave_older(&mut self.trail, trail, cells);
        self.boundary = cells;
    }

    /// The heap as it was at a mark that is kept, where so many cells are old.
    pub fn cut_back(&mut self, mark: Mark, boundary: usize)
        requires kept { IsKept mark self.old }
        requires old { boundary ≤ mark.cells }
        ensures cut { self.new ≡ bounded_by (cut mark self.old) boundary }
        ensures heap { IsHeap self.new }
    {
        take_off(&mut self.cells, &mut self.trail, mark.trail);
        self.cells.truncate(mark.cells);
        self.numbers.truncate(mark.numbers);
        self.wide.truncate(mark.wide);
        drop_above(&mut self.closed, mark.cells);
        self.boundary = boundary;
    }

    /// The heap as it was at the mark.
    pub fn undo(&mut self, mark: Mark)
        requires { IsMark mark self.old }
        ensures { self.new ≡ cut mark self.old }
    {
        self.cut_back(mark, mark.cells);
    }

    /// Whether no cell refers to an unbound variable, as is known of some.
    #[inline(always)]
    pub(crate) fn is_lone(&self, x: CellId) -> bool
        requires { IsEnd self.now (RefCell x) }
        ensures { result ≡ true → (n c : ℕ) → term self.now x ≡ var n → c < length self.now.cells → (c ≡ x → ⊥) → occurs n (term self.now c) ≡ false }
    {
        matches!(self.cells[x.place()], Cell::Lone(_))
    }

    /// A number so that an unbound variable stands in none of the terms of the cells below.
    pub(crate) fn floor(&self, x: CellId) -> CellId
        requires { IsEnd self.now (RefCell x) }
        ensures { IsFloor self.now x result }
    {
        let count = self.closed.len();
        if count > 0 {
            let last = self.closed[count - 1];
            if last <= x {
                return last;
            }
        }
        let mut floor = CellId::at(0);
        let mut low = 0;
        let mut high = count;
        while low < high {
            let middle = low + (high - low) / 2;
            let b = self.closed[middle];
            if b <= x {
                floor = b;
                low = middle + 1;
            } else {
                high = middle;
            }
        }
        floor
    }

    /// Whether no variable can stand in a value's cell.
    fn is_solid(&self, v: Cell) -> bool
        requires { IsValue self.now v }
        ensures { IsTrue result ↔ IsSolid self.now.cells v }
    {
        match v {
            Cell::Int(_) | Cell::Wide(_) | Cell::Atom(_) => true,
            Cell::Str(p) => matches!(self.cells[p.place()], Cell::Ground(_)),
            _ => false,
        }
    }

    /// Whether no variable can stand in the cells of these values.
    pub(crate) fn are_solid(&self, arguments: &[Argument]) -> bool
        requires { AreGiven self.now arguments.now }
        ensures { IsTrue result ↔ AreSolid self.now arguments.now }
    {
        for a in arguments {
            if let Argument::Value(v) = a {
                if !self.is_solid(*v) {
                    return false;
                }
            }
        }
        true
    }

    /// How many arguments a block has in which variables can stand.
    pub(crate) fn open_arity(&self, p: CellId) -> Option<u16>
        requires within { p < length self.now.cells }
        requires head { IsHead (at self.now.cells p) }
        ensures some { (k : ℕ) → result ≡ Some k → HasTerms self.now p k }
        ensures none { result ≡ None → (n : ℕ) → occurs n (term self.now p) ≡ false }
    {
        match self.cells[p.place()] {
            Cell::Fun(f) => Some(self.names.functor_of(f).arity),
            _ => None,
        }
    }

    /// A new variable, lone as yet, with a number that no variable of the heap has.
    pub fn variable(&mut self, number: u64) -> Result<CellId, AllocError>
        requires { IsFresh self.old number }
        ensures ok { IfOk result (λ c. AddsVariable self.old self.new c number) }
        ensures err { OnErr result (self.new ≡ self.old) }
    {
        let place = self.cells.len();
        if place >= u32::MAX as usize || self.numbers.len() >= u32::MAX as usize {
            return Err(AllocError);
        }
        push_variable(&mut self.cells, &mut self.numbers, number)?;
        Ok(CellId::at(place))
    }

    /// Notes for the occurs check that the cells so far refer to one another alone, where the last such note is some way below. The terms stay as they are.
    pub fn note_closed(&mut self) -> Result<(), AllocError>
        ensures { self.new ≡ self.old }
    {
        let next = self.next();
        close(&mut self.closed, next)
    }

    /// A new compound of these arguments.
    pub fn compound(&mut self, f: u32, values: &[Cell]) -> Result<Cell, AllocError>
        requires functor { IsFunctorOf self.old.names f (length values.now) }
        requires values { AreValues self.old values.now }
        ensures ok { IfOk result (λ v. AddsValue self.old self.new v (compound (functor_name self.old.names f) (trees (map (value self.old) values.now)))) }
        ensures length { OnOk result (length self.new.cells ≡ suc (length self.old.cells + length values.now)) }
        ensures err { OnErr result (self.new ≡ self.old) }
    {
        let place = self.cells.len();
        let room = u32::MAX as usize - values.len();
        if place >= room {
            return Err(AllocError);
        }
        push_block(&mut self.cells, f, values)?;
        embed_all(&mut self.cells, values);
        Ok(Cell::Str(CellId::at(place)))
    }

    /// A new block of these arguments: its first cell. In a ground one no variable can stand, now and later.
    #[inline(always)]
    pub fn build(
        &mut self,
        f: u32,
        ground: bool,
        arguments: &[Argument],
    ) -> Result<CellId, AllocError>
        requires functor { IsFunctorOf self.old.names f (length arguments.now) }
        requires parts { AreParts self.old arguments.now }
        requires numbers { AreDistinct (numbers_of arguments.now) }
        requires solid { ground ≡ true → AreSolid self.old arguments.now }
        ensures ok { IfOk result (λ p. AddsBlock self.old self.new p (functor_name self.old.names f) (map (stands_for self.old) arguments.now) (numbers_of arguments.now)) }
        ensures ground { IfOk result (λ p. ground ≡ true → IsGround (at self.new.cells p)) }
        ensures err { OnErr result (self.new ≡ self.old) }
    {
        let place = self.cells.len();
        let room = u32::MAX as usize - arguments.len();
        if place >= room || self.numbers.len() >= room {
            return Err(AllocError);
        }
        let head = head_of(f, ground);
        push_parts(&mut self.cells, &mut self.numbers, head, arguments)?;
        embed_arguments(&mut self.cells, arguments);
        Ok(CellId::at(place))
    }

    /// An integer as a value.
    pub fn integer(&mut self, number: i64) -> Result<Cell, AllocError>
        ensures ok { IfOk result (λ v. AddsValue self.old self.new v (int number)) }
        ensures cells { self.new.cells ≡ self.old.cells }
        ensures err { OnErr result (self.new ≡ self.old) }
    {
        if number >= i64::from(i32::MIN) && number <= i64::from(i32::MAX) {
            return Ok(Cell::Int(number as i32));
        }
        let place = self.wide.len();
        if place >= u32::MAX as usize {
            return Err(AllocError);
        }
        self.wide.push(number)?;
        Ok(Cell::Wide(WidePlace::new(place)))
    }

    /// The functor of a block by its number, and how many arguments it has.
    #[inline(always)]
    pub fn block(&self, p: CellId) -> (u32, u16)
        requires within { p < length self.now.cells }
        requires head { IsHead (at self.now.cells p) }
        ensures block { IsBlock self.now p result.0 result.1 }
        ensures heap { IsHeap self.now }
    {
        match self.cells[p.place()] {
            Cell::Fun(f) => (f, self.names.functor_of(f).arity),
            Cell::Ground(f) => (f, self.names.functor_of(f).arity),
            _ => unreachable!(),
        }
    }

    /// The integer that a value is.
    pub fn integer_of(&self, v: Cell) -> i64
        requires fits { IsValue self.now v }
        requires integer { IsInteger v }
        ensures { value self.now v ≡ int result }
    {
        match v {
            Cell::Int(number) => i64::from(number),
            Cell::Wide(p) => self.wide[p.get()],
            _ => unreachable!(),
        }
    }
}
