//! Unification with a list of pairs that are left.

ghost use Rattle.std.specs.Prelude.{◌≡◌, ◌↔◌, IsTrue, ℕ, ◌+◌, ◌^◌, ◌<◌, ◌≤◌, length, IfOk, OnOk, OnErr, ◌++◌, None, true, false};
ghost use Rattle.plterm.specs.Tree.{Tree};
ghost use Rattle.plsubst.specs.Unify.{unify as unify_terms};
ghost use Rattle.plbind.specs.Unifying.{kind_of, pairs, IsInside, Leaves, IsVerdict, Stands, Answers, Bindings, Unified, IsNear, HoldsNothing, KeepsAll};
ghost use Rattle.plcells.specs.declared.cell.Cell.TheVariants.{Ref as RefCell, Str as StrCell, Atom as AtomCell};
ghost use Rattle.plcells.specs.Store.{term, value, IsValue, IsEnd, IsInteger};

use plcells::cell::Cell;
use plcells::heap::Heap;
use plcells::id::CellId;
use std::alloc::{AllocError, Global};

/// What two values are, where references end.
#[derive(Clone, Copy)]
pub enum Kind {
    Variables(CellId, CellId),
    /// The variable of a cell, and what it has to stand for.
    Binding(CellId, Cell),
    Blocks(CellId, CellId),
    Integers,
    Same,
    Clash,
}

/// What two values come to.
#[derive(Clone, Copy)]
pub enum Verdict {
    Same,
    Clash,
    /// The variable of the cell stands for the value.
    Binds(CellId, Cell),
    /// The blocks' arguments, so many behind each.
    Args(CellId, CellId, u16),
}

/// A variable and another value.
#[inline(always)]
fn beside(x: CellId, v: &Cell) -> Kind
    ensures { result ≡ kind_of (RefCell x) v.now }
{
    if let Cell::Ref(y) = *v {
        Kind::Variables(x, y)
    } else {
        Kind::Binding(x, *v)
    }
}

/// An atom and what is no variable.
#[inline(always)]
fn beside_atom(f: u32, v: &Cell) -> Kind
    requires { (j : ℕ) → v.now ≡ RefCell j → ⊥ }
    ensures { result ≡ kind_of (AtomCell f) v.now }
{
    match *v {
        Cell::Atom(g) => if f == g { Kind::Same } else { Kind::Clash },
        _ => Kind::Clash,
    }
}

/// A compound and what is no variable.
#[inline(always)]
fn beside_block(p: CellId, v: &Cell) -> Kind
    requires { (j : ℕ) → v.now ≡ RefCell j → ⊥ }
    ensures { result ≡ kind_of (StrCell p) v.now }
{
    match *v {
        Cell::Str(q) => Kind::Blocks(p, q),
        _ => Kind::Clash,
    }
}

/// Whether a value is an integer.
#[inline(always)]
fn is_integer(v: &Cell) -> bool
    ensures { IsTrue result ↔ IsInteger v.now }
{
    matches!(v, Cell::Int(_) | Cell::Wide(_))
}

/// What two values are, where references end.
#[inline(always)]
fn sort(a: &Cell, b: &Cell) -> Kind
    ensures { result ≡ kind_of a.now b.now }
{
    if let Cell::Ref(x) = *a {
        return beside(x, b);
    }
    if let Cell::Ref(y) = *b {
        return Kind::Binding(y, *a);
    }
    if is_integer(a) && is_integer(b) {
        return Kind::Integers;
    }
    match *a {
        Cell::Str(p) => beside_block(p, b),
        Cell::Atom(f) => beside_atom(f, b),
        _ => Kind::Clash,
    }
}

/// Puts the pairs of two runs of cells on the list, the first one on top.
fn push_pairs(
    work: &mut Vec<(CellId, CellId)>,
    a: CellId,
    b: CellId,
    k: u16,
) -> Result<(), AllocError>
    requires left { a + k < 2 ^ 32 }
    requires right { b + k < 2 ^ 32 }
    ensures { OnOk result (work.new.items ≡ work.old.items ++ pairs a b k) }
{
    let mut i = u32::from(k);
    while i > 0 {
        i -= 1;
        work.push((a.after(i), b.after(i)))?;
    }
    Ok(())
}

/// Of two variables the younger has to stand for the older.
#[inline(always)]
fn judge_variables(heap: &Heap, x: CellId, y: CellId) -> Verdict
    requires left { IsEnd heap.now (RefCell x) }
    requires right { IsEnd heap.now (RefCell y) }
    requires fits { IsValue heap.now (RefCell x) × IsValue heap.now (RefCell y) }
    ensures { IsVerdict heap.now (term heap.now x) (term heap.now y) result }
{
    if x == y {
        return Verdict::Same;
    }
    if heap.number(x) < heap.number(y) {
        Verdict::Binds(y, Cell::Ref(x))
    } else {
        Verdict::Binds(x, Cell::Ref(y))
    }
}

/// Two compounds have one functor and one term for each argument, or differ for good.
#[inline(always)]
fn judge_blocks(heap: &Heap, p: CellId, q: CellId) -> Verdict
    requires left { IsValue heap.now (StrCell p) }
    requires right { IsValue heap.now (StrCell q) }
    ensures { IsVerdict heap.now (term heap.now p) (term heap.now q) result }
{
    if p == q {
        return Verdict::Same;
    }
    let (f, k) = heap.block(p);
    let (g, _) = heap.block(q);
    if f == g {
        Verdict::Args(p, q, k)
    } else {
        Verdict::Clash
    }
}

/// Whether two integers are the same.
fn same_integers(i: i64, j: i64) -> bool
    ensures { IsTrue result ↔ (i ≡ j) }
{
    i == j
}

/// What two values come to.
#[inline(always)]
fn compare(heap: &Heap, a: Cell, b: Cell) -> Verdict
    requires left { IsValue heap.now a }
    requires right { IsValue heap.now b }
    ensures { IsVerdict heap.now (value heap.now a) (value heap.now b) result }
{
    let v = heap.root(a);
    let w = heap.root(b);
    match sort(&v, &w) {
        Kind::Variables(x, y) => judge_variables(heap, x, y),
        Kind::Binding(x, t) => Verdict::Binds(x, t),
        Kind::Blocks(p, q) => judge_blocks(heap, p, q),
        Kind::Integers => if same_integers(heap.integer_of(v), heap.integer_of(w)) {
            Verdict::Same
        } else {
            Verdict::Clash
        },
        Kind::Same => Verdict::Same,
        Kind::Clash => Verdict::Clash,
    }
}

/// Takes pairs apart, up to a variable that has to stand for a value.
fn descend(heap: &Heap, work: &mut Vec<(CellId, CellId)>) -> Result<Verdict, AllocError>
    requires { IsInside heap.now work.old.items }
    ensures inside { OnOk result (IsInside heap.now work.new.items) }
    ensures leaves { IfOk result (λ v. Leaves heap.now work.old.items work.new.items v) }
{
    while let Some(pair) = work.pop() {
        match compare(heap, heap.argument(pair.0), heap.argument(pair.1)) {
            Verdict::Same => {}
            Verdict::Args(p, q, k) => push_pairs(work, p.arg(1), q.arg(1), k)?,
            Verdict::Clash => return Ok(Verdict::Clash),
            Verdict::Binds(x, v) => return Ok(Verdict::Binds(x, v)),
        }
    }
    Ok(Verdict::Same)
}

/// Binds the variable of a cell, unless it stands in the value's term.
#[inline(always)]
fn bind_apart(
    heap: &mut Heap,
    stack: &mut Vec<CellId>,
    x: CellId,
    v: Cell,
) -> Result<bool, AllocError>
    requires { (n : ℕ) × IsNear heap.old x v n }
    ensures ok { IfOk result (λ r. (n : ℕ) → IsNear heap.old x v n → Bindings heap.old heap.new v n r) }
    ensures err { OnErr result (heap.new ≡ heap.old) }
{
    if heap.occurs(stack, x, &v)? {
        return Ok(false);
    }
    heap.bind(x, v)?;
    Ok(true)
}

/// Room for the work of a unification, which keeps its memory between calls.
#[derive(Drop)]
pub struct Scratch {
    work: Vec<(CellId, CellId)>,
    stack: Vec<CellId>,
}

impl Scratch {
    /// With nothing in it.
    pub fn new(alloc: Global) -> Scratch
        ensures { HoldsNothing result }
    {
        Scratch {
            work: Vec::new(alloc),
            stack: Vec::new(alloc),
        }
    }
}

/// Unifies what the pairs stand for, and leaves bindings where there is no unifier.
fn solve(heap: &mut Heap, scratch: &mut Scratch) -> Result<bool, AllocError>
    requires { IsInside heap.old scratch.old.work.items }
    ensures answers { IfOk result (λ r. (s t : Tree) → Stands heap.old scratch.old.work.items s t → Answers heap.old heap.new s t r) }
    ensures keeps { KeepsAll heap.old heap.new }
{
    loop {
        match descend(heap, &mut scratch.work)? {
            Verdict::Same => return Ok(true),
            Verdict::Binds(x, v) => {
                if !bind_apart(heap, &mut scratch.stack, x, v)? {
                    return Ok(false);
                }
            }
            Verdict::Clash => return Ok(false),
            Verdict::Args(_, _, _) => unreachable!(),
        }
    }
}

/// Binds a most general unifier of two values, the younger of two variables to the older. Where the answer is no or memory
/// gives out some variables may be bound; an undo to a mark in use takes the bindings off.
#[inline(always)]
pub fn unify_in_choice(
    heap: &mut Heap,
    scratch: &mut Scratch,
    a: Cell,
    b: Cell,
) -> Result<bool, AllocError>
    requires left { IsValue heap.old a }
    requires right { IsValue heap.old b }
    ensures yes { IfOk result (λ r. r ≡ true → Unified heap.old heap.new (value heap.old a) (value heap.old b)) }
    ensures no { IfOk result (λ r. r ≡ false → unify_terms (value heap.old a) (value heap.old b) ≡ None) }
    ensures keeps { KeepsAll heap.old heap.new }
{
    match compare(heap, a, b) {
        Verdict::Same => Ok(true),
        Verdict::Clash => Ok(false),
        Verdict::Binds(x, v) => bind_apart(heap, &mut scratch.stack, x, v),
        Verdict::Args(p, q, k) => {
            scratch.work.clear();
            push_pairs(&mut scratch.work, p.arg(1), q.arg(1), k)?;
            solve(heap, scratch)
        }
    }
}

/// Binds a most general unifier of two values, the younger of two variables to the older. Where the answer is no or memory
/// gives out the heap is as it was. Every binding is noted for an undo, also where no mark in use asks for it.
pub fn unify(heap: &mut Heap, scratch: &mut Scratch, a: Cell, b: Cell) -> Result<bool, AllocError>
    requires left { IsValue heap.old a }
    requires right { IsValue heap.old b }
    ensures yes { IfOk result (λ r. r ≡ true → Unified heap.old heap.new (value heap.old a) (value heap.old b)) }
    ensures no { IfOk result (λ r. r ≡ false → (unify_terms (value heap.old a) (value heap.old b) ≡ None) × (heap.new ≡ heap.old)) }
    ensures err { OnErr result (heap.new ≡ heap.old) }
{
    let boundary = heap.boundary();
    let mark = heap.mark();
    match unify_in_choice(heap, scratch, a, b) {
        Ok(true) => {
            heap.forget(boundary);
            Ok(true)
        }
        Ok(false) => {
            heap.undo(mark);
            heap.forget(boundary);
            Ok(false)
        }
        Err(e) => {
            heap.undo(mark);
            heap.forget(boundary);
            Err(e)
        }
    }
}
