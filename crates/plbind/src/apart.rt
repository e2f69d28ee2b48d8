//! Values and terms that are apart at sight: nothing that is put for their variables makes them equal.

ghost use Rattle.std.specs.Prelude.{◌≡◌, ◌+◌, true, ℕ};
ghost use Rattle.plterm.specs.Tree.{atom, int, compound, trees};
ghost use Rattle.plbind.specs.Apart.{AreApart, ListsApart};
ghost use Rattle.plcells.specs.declared.cell.Cell.TheVariants.{Str as StrCell};
ghost use Rattle.plcells.specs.Store.{terms, value, IsBlock, IsEnd, IsValue};

use plcells::cell::Cell;
use plcells::heap::Heap;
use plcells::id::CellId;
use plterm::name::Name;
use plterm::walk::{Shape, TermRef, Terms};

/// Whether an atom is apart from a term.
fn is_atom_apart(name: &Name, term: &TermRef<'_>) -> bool
    ensures { result ≡ true → AreApart (atom name.now) term.now }
{
    match term.shape() {
        Shape::Var(_) => false,
        Shape::Atom(other) => !name.is_same(other),
        Shape::Int(_) | Shape::Compound(_, _) => true,
    }
}

/// Whether an integer is apart from a term.
fn is_integer_apart(number: i64, term: &TermRef<'_>) -> bool
    ensures { result ≡ true → AreApart (int number) term.now }
{
    match term.shape() {
        Shape::Var(_) => false,
        Shape::Int(other) => number != other,
        Shape::Atom(_) | Shape::Compound(_, _) => true,
    }
}

/// Whether a compound is apart from a term, as far as its arguments need not be looked at.
fn is_compound_apart(heap: &Heap, p: CellId, term: &TermRef<'_>) -> bool
    requires { IsValue heap.now (StrCell p) }
    ensures { result ≡ true → AreApart (value heap.now (StrCell p)) term.now }
{
    let (f, _) = heap.block(p);
    match term.shape() {
        Shape::Var(_) => false,
        Shape::Compound(name, _) => {
            let functor = heap.names().functor_of(f);
            !heap.names().atom_name(functor.name).is_same(name)
        }
        Shape::Atom(_) | Shape::Int(_) => true,
    }
}

/// Whether a value where references end is apart from a term, as far as its arguments need not be looked at.
fn is_root_apart(heap: &Heap, v: Cell, term: &TermRef<'_>) -> bool
    requires fits { IsValue heap.now v }
    requires end { IsEnd heap.now v }
    ensures { result ≡ true → AreApart (value heap.now v) term.now }
{
    match v {
        Cell::Atom(a) => is_atom_apart(heap.names().atom_name(a), term),
        Cell::Int(_) | Cell::Wide(_) => is_integer_apart(heap.integer_of(v), term),
        Cell::Str(p) => is_compound_apart(heap, p, term),
        _ => false,
    }
}

/// Whether an argument of a block, of which there are so many, is apart from the term in its place.
fn are_arguments_apart(heap: &Heap, p: CellId, count: u16, args: Terms<'_>) -> bool
    requires { (f : ℕ) × IsBlock heap.now p f count }
    ensures { result ≡ true → ListsApart (terms heap.now (p + 1) count) args.entry }
{
    let mut args = args;
    for i in 0..count {
        let Some(arg) = args.next_term() else {
            return false;
        };
        let root = heap.root(heap.argument(p.arg(1).after(u32::from(i))));
        if is_root_apart(heap, root, &arg) {
            return true;
        }
    }
    false
}

/// Whether arguments of a value and of a term are seen to be apart: then the two have no unifier.
pub fn are_apart(heap: &Heap, v: Cell, term: &TermRef<'_>) -> bool
    requires { IsValue heap.now v }
    ensures { result ≡ true → AreApart (value heap.now v) term.now }
{
    let Shape::Compound(_, args) = term.shape() else {
        return false;
    };
    let Cell::Str(p) = heap.root(v) else {
        return false;
    };
    let (_, count) = heap.block(p);
    are_arguments_apart(heap, p, count, args)
}

/// Whether a value and a term are seen to be apart, as far as the arguments of their arguments need not be looked at: then the two have no
/// unifier.
pub fn is_apart(heap: &Heap, v: &Cell, term: &TermRef<'_>) -> bool
    requires { IsValue heap.now v.now }
    ensures { result ≡ true → AreApart (value heap.now v.now) term.now }
{
    is_root_apart(heap, heap.root(*v), term) || are_apart(heap, *v, term)
}
