//! What the terms of values are.
ghost use Rattle.plcells.specs.Store.{value, IsValue};
ghost use Rattle.plorder.specs.Shapes.{IsOfShape};

use plcells::cell::Cell;
use plcells::heap::Heap;
use plcells::id::CellId;

/// A compound on the heap: where its block begins, the number of its functor, and how many arguments it has.
#[derive(Clone, Copy)]
pub struct Block {
    pub place: CellId,
    pub functor: u32,
    pub arity: u16,
}

/// What the term of a value is.
#[derive(Clone, Copy)]
pub enum Shape {
    /// An unbound variable, by its number.
    Variable(u64),
    /// An integer.
    Integer(i64),
    /// An atom, by the number of its name.
    Atom(u32),
    /// A compound.
    Compound(Block),
}

/// What the term of a value is.
pub fn shape_of(heap: &Heap, v: &Cell) -> Shape
    requires { IsValue heap.now v.now }
    ensures { IsOfShape heap.now (value heap.now v.now) result }
{
    let root = heap.root(*v);
    match root {
        Cell::Ref(c) => Shape::Variable(heap.number(c)),
        Cell::Atom(name) => Shape::Atom(name),
        Cell::Str(place) => {
            let (functor, arity) = heap.block(place);
            Shape::Compound(Block {
                place,
                functor,
                arity,
            })
        }
        _ => Shape::Integer(heap.integer_of(root)),
    }
}
