//! Expressions that stand on the heap.
ghost use Rattle.std.specs.Prelude.{◌≡◌, ◌<◌, length, IfOk};
ghost use Rattle.plcells.specs.Store.{IsValue, IsHead, at, term, value};
ghost use Rattle.plarith.specs.Evaluation.{eval};
ghost use Rattle.plarith.specs.Operands.{Opens};
ghost use Rattle.plarith.specs.Values.{IsOperand, tree};

use crate::error::{ArithError, Evaluated};
use crate::evaluate::evaluate;
use crate::operand::{Opened, Operand, Operands};
use platoms::evaluable::Operation;
use plcells::cell::Cell;
use plcells::heap::Heap;
use plcells::id::CellId;
use std::alloc::{AllocError, Global};

/// A compound on the heap.
fn open_block(heap: &Heap, p: CellId) -> Result<Opened, AllocError>
    requires within { p < length heap.now.cells }
    requires head { IsHead (at heap.now.cells p) }
    ensures { IfOk result (Opens (tree heap.now) (IsOperand heap.now) (term heap.now p)) }
{
    let (f, arity) = heap.block(p);
    match heap.names().operation(f) {
        Some(Operation::One(f)) => {
            let argument = Operand::Value(heap.argument(p.arg(1)));
            Ok(Opened::One(f, argument))
        }
        Some(Operation::Two(f)) => {
            let left = Operand::Value(heap.argument(p.arg(1)));
            let right = Operand::Value(heap.argument(p.arg(2)));
            Ok(Opened::Two(f, left, right))
        }
        None => {
            let functor = heap.names().functor_of(f);
            Opened::unknown(heap.names().atom_name(functor.name), arity)
        }
    }
}

/// What a value of the heap is seen to be.
pub fn open_value(heap: &Heap, v: Cell) -> Result<Opened, AllocError>
    requires { IsValue heap.now v }
    ensures { IfOk result (Opens (tree heap.now) (IsOperand heap.now) (value heap.now v)) }
{
    match heap.root(v) {
        Cell::Ref(c) => {
            // That it is a variable is what the contract of its number says.
            let _number = heap.number(c);
            Ok(Opened::Known(Err(ArithError::Unbound)))
        }
        Cell::Atom(a) => Opened::unknown(heap.names().atom_name(a), 0),
        Cell::Str(p) => open_block(heap, p),
        number => Ok(Opened::Known(Ok(heap.integer_of(number)))),
    }
}

impl Operands for Heap {
    ghost is_operand = { IsOperand };

    ghost tree = { tree };

    fn open(&self, operand: Operand) -> Result<Opened, AllocError> {
        match operand {
            Operand::Value(v) => open_value(self, v),
            Operand::Node(_) => unreachable!(),
        }
    }
}

/// What the term of a value comes to as an expression, or its error (ISO/IEC 13211-1 7.9, 9.1.4). It takes time linear in the nodes of the
/// term, of which parts that are shared count each time, and memory linear in its depth; it makes no cell and no term.
pub fn eval(alloc: Global, heap: &Heap, v: Cell) -> Result<Evaluated, AllocError>
    requires { IsValue heap.now v }
    ensures { IfOk result (λ found. found ≡ eval (value heap.now v)) }
{
    evaluate(alloc, heap, Operand::Value(v))
}
