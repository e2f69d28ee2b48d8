//! A term with further arguments, as call/N makes it (ISO/IEC 13211-1 Cor.2 8.15.4).

ghost use Rattle.std.specs.Prelude.{◌≡◌, ℕ, ◌+◌, ◌<◌, ◌≤◌, ◌++◌, length, map, IfOk, OnOk, OnErr};
ghost use Rattle.plterm.specs.Tree.{compound, trees};
ghost use Rattle.platoms.specs.Names.{atom_at};
ghost use Rattle.plcells.specs.Store.{value, IsBlock, IsValue, AreValues, Preserves, renamed};
ghost use Rattle.plcells.specs.Putting.{AddsNoVariable, PutsTerm};
ghost use Rattle.plgoals.specs.Extended.{AreArguments, Extends};

use crate::callable::read_arguments;
use platoms::names::Functor;
use plcells::cell::Cell;
use plcells::heap::Heap;
use plcells::id::CellId;
use plterm::term::ARITY;
use std::alloc::{AllocError, Global};

/// What a term with further arguments is.
#[derive(Clone, Copy)]
pub enum Extended {
    /// The term of a value.
    Is(Cell),
    /// There is a variable in place of the term.
    Unbound,
    /// There is a number in place of the term.
    Number,
    /// There would be more than 1,024 arguments.
    TooLong,
}

/// The first arguments of a block, so many as it has.
fn arguments(heap: &Heap, alloc: Global, p: CellId, count: u16) -> Result<Vec<Cell>, AllocError>
    requires { (f : ℕ) × IsBlock heap.now p f count }
    ensures { IfOk result (λ values. AreArguments heap.now p count values.items) }
{
    let mut values = Vec::with_capacity(alloc, count as usize)?;
    read_arguments(heap, p, count, &mut values)?;
    Ok(values)
}

/// The compound of an atom's name and of these values with further ones behind them.
fn join(
    heap: &mut Heap,
    atom: u32,
    mut own: Vec<Cell>,
    further: &[Cell],
) -> Result<Cell, AllocError>
    requires atom { atom < length heap.old.names.atoms }
    requires own { AreValues heap.old own.items }
    requires further { AreValues heap.old further.now }
    requires some { 0 < length further.now }
    requires few { length own.items + length further.now ≤ 1024 }
    ensures ok { IfOk result (λ v. PutsTerm heap.old heap.new v (compound (atom_at heap.old.names atom) (trees (map (value heap.old) (own.items ++ further.now))))) }
    ensures preserves { Preserves heap.old heap.new }
    ensures err { OnErr result (heap.new ≡ renamed heap.old heap.new.names) }
{
    own.extend_from_slice(further)?;
    let arity = own.len() as u16;
    let f = heap.functor(Functor { name: atom, arity })?;
    heap.compound(f, &own)
}

/// The term of a value with further arguments behind its own. After an `Err` there may be more names, and nothing else.
pub fn with_arguments(
    heap: &mut Heap,
    alloc: Global,
    v: Cell,
    further: &[Cell],
) -> Result<Extended, AllocError>
    requires value { IsValue heap.old v }
    requires further { AreValues heap.old further.now }
    requires some { 0 < length further.now }
    requires few { length further.now ≤ 1024 }
    ensures is { IfOk result (λ r. Extends heap.old heap.new v further.now r) }
    ensures adds { OnOk result (AddsNoVariable heap.old heap.new) }
    ensures preserves { Preserves heap.old heap.new }
    ensures err { OnErr result (heap.new ≡ renamed heap.old heap.new.names) }
{
    match heap.root(v) {
        Cell::Ref(_) => Ok(Extended::Unbound),
        Cell::Int(_) | Cell::Wide(_) => Ok(Extended::Number),
        Cell::Atom(atom) => {
            let made = join(heap, atom, Vec::new(alloc), further)?;
            Ok(Extended::Is(made))
        }
        Cell::Str(p) => {
            let (f, count) = heap.block(p);
            if count as usize + further.len() > ARITY {
                return Ok(Extended::TooLong);
            }
            let name = heap.names().functor_of(f).name;
            let own = arguments(heap, alloc, p, count)?;
            let made = join(heap, name, own, further)?;
            Ok(Extended::Is(made))
        }
        _ => unreachable!(),
    }
}
