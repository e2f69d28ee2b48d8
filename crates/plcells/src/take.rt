//! Terms taken off a heap.

ghost use Rattle.std.specs.Prelude.{◌≡◌, ◌+◌, ◌<◌, ◌^◌, ◌++◌, length, IfOk, OnOk};
ghost use Rattle.plterm.specs.Reading.{spelling, AllFit};
ghost use Rattle.plcells.specs.Store.{IsValue, value};
ghost use Rattle.plcells.specs.Walking.{run, IsTaken};

use crate::cell::Cell;
use crate::heap::Heap;
use crate::id::CellId;
use plterm::node::Node;
use plterm::term::Term;
use std::alloc::{AllocError, Global};

/// Puts a run of cells on a stack, the first one on top.
pub fn push_run(stack: &mut Vec<CellId>, first: CellId, count: u16) -> Result<(), AllocError>
    requires { first + count < 2 ^ 32 }
    ensures { OnOk result (stack.new.items ≡ stack.old.items ++ run first count) }
{
    let mut i = u32::from(count);
    while i > 0 {
        i -= 1;
        stack.push(first.after(i))?;
    }
    Ok(())
}

/// Puts the node of a value's term behind the others, and the cells of its arguments on the stack.
fn take_value(
    heap: &Heap,
    nodes: &mut Vec<Node>,
    stack: &mut Vec<CellId>,
    v: Cell,
) -> Result<(), AllocError>
    requires { IsValue heap.now v }
    ensures { OnOk result (IsTaken heap.now nodes.old.items nodes.new.items stack.old.items stack.new.items (value heap.now v)) }
{
    match heap.root(v) {
        Cell::Ref(c) => nodes.push(Node::Var(heap.number(c)))?,
        Cell::Atom(a) => {
            let name = heap.names().atom_name(a).copied()?;
            nodes.push(Node::Atom(name))?;
        }
        Cell::Str(p) => {
            let (f, count) = heap.block(p);
            let functor = heap.names().functor_of(f);
            let name = heap.names().atom_name(functor.name).copied()?;
            nodes.push(Node::Compound(name, count))?;
            push_run(stack, p.arg(1), count)?;
        }
        number => nodes.push(Node::Int(heap.integer_of(number)))?,
    }
    Ok(())
}

impl Heap {
    /// Puts the nodes of a value's term behind others, in prefix order, its variables by their numbers. Parts that are shared on the heap are
    /// written out each time. What the stack held is gone.
    pub fn take_nodes(
        &self,
        nodes: &mut Vec<Node>,
        stack: &mut Vec<CellId>,
        v: Cell,
    ) -> Result<(), AllocError>
        requires { IsValue self.now v }
        ensures nodes { OnOk result (nodes.new.items ≡ nodes.old.items ++ spelling (value self.now v)) }
        ensures fit { OnOk result (AllFit (spelling (value self.now v))) }
    {
        stack.clear();
        take_value(self, nodes, stack, v)?;
        while let Some(c) = stack.pop() {
            take_value(self, nodes, stack, self.argument(c))?;
        }
        Ok(())
    }

    /// How many nodes the term of a value has at least: as many as it has where each of its arguments is an atom, a number or a variable.
    fn width(&self, v: &Cell) -> usize
        requires { IsValue self.now v.now }
    {
        match self.root(*v) {
            Cell::Str(p) => {
                let (_, count) = self.block(p);
                count as usize + 1
            }
            _ => 1,
        }
    }

    /// The term of a value, its variables by their numbers. Parts that are shared on the heap are written out each time.
    pub fn take(&self, alloc: Global, v: Cell) -> Result<Term, AllocError>
        requires { IsValue self.now v }
        ensures { IfOk result (λ t. t ≡ value self.now v) }
    {
        let mut nodes = Vec::with_capacity(alloc, self.width(&v))?;
        let mut stack = Vec::new(alloc);
        self.take_nodes(&mut nodes, &mut stack, v)?;
        Ok(Term::from_prefix(nodes))
    }
}
