//! Nodes beside values.
ghost use Rattle.std.specs.Prelude.{◌≡◌, ◌↔◌, IsTrue, ℕ, ◌<◌, ◌^◌, length};
ghost use Rattle.plterm.specs.Tree.{int, Tree};
ghost use Rattle.plcells.specs.declared.cell.Cell.TheVariants.{Atom as AtomCell, Ref as RefCell, Str as StrCell};
ghost use Rattle.plcells.specs.Store.{term, value, IsHeap, IsInteger, IsValue};
ghost use Rattle.plcode.specs.declared.node.Node.TheVariants.{Var as VarNode};
ghost use Rattle.plcode.specs.Laying.{IsLaid};
ghost use Rattle.plcode.specs.Packed.{node_at, ArePacked, IsArgument};
ghost use Rattle.plenv.specs.Rows.{tree_at};
ghost use Rattle.plhead.specs.Fitting.{said, IsCompoundAt, IsVerdict};

use plcells::cell::Cell;
use plcells::heap::Heap;
use plcells::id::CellId;
use plcode::node::Node;

/// What a node and a value come to.
#[derive(Clone, Copy)]
pub enum Verdict {
    /// They stand for one term.
    Same,
    /// They never stand for one term.
    Clash,
    /// They do as soon as their arguments do: so many nodes and cells, from these places on.
    Args(u32, CellId, u16),
}

/// A verdict that leaves nothing.
#[inline(always)]
pub(crate) fn verdict_of(same: bool) -> Verdict
    ensures { result ≡ said same }
{
    if same { Verdict::Same } else { Verdict::Clash }
}

/// Whether a value where references end, which is no variable, is an integer.
#[inline(always)]
fn is_number(heap: &Heap, number: i64, v: Cell) -> bool
    requires heap { IsHeap heap.now }
    requires value { IsValue heap.now v }
    requires solid { (j : ℕ) → v ≡ RefCell j → ⊥ }
    ensures { IsTrue result ↔ (value heap.now v ≡ int number) }
{
    match v {
        Cell::Int(_) | Cell::Wide(_) => heap.integer_of(v) == number,
        _ => false,
    }
}

/// Whether a value where references end is an atom.
#[inline(always)]
fn is_atom(atom: u32, v: Cell) -> bool
    ensures { IsTrue result ↔ (v ≡ AtomCell atom) }
{
    match v {
        Cell::Atom(other) => atom == other,
        _ => false,
    }
}

/// Two compounds have one functor, and so one argument for each of the other, or differ for good.
#[inline(always)]
fn compare_blocks(heap: &Heap, nodes: &[Node], root: u32, p: CellId) -> Verdict
    requires few { length nodes.now < 2 ^ 32 }
    requires node { (u : Tree) × IsCompoundAt heap.now.names nodes.now root u }
    requires value { IsValue heap.now (StrCell p) }
    ensures { (u : Tree) → IsCompoundAt heap.now.names nodes.now root u → IsVerdict heap.now nodes.now (tree_at heap.now.names nodes.now) u (term heap.now p) result }
{
    let (f, k) = heap.block(p);
    match nodes[root as usize] {
        Node::Fun(g, _) => if f == g {
            Verdict::Args(root + 1, p.arg(1), k)
        } else {
            Verdict::Clash
        },
        _ => unreachable!(),
    }
}

/// A node that is no variable beside a value where references end, which is none either.
#[inline(always)]
pub(crate) fn compare(heap: &Heap, nodes: &[Node], at: u32, v: Cell) -> Verdict
    requires laid { IsLaid heap.now.names nodes.now }
    requires packed { ArePacked nodes.now }
    requires few { length nodes.now < 2 ^ 32 }
    requires within { at < length nodes.now }
    requires whole { IsArgument 0 at (node_at nodes.now at) }
    requires node { (s : ℕ) → node_at nodes.now at ≡ VarNode s → ⊥ }
    requires heap { IsHeap heap.now }
    requires value { IsValue heap.now v }
    requires solid { (j : ℕ) → v ≡ RefCell j → ⊥ }
    ensures { IsVerdict heap.now nodes.now (tree_at heap.now.names nodes.now) (tree_at heap.now.names nodes.now at) (value heap.now v) result }
{
    match nodes[at as usize] {
        Node::Atom(a) => verdict_of(is_atom(a, v)),
        Node::Int(i) => verdict_of(is_number(heap, i, v)),
        Node::Sub(_, root) => match v {
            Cell::Str(p) => compare_blocks(heap, nodes, root, p),
            _ => Verdict::Clash,
        },
        Node::Var(_) | Node::Fun(_, _) => unreachable!(),
    }
}
