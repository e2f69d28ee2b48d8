//! Terms of a clause unified with integers.
ghost use Rattle.std.specs.Prelude.{◌≡◌, ◌<◌, ◌↔◌, IsTrue, ℕ, ℤ, length, true, false, None, IfOk, IfSome, IfNone, OnErr};
ghost use Rattle.plterm.specs.Tree.{int, var};
ghost use Rattle.plsubst.specs.Subst.{bind};
ghost use Rattle.plsubst.specs.Unify.{unify};
ghost use Rattle.plcells.specs.Store.{value, IsValue};
ghost use Rattle.plenv.specs.declared.slot.Slot.TheVariants.{Free as FreeSlot};
ghost use Rattle.plenv.specs.Env.{over, slot_at, variable};
ghost use Rattle.plenv.specs.Changes.{Stays, Unifies};
ghost use Rattle.plenv.specs.Rows.{tree_at};
ghost use Rattle.plexpression.specs.Nodes.{IsNode, IsOffHeap};

use plcells::cell::Cell;
use plcells::heap::Heap;
use plcode::node::Node;
use plenv::env::Environment;
use plenv::slot::Slot;
use std::alloc::AllocError;

/// The integer that the term of a value is, if it is one.
pub(crate) fn integer_at(heap: &Heap, v: &Cell) -> Option<i64>
    requires { IsValue heap.now v.now }
    ensures some { IfSome result (λ i. value heap.now v.now ≡ int i) }
    ensures none { IfNone result ((i : ℤ) → value heap.now v.now ≡ int i → ⊥) }
{
    let root = heap.root(*v);
    match root {
        Cell::Ref(c) => {
            // That it is a variable is what the contract of its number says.
            let _number = heap.number(c);
            None
        }
        Cell::Int(_) | Cell::Wide(_) => Some(heap.integer_of(root)),
        _ => None,
    }
}

/// Whether the term of a value is this integer.
fn is_number(heap: &Heap, v: &Cell, number: i64) -> bool
    requires { IsValue heap.now v.now }
    ensures { IsTrue result ↔ (value heap.now v.now ≡ int number) }
{
    match integer_at(heap, v) {
        Some(i) => i == number,
        None => false,
    }
}

/// Unifies a value with an integer's: whether they have a unifier. Where they have none, or memory gives out, all is as it was, and so it is
/// where the value's term is no variable.
fn meet_value(env: &mut Environment, own: Cell, v: Cell) -> Result<bool, AllocError>
    requires own { IsValue env.old.heap own }
    requires value { IsValue env.old.heap v }
    requires number { (i : ℤ) × (value env.old.heap v ≡ int i) }
    ensures yes { IfOk result (λ fits. fits ≡ true → Unifies env.old env.new (value env.old.heap own) (value env.old.heap v)) }
    ensures no { IfOk result (λ fits. fits ≡ false → (unify (value env.old.heap own) (value env.old.heap v) ≡ None) × (env.new ≡ env.old)) }
    ensures err { OnErr result (env.new ≡ env.old) }
    ensures other { ((n : ℕ) → value env.old.heap own ≡ var n → ⊥) → env.new ≡ env.old }
{
    match integer_at(env.heap(), &own) {
        Some(number) => Ok(is_number(env.heap(), &v, number)),
        None => env.unify(own, v),
    }
}

/// Unifies the variable of a slot with an integer's value: whether they have a unifier. Where they have none, or memory gives out, all stands
/// for what it did. The heap changes only where a variable that stands there is bound.
fn meet_slot(env: &mut Environment, slot: u32, v: Cell) -> Result<bool, AllocError>
    requires within { slot < length env.old.slots }
    requires value { IsValue env.old.heap v }
    requires number { (i : ℤ) × (value env.old.heap v ≡ int i) }
    ensures yes { IfOk result (λ fits. fits ≡ true → Unifies env.old env.new (variable env.old slot) (value env.old.heap v)) }
    ensures no { IfOk result (λ fits. fits ≡ false → unify (variable env.old slot) (value env.old.heap v) ≡ None) }
    ensures same { IfOk result (λ fits. fits ≡ false → Stays env.old env.new) }
    ensures err { OnErr result (Stays env.old env.new) }
    ensures free { (n : ℕ) → slot_at env.old.slots slot ≡ FreeSlot n → env.new.heap ≡ env.old.heap }
    ensures other { ((n : ℕ) → variable env.old slot ≡ var n → ⊥) → env.new.heap ≡ env.old.heap }
{
    match env.slot(slot) {
        Slot::Free(_) => {
            env.set(slot, v)?;
            Ok(true)
        }
        Slot::Set(own) => meet_value(env, own, v),
    }
}

/// Unifies the term of a node, of a clause whose slots begin at a place, with an integer's value: whether they have a unifier. Where they have
/// none, or memory gives out, all stands for what it did. A variable at its first occurrence takes the value, and no term is put: the heap
/// changes only where a variable that stands there is bound.
pub fn unify_number(
    env: &mut Environment,
    nodes: &[Node],
    at: u32,
    base: u32,
    v: Cell,
) -> Result<bool, AllocError>
    requires node { IsNode env.old nodes.now base at }
    requires value { IsValue env.old.heap v }
    requires number { (i : ℤ) × (value env.old.heap v ≡ int i) }
    ensures yes { IfOk result (λ fits. fits ≡ true → Unifies env.old env.new (bind (over env.old base) (tree_at env.old.heap.names nodes.now at)) (value env.old.heap v)) }
    ensures no { IfOk result (λ fits. fits ≡ false → unify (bind (over env.old base) (tree_at env.old.heap.names nodes.now at)) (value env.old.heap v) ≡ None) }
    ensures same { IfOk result (λ fits. fits ≡ false → Stays env.old env.new) }
    ensures err { OnErr result (Stays env.old env.new) }
    ensures heap { IsOffHeap env.old base (tree_at env.old.heap.names nodes.now at) → env.new.heap ≡ env.old.heap }
{
    match nodes[at as usize] {
        Node::Var(x) => {
            let slot = env.slot_of(base, x);
            meet_slot(env, slot, v)
        }
        Node::Int(number) => Ok(is_number(env.heap(), &v, number)),
        Node::Atom(_) | Node::Sub(_, _) => Ok(false),
        Node::Fun(_, _) => unreachable!(),
    }
}
