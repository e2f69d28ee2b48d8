//! Heads against values.
ghost use Rattle.std.specs.Prelude.{◌≡◌, ◌↔◌, IsTrue, ℕ, ◌+◌, ◌++◌, ◌^◌, ◌<◌, ◌≤◌, map, length, true, false, None, IfOk, OnOk};
ghost use Rattle.plterm.specs.Tree.{var, Tree};
ghost use Rattle.plsubst.specs.Subst.{bind};
ghost use Rattle.plsubst.specs.Unify.{unify};
ghost use Rattle.plcells.specs.Store.{value, AreValues, IsHeap, IsValue};
ghost use Rattle.plcode.specs.Nodes.{IsSound};
ghost use Rattle.plcode.specs.Laying.{IsLaid};
ghost use Rattle.plcode.specs.declared.node.Node.TheVariants.{Var as VarNode};
ghost use Rattle.plcode.specs.Packed.{node_at, ArePacked, IsArgument};
ghost use Rattle.plenv.specs.declared.slot.Slot.TheVariants.{Free as FreeSlot};
ghost use Rattle.plenv.specs.Env.{over, slot_at, variable, Covers, IsEnv, IsSlot};
ghost use Rattle.plenv.specs.Changes.{Keeps, Unifies};
ghost use Rattle.plenv.specs.Rows.{row_at, tree_at, CoversAll};
ghost use Rattle.plhead.specs.Equations.{left, pairs, right, AreEquations, IsEquation};
ghost use Rattle.plhead.specs.Fitting.{Comes, NotUnifiable, UnifiesAll};
ghost use Rattle.plhead.specs.Progress.{Ends, Onward, Reduces};

use crate::compare::{Verdict, compare, verdict_of};
use crate::work::push_arguments;
use plcells::cell::Cell;
use plcells::heap::Heap;
use plcells::id::CellId;
use plcode::node::Node;
use plenv::env::Environment;
use plenv::slot::{Row, Slot};
use std::alloc::{AllocError, Global};

/// Whether a value is an unbound variable of a number above this one.
#[inline(always)]
fn is_younger(heap: &Heap, v: &Cell, number: u64) -> bool
    requires { IsValue heap.now v.now }
    ensures variable { (n : ℕ) → value heap.now v.now ≡ var n → IsTrue result ↔ (number < n) }
    ensures other { ((n : ℕ) → value heap.now v.now ≡ var n → ⊥) → result ≡ false }
{
    match heap.root(*v) {
        Cell::Ref(x) => number < heap.number(x),
        _ => false,
    }
}

/// Gives the free slot of a variable a value that is no younger variable.
#[inline(always)]
fn take(env: &mut Environment, slot: u32, number: u64, v: Cell) -> Result<(), AllocError>
    requires within { slot < length env.old.slots }
    requires free { slot_at env.old.slots slot ≡ FreeSlot number }
    requires fresh { IsSlot env.old (FreeSlot number) }
    requires heap { IsHeap env.old.heap }
    requires value { IsValue env.old.heap v }
    requires older { (n : ℕ) → value env.old.heap v ≡ var n → number < n → ⊥ }
    ensures ok { OnOk result (Unifies env.old env.new (var number) (value env.old.heap v)) }
    ensures keeps { Keeps env.old env.new }
{
    env.set(slot, v)?;
    Ok(())
}

/// Unifies the variable of a free slot with a value: the slot takes it. A value that is a younger variable stands for the slot's.
#[inline(always)]
fn meet_free(env: &mut Environment, slot: u32, number: u64, v: Cell) -> Result<bool, AllocError>
    requires within { slot < length env.old.slots }
    requires free { slot_at env.old.slots slot ≡ FreeSlot number }
    requires fresh { IsSlot env.old (FreeSlot number) }
    requires heap { IsHeap env.old.heap }
    requires value { IsValue env.old.heap v }
    ensures yes { IfOk result (λ fits. fits ≡ true → Unifies env.old env.new (var number) (value env.old.heap v)) }
    ensures no { IfOk result (λ fits. fits ≡ false → unify (var number) (value env.old.heap v) ≡ None) }
    ensures keeps { Keeps env.old env.new }
{
    if is_younger(env.heap(), &v, number) {
        let own = env.put_variable(slot)?;
        env.unify_in_choice(own, v)
    } else {
        take(env, slot, number, v)?;
        Ok(true)
    }
}

/// Unifies what a slot stands for with a value.
#[inline(always)]
fn meet_slot(env: &mut Environment, slot: u32, v: Cell) -> Result<bool, AllocError>
    requires within { slot < length env.old.slots }
    requires value { IsValue env.old.heap v }
    ensures yes { IfOk result (λ fits. fits ≡ true → Unifies env.old env.new (variable env.old slot) (value env.old.heap v)) }
    ensures no { IfOk result (λ fits. fits ≡ false → unify (variable env.old slot) (value env.old.heap v) ≡ None) }
    ensures keeps { Keeps env.old env.new }
{
    match env.slot(slot) {
        Slot::Free(number) => meet_free(env, slot, number, v),
        Slot::Set(own) => env.unify_in_choice(own, v),
    }
}

/// Puts the term of a node, and unifies it with a value.
fn put_and_unify(
    env: &mut Environment,
    nodes: &[Node],
    base: u32,
    at: u32,
    v: Cell,
) -> Result<bool, AllocError>
    requires laid { IsLaid env.old.heap.names nodes.now }
    requires packed { ArePacked nodes.now }
    requires within { at < length nodes.now }
    requires whole { IsArgument 0 at (node_at nodes.now at) }
    requires covers { Covers env.old base (tree_at env.old.heap.names nodes.now at) }
    requires value { IsValue env.old.heap v }
    ensures yes { IfOk result (λ fits. fits ≡ true → Unifies env.old env.new (bind (over env.old base) (tree_at env.old.heap.names nodes.now at)) (value env.old.heap v)) }
    ensures no { IfOk result (λ fits. fits ≡ false → unify (bind (over env.old base) (tree_at env.old.heap.names nodes.now at)) (value env.old.heap v) ≡ None) }
    ensures keeps { Keeps env.old env.new }
{
    let own = env.put_node(nodes, at, base)?;
    env.unify_in_choice(own, v)
}

/// What a node that is no variable, of a clause whose slots begin at a place, and a value come to.
#[inline(always)]
fn meet_other(
    env: &mut Environment,
    nodes: &[Node],
    base: u32,
    at: u32,
    v: Cell,
) -> Result<Verdict, AllocError>
    requires sound { IsSound env.old.heap.names nodes.now }
    requires packed { ArePacked nodes.now }
    requires few { length nodes.now < 2 ^ 32 }
    requires within { at < length nodes.now }
    requires whole { IsArgument 0 at (node_at nodes.now at) }
    requires covers { Covers env.old base (tree_at env.old.heap.names nodes.now at) }
    requires value { IsValue env.old.heap v }
    requires node { (s : ℕ) → node_at nodes.now at ≡ VarNode s → ⊥ }
    ensures comes { IfOk result (λ r. Comes env.old env.new nodes.now (tree_at env.old.heap.names nodes.now) (tree_at env.old.heap.names nodes.now at) (bind (over env.old base) (tree_at env.old.heap.names nodes.now at)) (value env.old.heap v) r) }
    ensures keeps { Keeps env.old env.new }
{
    let root = env.heap().root(v);
    if let Cell::Ref(_) = root {
        return Ok(verdict_of(put_and_unify(env, nodes, base, at, root)?));
    }
    Ok(compare(env.heap(), nodes, at, root))
}

/// What a node, of a clause whose slots begin at a place, and a value come to: a unifier was put, they have none, or their arguments are left.
#[inline(always)]
fn meet(
    env: &mut Environment,
    nodes: &[Node],
    base: u32,
    at: u32,
    v: Cell,
) -> Result<Verdict, AllocError>
    requires sound { IsSound env.old.heap.names nodes.now }
    requires packed { ArePacked nodes.now }
    requires few { length nodes.now < 2 ^ 32 }
    requires within { at < length nodes.now }
    requires whole { IsArgument 0 at (node_at nodes.now at) }
    requires covers { Covers env.old base (tree_at env.old.heap.names nodes.now at) }
    requires value { IsValue env.old.heap v }
    ensures comes { IfOk result (λ r. Comes env.old env.new nodes.now (tree_at env.old.heap.names nodes.now) (tree_at env.old.heap.names nodes.now at) (bind (over env.old base) (tree_at env.old.heap.names nodes.now at)) (value env.old.heap v) r) }
    ensures keeps { Keeps env.old env.new }
{
    if let Node::Var(x) = nodes[at as usize] {
        let slot = env.slot_of(base, x);
        return Ok(verdict_of(meet_slot(env, slot, v)?));
    }
    meet_other(env, nodes, base, at, v)
}

/// Meets the sides of an equation, and puts the equations of their arguments on the list: whether they may have a unifier.
#[inline(always)]
fn reduce(
    env: &mut Environment,
    nodes: &[Node],
    base: u32,
    equation: (u32, Cell),
    work: &mut Vec<(u32, Cell)>,
) -> Result<bool, AllocError>
    requires sound { IsSound env.old.heap.names nodes.now }
    requires packed { ArePacked nodes.now }
    requires few { length nodes.now < 2 ^ 32 }
    requires is { IsEquation env.old base nodes.now (tree_at env.old.heap.names nodes.now) equation }
    ensures yes { IfOk result (λ may. may ≡ true → Reduces env.old env.new base nodes.now (tree_at env.old.heap.names nodes.now) equation work.old.items work.new.items) }
    ensures no { IfOk result (λ may. may ≡ false → unify (left env.old base (tree_at env.old.heap.names nodes.now) equation) (right env.old equation) ≡ None) }
    ensures keeps { Keeps env.old env.new }
{
    match meet(env, nodes, base, equation.0, equation.1)? {
        Verdict::Same => Ok(true),
        Verdict::Clash => Ok(false),
        Verdict::Args(first, cells, count) => {
            push_arguments(work, env.heap(), first, cells, count)?;
            Ok(true)
        }
    }
}

/// Solves equations of nodes, of a clause whose slots begin at a place, and values: whether they have a solution.
fn solve(
    env: &mut Environment,
    nodes: &[Node],
    base: u32,
    work: &mut Vec<(u32, Cell)>,
) -> Result<bool, AllocError>
    requires laid { IsLaid env.old.heap.names nodes.now }
    requires packed { ArePacked nodes.now }
    requires few { length nodes.now < 2 ^ 32 }
    requires equations { AreEquations env.old base nodes.now (tree_at env.old.heap.names nodes.now) work.old.items }
    ensures answers { IfOk result (Ends env.old env.new base (tree_at env.old.heap.names nodes.now) work.old.items) }
    ensures keeps { Keeps env.old env.new }
{
    while let Some(equation) = work.pop() {
        if !reduce(env, nodes, base, equation, work)? {
            return Ok(false);
        }
    }
    Ok(true)
}

/// The arguments of a clause's head, and where its slots begin.
#[derive(Clone, Copy)]
pub struct Head {
    pub row: Row,
    pub base: u32,
}

/// Gives the variable that a node is at its first occurrence a value: whether it is one, and the value is no younger variable. Where it is
/// not so, all is as it was.
#[inline(always)]
fn takes(
    env: &mut Environment,
    nodes: &[Node],
    base: u32,
    at: u32,
    v: Cell,
) -> Result<bool, AllocError>
    requires sound { IsSound env.old.heap.names nodes.now }
    requires is { IsEquation env.old base nodes.now (tree_at env.old.heap.names nodes.now) (at, v) }
    ensures yes { IfOk result (λ took. took ≡ true → Unifies env.old env.new (left env.old base (tree_at env.old.heap.names nodes.now) (at, v)) (value env.old.heap v)) }
    ensures no { IfOk result (λ took. took ≡ false → env.new ≡ env.old) }
    ensures keeps { Keeps env.old env.new }
{
    let Node::Var(x) = nodes[at as usize] else {
        return Ok(false);
    };
    let slot = env.slot_of(base, x);
    let Slot::Free(number) = env.slot(slot) else {
        return Ok(false);
    };
    if is_younger(env.heap(), &v, number) {
        return Ok(false);
    }
    take(env, slot, number, v)?;
    Ok(true)
}

/// Gives the variables at their first occurrence among the arguments of a head their values, and puts the equations of the other arguments on
/// the list, the first on top.
fn meet_values(
    env: &mut Environment,
    nodes: &[Node],
    head: Head,
    values: &[Cell],
    work: &mut Vec<(u32, Cell)>,
) -> Result<(), AllocError>
    requires laid { IsLaid env.old.heap.names nodes.now }
    requires few { length nodes.now < 2 ^ 32 }
    requires row { head.row.at + length values.now ≤ length nodes.now }
    requires equations { AreEquations env.old head.base nodes.now (tree_at env.old.heap.names nodes.now) (work.old.items ++ pairs head.row.at values.now) }
    ensures ok { OnOk result (Onward env.old env.new head.base nodes.now (tree_at env.old.heap.names nodes.now) (work.old.items ++ pairs head.row.at values.now) work.new.items) }
    ensures keeps { Keeps env.old env.new }
{
    let mut i = values.len();
    while i > 0 {
        i -= 1;
        let at = head.row.at + i as u32;
        if !takes(env, nodes, head.base, at, values[i])? {
            work.push((at, values[i]))?;
        }
    }
    Ok(())
}

/// What is known of every environment.
#[inline(always)]
fn known(env: &Environment)
    ensures { IsEnv env.now }
{
    let _ = env.heap();
}

/// Room for the work of unifying heads, which keeps its memory between calls.
#[derive(Drop)]
pub struct Matcher {
    work: Vec<(u32, Cell)>,
}

impl Matcher {
    /// With nothing in it.
    pub fn new(alloc: Global) -> Matcher {
        Matcher {
            work: Vec::new(alloc),
        }
    }

    /// Unifies the arguments of a head with as many values, in a choice: whether they have a unifier. Where they have none, or memory gives
    /// out, some variables may be bound and slots set, which an undo to a mark in use takes off.
    #[inline(never)]
    pub fn fit(
        &mut self,
        env: &mut Environment,
        nodes: &[Node],
        head: Head,
        values: &[Cell],
    ) -> Result<bool, AllocError>
        requires laid { IsLaid env.old.heap.names nodes.now }
        requires packed { ArePacked nodes.now }
        requires row { head.row.at + head.row.count ≤ length nodes.now }
        requires whole { (j : _) → head.row.at ≤ j → j < head.row.at + head.row.count → IsArgument 0 j (node_at nodes.now j) }
        requires covers { CoversAll env.old head.base (row_at env.old.heap.names nodes.now head.row) }
        requires values { AreValues env.old.heap values.now }
        requires count { length values.now ≡ head.row.count }
        ensures yes { IfOk result (λ fits. fits ≡ true → UnifiesAll env.old env.new (map (value env.old.heap) values.now) (map (bind (over env.old head.base)) (row_at env.old.heap.names nodes.now head.row))) }
        ensures no { IfOk result (λ fits. fits ≡ false → NotUnifiable (map (value env.old.heap) values.now) (map (bind (over env.old head.base)) (row_at env.old.heap.names nodes.now head.row))) }
        ensures keeps { Keeps env.old env.new }
    {
        self.work.clear();
        meet_values(env, nodes, head, values, &mut self.work)?;
        known(env);
        solve(env, nodes, head.base, &mut self.work)
    }
}
