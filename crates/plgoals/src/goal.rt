//! Terms of the heap, converted to goals.

ghost use Rattle.std.specs.Prelude.{◌≡◌, ℕ, ◌<◌, ◌∷◌, ◌++◌, [], List, length, codes, true, false, IfOk, IfSome, IfNone, Some, None, OnOk, OnErr};
ghost use Rattle.plclause.specs.Conversion.{converted};
ghost use Rattle.plcells.specs.Store.{at, term, value, IsHead, IsValue, Preserves, renamed};
ghost use Rattle.plcells.specs.Putting.{AddsNoVariable};
ghost use Rattle.plterm.specs.Tree.{Trees, compound};
ghost use Rattle.plterm.specs.declared.node.Node.TheVariants.{Var, Compound};
ghost use Rattle.plgoals.specs.Goals.{IsGoal, IsConstruct, Opens, IsKind, Spells};

use plcells::cell::Cell;
use plcells::heap::Heap;
use plcells::id::CellId;
use plclause::convert::holds_goals;
use plterm::name::Name;
use plterm::node::Node;
use plterm::term::Term;
use std::alloc::{AllocError, Global};

/// What a term is as a goal.
#[derive(Clone, Copy)]
pub enum Kind {
    /// A number, which is none.
    Number,
    /// A variable, which is called: the value where its references end.
    Variable(Cell),
    /// A control construct: its block, which holds two goals.
    Construct(CellId),
    /// Any other term, which is a goal as it stands: the value where its references end.
    Goal(Cell),
}

/// Whether a block is a control construct.
fn is_construct(heap: &Heap, p: CellId) -> bool
    requires within { p < length heap.now.cells }
    requires head { IsHead (at heap.now.cells p) }
    ensures yes { result ≡ true → IsConstruct heap.now p }
    ensures no { result ≡ false → converted (term heap.now p) ≡ Some (term heap.now p) }
{
    let (f, count) = heap.block(p);
    let functor = heap.names().functor_of(f);
    let name = heap.names().atom_name(functor.name);
    holds_goals(name, count as usize)
}

/// What the term of a value is as a goal.
fn kind_of(heap: &Heap, v: &Cell) -> Kind
    requires { IsValue heap.now v.now }
    ensures { IsKind heap.now (value heap.now v.now) result }
{
    let root = heap.root(*v);
    match root {
        Cell::Ref(_) => Kind::Variable(root),
        Cell::Atom(_) => Kind::Goal(root),
        Cell::Str(p) => {
            if is_construct(heap, p) {
                return Kind::Construct(p);
            }
            Kind::Goal(root)
        }
        Cell::Int(_) | Cell::Wide(_) => Kind::Number,
        _ => unreachable!(),
    }
}

/// Puts the goals of a control construct on a stack, the first one on top.
fn push_goals(heap: &Heap, stack: &mut Vec<Cell>, p: CellId) -> Result<(), AllocError>
    requires { IsConstruct heap.now p }
    ensures { OnOk result (Opens heap.now p stack.old.items stack.new.items) }
{
    let second = heap.argument(p.arg(2));
    stack.push(second)?;
    let first = heap.argument(p.arg(1));
    stack.push(first)?;
    Ok(())
}

/// Whether a term is its own goal, as it is where no goal in it is a variable or a number.
fn is_own_goal(heap: &Heap, alloc: Global, v: &Cell) -> Result<bool, AllocError>
    requires { IsValue heap.now v.now }
    ensures { IfOk result (λ own. own ≡ true → converted (value heap.now v.now) ≡ Some (value heap.now v.now)) }
{
    let mut stack = Vec::new(alloc);
    stack.push(*v)?;
    while let Some(w) = stack.pop() {
        match kind_of(heap, &w) {
            Kind::Number | Kind::Variable(_) => return Ok(false),
            Kind::Goal(_) => continue,
            Kind::Construct(p) => {
                push_goals(heap, &mut stack, p)?;
                continue;
            }
        }
    }
    Ok(true)
}

/// A goal in nodes, whose variables are values by their places.
#[derive(Drop)]
struct Spelling {
    nodes: Vec<Node>,
    values: Vec<Cell>,
}

impl Spelling {
    /// Adds a value's term.
    fn push_value(&mut self, v: Cell) -> Result<(), AllocError>
        ensures nodes { OnOk result (self.new.nodes.items ≡ self.old.nodes.items ++ Var (length self.old.values.items) ∷ []) }
        ensures values { OnOk result (self.new.values.items ≡ self.old.values.items ++ v ∷ []) }
    {
        let place = self.values.len();
        self.nodes.push(Node::Var(place as u64))?;
        self.values.push(v)?;
        Ok(())
    }

    /// Adds the call of a value's term.
    fn push_call(&mut self, alloc: Global, v: Cell) -> Result<(), AllocError>
        ensures nodes { OnOk result (self.new.nodes.items ≡ self.old.nodes.items ++ Compound (codes "call") 1 ∷ Var (length self.old.values.items) ∷ []) }
        ensures values { OnOk result (self.new.values.items ≡ self.old.values.items ++ v ∷ []) }
    {
        let call = Name::new(alloc, "call")?;
        self.nodes.push(Node::Compound(call, 1))?;
        self.push_value(v)
    }

    /// Adds the node of a control construct.
    fn push_construct(&mut self, heap: &Heap, p: CellId) -> Result<(), AllocError>
        requires { IsConstruct heap.now p }
        ensures nodes { OnOk result ((name : List ℕ) → (ts : Trees) → term heap.now p ≡ compound name ts → self.new.nodes.items ≡ self.old.nodes.items ++ Compound name 2 ∷ []) }
        ensures values { self.new.values.items ≡ self.old.values.items }
    {
        let (f, _) = heap.block(p);
        let functor = heap.names().functor_of(f);
        let name = heap.names().atom_name(functor.name).copied()?;
        self.nodes.push(Node::Compound(name, 2))?;
        Ok(())
    }
}

/// The goal of a value's term in nodes.
fn goal_nodes(heap: &Heap, alloc: Global, v: Cell) -> Result<Option<Spelling>, AllocError>
    requires { IsValue heap.now v }
    ensures some { IfOk result (λ found. IfSome found (λ s. Spells heap.now v s.nodes.items s.values.items)) }
    ensures none { IfOk result (λ found. IfNone found (converted (value heap.now v) ≡ None)) }
{
    let mut goal = Spelling {
        nodes: Vec::new(alloc),
        values: Vec::new(alloc),
    };
    let mut stack = Vec::new(alloc);
    stack.push(v)?;
    while let Some(w) = stack.pop() {
        match kind_of(heap, &w) {
            Kind::Number => return Ok(None),
            Kind::Variable(e) => {
                goal.push_call(alloc, e)?;
                continue;
            }
            Kind::Goal(e) => {
                goal.push_value(e)?;
                continue;
            }
            Kind::Construct(p) => {
                goal.push_construct(heap, p)?;
                push_goals(heap, &mut stack, p)?;
                continue;
            }
        }
    }
    Ok(Some(goal))
}

/// The goal of a value's term, put anew.
fn put_goal(heap: &mut Heap, alloc: Global, v: Cell) -> Result<Option<Cell>, AllocError>
    requires { IsValue heap.old v }
    ensures some { IfOk result (λ found. IfSome found (λ goal. IsGoal heap.old heap.new v goal)) }
    ensures none { IfOk result (λ found. IfNone found ((converted (value heap.old v) ≡ None) × (heap.new ≡ heap.old))) }
    ensures adds { OnOk result (AddsNoVariable heap.old heap.new) }
    ensures preserves { Preserves heap.old heap.new }
    ensures err { OnErr result (heap.new ≡ renamed heap.old heap.new.names) }
{
    match goal_nodes(heap, alloc, v)? {
        None => Ok(None),
        Some(Spelling { nodes, values }) => {
            let term = Term::from_prefix(nodes);
            let goal = heap.put(alloc, &term, &values)?;
            Ok(Some(goal))
        }
    }
}

/// The goal that the term of a value stands for, if it is convertible: the goal's value. Where no goal in the term is a variable the term itself is the goal, and nothing is put.
/// After an `Err` there may be more names, and nothing else.
pub fn goal_of(heap: &mut Heap, alloc: Global, v: Cell) -> Result<Option<Cell>, AllocError>
    requires { IsValue heap.old v }
    ensures some { IfOk result (λ found. IfSome found (λ goal. IsGoal heap.old heap.new v goal)) }
    ensures none { IfOk result (λ found. IfNone found ((converted (value heap.old v) ≡ None) × (heap.new ≡ heap.old))) }
    ensures adds { OnOk result (AddsNoVariable heap.old heap.new) }
    ensures preserves { Preserves heap.old heap.new }
    ensures err { OnErr result (heap.new ≡ renamed heap.old heap.new.names) }
{
    match kind_of(heap, &v) {
        Kind::Number => Ok(None),
        Kind::Goal(w) => Ok(Some(w)),
        Kind::Variable(_) => put_goal(heap, alloc, v),
        Kind::Construct(p) => {
            if is_own_goal(heap, alloc, &v)? {
                return Ok(Some(Cell::Str(p)));
            }
            put_goal(heap, alloc, v)
        }
    }
}
