//! The terms of a compiled clause as expressions.
ghost use Rattle.std.specs.Prelude.{◌≡◌, ◌<◌, ◌^◌, length, IfOk, IfSome};
ghost use Rattle.plterm.specs.Tree.{int, Tree};
ghost use Rattle.plsubst.specs.Subst.{bind};
ghost use Rattle.platoms.specs.Names.{functor_name};
ghost use Rattle.plcode.specs.Laying.{IsLaid};
ghost use Rattle.plcode.specs.Packed.{node_at, IsArgument};
ghost use Rattle.plenv.specs.Env.{over, variable, Covers};
ghost use Rattle.plenv.specs.Rows.{tree_at};
ghost use Rattle.plhead.specs.Fitting.{IsCompoundAt};
ghost use Rattle.plarith.specs.Evaluation.{eval, with_two};
ghost use Rattle.plarith.specs.Operands.{Opens};
ghost use Rattle.plarith.specs.Values.{IsOperand as IsHeapOperand, tree as heap_tree};
ghost use Rattle.plexpression.specs.Nodes.{IsOperand, IsNode, tree, seen_block};

use crate::number::integer_at;
use crate::standing::{as_it_stands, number_at};
use plarith::binary;
use plarith::error::{ArithError, Evaluated};
use plarith::evaluate::evaluate;
use plarith::operand::{Opened, Operand, Operands};
use plarith::value::open_value;
use platoms::evaluable::{Binary, Operation};
use plcode::node::Node;
use plenv::env::Environment;
use plenv::slot::Slot;
use std::alloc::{AllocError, Global};

/// What the variable of a slot is seen to be.
fn open_slot(env: &Environment, slot: u32) -> Result<Opened, AllocError>
    requires { slot < length env.now.slots }
    ensures { IfOk result (Opens (heap_tree env.now.heap) (IsHeapOperand env.now.heap) (variable env.now slot)) }
{
    match env.slot(slot) {
        Slot::Free(_) => Ok(Opened::Known(Err(ArithError::Unbound))),
        Slot::Set(v) => open_value(env.heap(), v),
    }
}

/// What the compound is seen to be whose block stands at a place among the nodes.
fn open_block(env: &Environment, nodes: &[Node], root: u32) -> Result<Opened, AllocError>
    requires compound { (u : Tree) × IsCompoundAt env.now.heap.names nodes.now root u }
    requires few { length nodes.now < 2 ^ 32 }
    ensures { (u : Tree) (c : IsCompoundAt env.now.heap.names nodes.now root u) → IfOk result (λ o. o ≡ seen_block (functor_name env.now.heap.names c.functor) c.arity root) }
{
    let Node::Fun(f, arity) = nodes[root as usize] else {
        unreachable!()
    };
    let names = env.heap().names();
    match names.operation(f) {
        Some(Operation::One(f)) => Ok(Opened::One(f, Operand::Node(root + 1))),
        Some(Operation::Two(f)) => {
            let left = Operand::Node(root + 1);
            let right = Operand::Node(root + 2);
            Ok(Opened::Two(f, left, right))
        }
        None => Opened::unknown(names.atom_name(names.functor_of(f).name), arity),
    }
}

/// What a node, of a clause whose slots begin at a place, is seen to be.
fn open_node(env: &Environment, nodes: &[Node], at: u32, base: u32) -> Result<Opened, AllocError>
    requires { IsNode env.now nodes.now base at }
    ensures { IfOk result (Opens (tree env.now nodes.now base) (IsOperand env.now nodes.now base) (bind (over env.now base) (tree_at env.now.heap.names nodes.now at))) }
{
    match nodes[at as usize] {
        Node::Var(x) => open_slot(env, env.slot_of(base, x)),
        Node::Int(i) => Ok(Opened::Known(Ok(i))),
        Node::Atom(a) => Opened::unknown(env.heap().names().atom_name(a), 0),
        Node::Sub(_, root) => open_block(env, nodes, root),
        Node::Fun(_, _) => unreachable!(),
    }
}

/// The terms of a clause whose slots begin at a place.
#[derive(Drop)]
struct ClauseTerms<'a> {
    env: &'a Environment,
    nodes: &'a [Node],
    base: u32,
}

impl Operands for ClauseTerms<'_> {
    ghost is_operand = { λ c. IsOperand c.env.now c.nodes.now c.base };

    ghost tree = { λ c. tree c.env.now c.nodes.now c.base };

    fn open(&self, operand: Operand) -> Result<Opened, AllocError> {
        match operand {
            Operand::Value(v) => open_value(self.env.heap(), v),
            Operand::Node(at) => open_node(self.env, self.nodes, at, self.base),
        }
    }
}

impl ClauseTerms<'_> {
    /// The number that an operand is as it stands, if it is one.
    fn number(&self, operand: &Operand) -> Option<i64>
        requires { IsOperand self.now.env.now self.now.nodes.now self.now.base operand.now }
        ensures { IfSome result (λ i. tree self.now.env.now self.now.nodes.now self.now.base operand.now ≡ int i) }
    {
        match *operand {
            Operand::Value(v) => integer_at(self.env.heap(), &v),
            Operand::Node(at) => number_at(self.env, self.nodes, at, self.base),
        }
    }
}

/// What an operation comes to whose operands are numbers as they stand.
fn of_numbers(terms: &ClauseTerms, f: Binary, left: Operand, right: Operand) -> Option<Evaluated>
    requires left { IsOperand terms.now.env.now terms.now.nodes.now terms.now.base left }
    requires right { IsOperand terms.now.env.now terms.now.nodes.now terms.now.base right }
    ensures { IfSome result (λ found. found ≡ with_two f (eval (tree terms.now.env.now terms.now.nodes.now terms.now.base left)) (eval (tree terms.now.env.now terms.now.nodes.now terms.now.base right))) }
{
    let x = terms.number(&left)?;
    let y = terms.number(&right)?;
    Some(binary::apply(f, x, y))
}

/// What an operand comes to that is no operation, or one of two numbers as they stand.
fn of_simple(terms: &ClauseTerms, operand: Operand) -> Result<Option<Evaluated>, AllocError>
    requires { IsOperand terms.now.env.now terms.now.nodes.now terms.now.base operand }
    ensures { IfOk result (λ o. IfSome o (λ found. found ≡ eval (tree terms.now.env.now terms.now.nodes.now terms.now.base operand))) }
{
    if let Some(number) = terms.number(&operand) {
        return Ok(Some(Ok(number)));
    }
    match terms.open(operand)? {
        Opened::Known(found) => Ok(Some(found)),
        Opened::Two(f, left, right) => Ok(of_numbers(terms, f, left, right)),
        Opened::One(_, _) => Ok(None),
    }
}

/// What an operation comes to whose operands came to this.
fn joined(f: Binary, left: Evaluated, right: Evaluated) -> Evaluated
    ensures { result ≡ with_two f left right }
{
    binary::apply(f, left?, right?)
}

/// What an operation comes to whose operands are simple.
fn of_two(
    terms: &ClauseTerms,
    f: Binary,
    left: Operand,
    right: Operand,
) -> Result<Option<Evaluated>, AllocError>
    requires left { IsOperand terms.now.env.now terms.now.nodes.now terms.now.base left }
    requires right { IsOperand terms.now.env.now terms.now.nodes.now terms.now.base right }
    ensures { IfOk result (λ o. IfSome o (λ found. found ≡ with_two f (eval (tree terms.now.env.now terms.now.nodes.now terms.now.base left)) (eval (tree terms.now.env.now terms.now.nodes.now terms.now.base right)))) }
{
    let Some(x) = of_simple(terms, left)? else {
        return Ok(None);
    };
    let Some(y) = of_simple(terms, right)? else {
        return Ok(None);
    };
    Ok(Some(joined(f, x, y)))
}

/// What an expression comes to that is no operation, or one of simple operands: no operation has to wait.
fn at_once(terms: &ClauseTerms, operand: Operand) -> Result<Option<Evaluated>, AllocError>
    requires { IsOperand terms.now.env.now terms.now.nodes.now terms.now.base operand }
    ensures { IfOk result (λ o. IfSome o (λ found. found ≡ eval (tree terms.now.env.now terms.now.nodes.now terms.now.base operand))) }
{
    match terms.open(operand)? {
        Opened::Known(found) => Ok(Some(found)),
        Opened::Two(f, left, right) => of_two(terms, f, left, right),
        Opened::One(_, _) => Ok(None),
    }
}

/// What the term of a node, of a clause whose slots begin at a place, comes to as an expression, or its error (ISO/IEC 13211-1 7.9, 9.1.4).
/// It takes time linear in the nodes of the term, and memory linear in its depth; it makes no cell and no term.
pub fn eval_node(
    alloc: Global,
    env: &Environment,
    nodes: &[Node],
    at: u32,
    base: u32,
) -> Result<Evaluated, AllocError>
    requires laid { IsLaid env.now.heap.names nodes.now }
    requires within { at < length nodes.now }
    requires whole { IsArgument 0 at (node_at nodes.now at) }
    requires covers { Covers env.now base (tree_at env.now.heap.names nodes.now at) }
    ensures { IfOk result (λ found. found ≡ eval (bind (over env.now base) (tree_at env.now.heap.names nodes.now at))) }
{
    if let Some(found) = as_it_stands(env, nodes, at, base) {
        return Ok(found);
    }
    let terms = ClauseTerms { env, nodes, base };
    match at_once(&terms, Operand::Node(at))? {
        Some(found) => Ok(found),
        None => evaluate(alloc, &terms, Operand::Node(at)),
    }
}
