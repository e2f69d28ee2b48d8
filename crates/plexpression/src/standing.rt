//! Expressions of a clause that are numbers as they stand, or operations of two such: most are.
ghost use Rattle.std.specs.Prelude.{◌≡◌, ◌<◌, Some, length, IfSome};
ghost use Rattle.plterm.specs.Tree.{int};
ghost use Rattle.plsubst.specs.Subst.{bind};
ghost use Rattle.platoms.specs.declared.evaluable.Operation.TheVariants.{Two};
ghost use Rattle.platoms.specs.Names.{operation_at};
ghost use Rattle.plenv.specs.Env.{over, variable};
ghost use Rattle.plenv.specs.Rows.{tree_at};
ghost use Rattle.plarith.specs.Evaluation.{eval};
ghost use Rattle.plexpression.specs.Nodes.{IsNode};

use crate::number::integer_at;
use crate::pair::pair_at;
use plarith::binary;
use plarith::error::Evaluated;
use platoms::evaluable::{Binary, Operation};
use plcode::node::Node;
use plenv::env::Environment;
use plenv::slot::Slot;

/// The number that the variable of a slot stands for, if it stands for one.
fn number_in_slot(env: &Environment, slot: u32) -> Option<i64>
    requires { slot < length env.now.slots }
    ensures { IfSome result (λ i. variable env.now slot ≡ int i) }
{
    match env.slot(slot) {
        Slot::Free(_) => None,
        Slot::Set(v) => integer_at(env.heap(), &v),
    }
}

/// The number that a node, of a clause whose slots begin at a place, stands for, if it stands for one.
pub(crate) fn number_at(env: &Environment, nodes: &[Node], at: u32, base: u32) -> Option<i64>
    requires { IsNode env.now nodes.now base at }
    ensures { IfSome result (λ i. bind (over env.now base) (tree_at env.now.heap.names nodes.now at) ≡ int i) }
{
    match nodes[at as usize] {
        Node::Int(i) => Some(i),
        Node::Var(x) => number_in_slot(env, env.slot_of(base, x)),
        _ => None,
    }
}

/// The operation of a functor of two arguments, by its number, if it is evaluable.
fn binary_at(env: &Environment, functor: u32) -> Option<Binary>
    requires { functor < length env.now.heap.names.functors }
    ensures { IfSome result (λ f. operation_at env.now.heap.names functor ≡ Some (Two f)) }
{
    match env.heap().names().operation(functor)? {
        Operation::Two(f) => Some(f),
        Operation::One(_) => None,
    }
}

/// What an operation comes to whose operands are numbers as they stand.
fn of_pair(env: &Environment, nodes: &[Node], at: u32, base: u32) -> Option<Evaluated>
    requires { IsNode env.now nodes.now base at }
    ensures { IfSome result (λ found. found ≡ eval (bind (over env.now base) (tree_at env.now.heap.names nodes.now at))) }
{
    let pair = pair_at(nodes, at)?;
    let f = binary_at(env, pair.functor)?;
    let x = number_at(env, nodes, pair.left, base)?;
    let y = number_at(env, nodes, pair.right, base)?;
    Some(binary::apply(f, x, y))
}

/// What an expression comes to that is a number as it stands, or an operation of two such.
pub(crate) fn as_it_stands(
    env: &Environment,
    nodes: &[Node],
    at: u32,
    base: u32,
) -> Option<Evaluated>
    requires { IsNode env.now nodes.now base at }
    ensures { IfSome result (λ found. found ≡ eval (bind (over env.now base) (tree_at env.now.heap.names nodes.now at))) }
{
    match number_at(env, nodes, at, base) {
        Some(number) => Some(Ok(number)),
        None => of_pair(env, nodes, at, base),
    }
}
