//! Unification as it is defined, on the nodes of terms in prefix order, beside the machine's: where two terms first differ from the left, a
//! variable stands for the term on the other side, in both of them, until they are the same.
ghost use Rattle.std.specs.Prelude.{◌≡◌, [], OnOk};
ghost use Rattle.plcells.specs.Store.{AreValues, IsValue};
ghost use Rattle.plcells.specs.declared.cell.Cell.{Cell as OfCell};

use crate::made::{empty, goal_of, put_arguments, show};
use crate::pairs::PAIRS;
use plbind::unify::{Scratch, unify as unify_values};
use plcells::cell::Cell;
use plcells::heap::Heap;
use plterm::node::Node;
use plterm::term::Term;
use plterm::walk::Shape;
use std::alloc::{AllocError, Global};
use std::fmt::Write;
use std::string::String;
use std::test::Fail;

/// How often a variable is bound at most: none of the terms has so many.
const ROUNDS: usize = 100;

/// How many nodes the term has that they begin with.
fn width(nodes: &[Node]) -> usize {
    let mut wanted: usize = 1;
    let mut end = 0;
    for at in 0..nodes.len() {
        if wanted == 0 {
            break;
        }
        wanted = (wanted - 1).saturating_add(nodes[at].arity());
        end = at + 1;
    }
    end
}

/// The terms of both sides where these first differ; none where they are the same.
fn difference<'a>(left: &'a [Node], right: &'a [Node]) -> Option<(&'a [Node], &'a [Node])> {
    for at in 0..left.len().min(right.len()) {
        if !left[at].is_same(&right[at]) {
            return Some((part(left, at), part(right, at)));
        }
    }
    None
}

/// The nodes of the term that begins at a place.
fn part(nodes: &[Node], place: usize) -> &[Node] {
    let (_, behind) = nodes.split_at(place.min(nodes.len()));
    let count = width(behind);
    let (term, _) = behind.split_at(count.min(behind.len()));
    term
}

/// The variable that is bound where two terms differ, of two the younger, and the term that it stands for; none where neither is one.
fn binding<'a>(left: &'a [Node], right: &'a [Node]) -> Option<(u64, &'a [Node])> {
    match (left.first(), right.first()) {
        (Some(Node::Var(x)), Some(Node::Var(y))) if *x < *y => Some((*y, left)),
        (Some(Node::Var(x)), _) => Some((*x, right)),
        (_, Some(Node::Var(y))) => Some((*y, left)),
        _ => None,
    }
}

/// Whether a node is the variable of a number.
fn is_variable(node: &Node, number: u64) -> bool {
    matches!(node, Node::Var(x) if *x == number)
}

/// Whether a variable stands in a term.
fn occurs(number: u64, term: &[Node]) -> bool {
    for node in term {
        if is_variable(node, number) {
            return true;
        }
    }
    false
}

/// Puts the nodes of a term behind others.
fn append(nodes: &mut Vec<Node>, term: &[Node]) -> Result<(), AllocError> {
    for node in term {
        nodes.push(node.copied()?)?;
    }
    Ok(())
}

/// A term with another one in place of a variable.
fn put(alloc: Global, number: u64, term: &[Node], into: &[Node]) -> Result<Vec<Node>, AllocError> {
    let mut nodes = Vec::new(alloc);
    for node in into {
        if is_variable(node, number) {
            append(&mut nodes, term)?;
        } else {
            nodes.push(node.copied()?)?;
        }
    }
    Ok(nodes)
}

/// What two terms come to that are unified one variable further.
enum Outcome {
    Same,
    Apart,
    /// The variable of this number stands for the term of these nodes.
    Binds(u64, Vec<Node>),
}

/// What two terms come to by the first variable that is to be bound.
fn next(alloc: Global, left: &[Node], right: &[Node]) -> Result<Outcome, AllocError> {
    let Some((first, second)) = difference(left, right) else {
        return Ok(Outcome::Same);
    };
    match binding(first, second) {
        Some((number, term)) if !occurs(number, term) => {
            let mut nodes = Vec::new(alloc);
            append(&mut nodes, term)?;
            Ok(Outcome::Binds(number, nodes))
        }
        _ => Ok(Outcome::Apart),
    }
}

/// Puts a term in place of a variable.
fn bind(
    alloc: Global,
    number: u64,
    term: &[Node],
    nodes: &mut Vec<Node>,
) -> Result<(), AllocError> {
    let made = put(alloc, number, term, nodes)?;
    *nodes = made;
    Ok(())
}

/// Puts a term in place of a variable in two others.
fn bind_both(
    alloc: Global,
    number: u64,
    term: &[Node],
    left: &mut Vec<Node>,
    right: &mut Vec<Node>,
) -> Result<(), AllocError> {
    bind(alloc, number, term, left)?;
    bind(alloc, number, term, right)
}

/// Makes two terms the same: whether they have a unifier.
fn unify(alloc: Global, left: &mut Vec<Node>, right: &mut Vec<Node>) -> Result<bool, AllocError> {
    for _ in 0..ROUNDS {
        match next(alloc, left, right)? {
            Outcome::Same => return Ok(true),
            Outcome::Apart => return Ok(false),
            Outcome::Binds(number, term) => bind_both(alloc, number, &term, left, right)?,
        }
    }
    Ok(false)
}

/// Adds the nodes of both sides of a goal, in prefix order.
fn put_sides(goal: &Term, left: &mut Vec<Node>, right: &mut Vec<Node>) -> Result<(), Fail> {
    let Shape::Compound(_, mut args) = goal.root().shape() else {
        return Err("no compound".into());
    };
    if args.len() != 2 {
        return Err("no two sides".into());
    }
    args.copy_nodes(1, left)?;
    args.copy_nodes(1, right)?;
    Ok(())
}

/// Adds the nodes of a goal's left side, once the sides are unified by definition: none, where they have no unifier.
fn put_unified(alloc: Global, goal: &Term, left: &mut Vec<Node>) -> Result<(), Fail> {
    let mut right = Vec::new(alloc);
    put_sides(goal, left, &mut right)?;
    if !unify(alloc, left, &mut right)? {
        left.clear();
    }
    Ok(())
}

/// The goal of a text, its variables numbered from 0 on.
fn numbered(alloc: Global, text: &str) -> Result<Term, Fail> {
    let goal = goal_of(alloc, text)?;
    Ok(goal.copy(alloc, 0)?)
}

/// Adds the nodes of the left side of a text's goal, once the sides are unified by definition: none, where they have no unifier.
fn put_plain(alloc: Global, text: &str, left: &mut Vec<Node>) -> Result<(), Fail> {
    let goal = numbered(alloc, text)?;
    put_unified(alloc, &goal, left)
}

/// Whether two runs of nodes are the same.
fn are_same(left: &[Node], right: &[Node]) -> bool {
    left.len() == right.len() && difference(left, right).is_none()
}

/// Whether the left side of a text's goal has these nodes, once the sides are unified by definition.
fn is_plain(alloc: Global, text: &str, made: &[Node]) -> Result<bool, Fail> {
    let mut plain = Vec::new(alloc);
    put_plain(alloc, text, &mut plain)?;
    Ok(are_same(made, &plain))
}

/// Puts the nodes of a value's term behind others.
fn take(alloc: Global, heap: &Heap, v: Cell, nodes: &mut Vec<Node>) -> Result<(), AllocError>
    requires { IsValue heap.now v }
{
    let mut stack = Vec::new(alloc);
    heap.take_nodes(nodes, &mut stack, v)
}

/// Whether two values have a unifier, by which they are then one. Values stay values.
fn unified(heap: &mut Heap, alloc: Global, left: Cell, right: Cell) -> Result<bool, Fail>
    requires left { IsValue heap.old left }
    requires right { IsValue heap.old right }
    ensures { OnOk result ((v : OfCell) → IsValue heap.old v → IsValue heap.new v) }
{
    let mut scratch = Scratch::new(alloc);
    Ok(unify_values(heap, &mut scratch, left, right)?)
}

/// Adds the text and the nodes of the left one of two arguments, once they are unified by the machine; `no`, and no node, where they have no
/// unifier.
fn put_made(
    heap: &mut Heap,
    alloc: Global,
    args: &[Cell],
    made: &mut Vec<Node>,
    told: &mut String,
) -> Result<(), Fail>
    requires { AreValues heap.old args.now }
{
    let [left, right] = args else {
        return Err("no two sides".into());
    };
    if !unified(heap, alloc, *left, *right)? {
        return Ok(told.push_str("no")?);
    }
    show(alloc, heap, *left, told)?;
    Ok(take(alloc, heap, *left, made)?)
}

/// The same of the goal of a text that is put on a heap with nothing on it.
fn put_machine(
    heap: &mut Heap,
    alloc: Global,
    text: &str,
    made: &mut Vec<Node>,
    told: &mut String,
) -> Result<(), Fail>
    requires { heap.old.cells ≡ [] }
{
    let args = put_arguments(heap, alloc, text)?;
    put_made(heap, alloc, &args, made, told)
}

/// What the left side of a goal is by the machine, once the sides are unified, and whether it is anything else by definition.
fn pair(heap: &mut Heap, alloc: Global, goal: &str, told: &mut String) -> Result<(), Fail>
    requires { heap.old.cells ≡ [] }
{
    let mut made = Vec::new(alloc);
    put_machine(heap, alloc, goal, &mut made, told)?;
    if !is_plain(alloc, goal, &made)? {
        told.push_str(", and otherwise by definition")?;
    }
    Ok(())
}

/// The same on a heap of its own.
fn pair_alone(alloc: Global, goal: &str, told: &mut String) -> Result<(), Fail> {
    let mut heap = empty(alloc);
    pair(&mut heap, alloc, goal, told)
}

/// Adds what is told of a goal, where it is not what is wanted.
fn put_unlike(others: &mut String, goal: &str, found: &str, wanted: &str) -> Result<(), Fail> {
    if found != wanted {
        write!(others, "{goal}: {found} in place of {wanted}, ")?;
    }
    Ok(())
}

/// Adds what the sides of a goal come to otherwise than is wanted, or otherwise by definition.
fn put_other(alloc: Global, goal: &str, wanted: &str, others: &mut String) -> Result<(), Fail> {
    let mut found = String::new(alloc);
    pair_alone(alloc, goal, &mut found)?;
    put_unlike(others, goal, found.as_str(), wanted)
}

/// Adds what the pair of a line comes to otherwise than it says, or otherwise by definition.
fn put_pair(alloc: Global, line: &str, others: &mut String) -> Result<(), Fail> {
    let Some((goal, wanted)) = line.split_once(": ") else {
        return Err("no pair".into());
    };
    put_other(alloc, goal, wanted, others)
}

/// The same of all pairs.
fn put_pairs(alloc: Global, others: &mut String) -> Result<(), Fail> {
    for line in PAIRS.lines() {
        put_pair(alloc, line, others)?;
    }
    Ok(())
}

// Pairs that look random come to what another system makes of them, and to the same by the machine and by the definition.
#[test]
fn pairs(rt: HostRuntime) -> Result<(), Fail> {
    let mut others = String::new(rt.alloc());
    put_pairs(rt.alloc(), &mut others)?;
    assert_eq!(rt; others.as_str(), "");
    Ok(())
}
