//! Terms converted to goals, in time linear in their nodes and without recursion.
ghost use Rattle.std.specs.Prelude.{◌≡◌, ◌≤◌, length, IfOk, MatchBool, None, OnOk, Some};
ghost use Rattle.std.specs.List.{flat_map};
ghost use Rattle.plterm.specs.Tree.{Tree};
ghost use Rattle.plterm.specs.Reading.{arity, read, spelling, AllFit, Fits};
ghost use Rattle.plclause.specs.Conversion.{converted, is_control};
ghost use Rattle.plclause.specs.Goals.{goal_nodes, joined};

use plterm::name::Name;
use plterm::node::Node;
use plterm::term::Term;
use plterm::walk::{TermRef, Terms};
use std::alloc::{AllocError, Global};

/// The goal that a term stands for, if it is convertible (ISO/IEC 13211-1 7.6.2).
pub fn convert(alloc: Global, term: &TermRef<'_>) -> Result<Option<Term>, AllocError>
    ensures { IfOk result (λ goal. goal ≡ converted term.now) }
{
    let mut nodes = Vec::new(alloc);
    let mut goals = term.alone();
    'goals: while let Some(node) = goals.enter() {
        if !put_goal(alloc, node, &mut goals, &mut nodes)? {
            return Ok(None);
        }
    }
    Ok(Some(Term::from_prefix(nodes)))
}

/// Adds the nodes of the goal that a term stands for, whose node was taken off; the goals of a control construct are left to come.
/// False, if the term is not convertible.
fn put_goal(
    alloc: Global,
    node: &Node,
    goals: &mut Terms<'_>,
    nodes: &mut Vec<Node>,
) -> Result<bool, AllocError>
    requires { arity node.now ≤ length goals.old }
    ensures same { IfOk result (λ good. MatchBool good
        (joined (Some nodes.new.items) (goal_nodes goals.new) ≡ joined (Some nodes.old.items) (goal_nodes (read node.now goals.old)))
        (joined (Some nodes.old.items) (goal_nodes (read node.now goals.old)) ≡ None)) }
    ensures less { OnOk result (length (flat_map spelling goals.new) ≤ length (flat_map spelling goals.old)) }
    ensures fits { OnOk result (Fits node.now → AllFit nodes.old.items → AllFit nodes.new.items) }
{
    match node {
        Node::Var(number) => {
            let call = Name::new(alloc, "call")?;
            nodes.push(Node::Compound(call, 1))?;
            nodes.push(Node::Var(*number))?;
            Ok(true)
        }
        Node::Int(_) => Ok(false),
        Node::Atom(name) => {
            nodes.push(Node::Atom(name.copied()?))?;
            Ok(true)
        }
        Node::Compound(name, count) => {
            nodes.push(Node::Compound(name.copied()?, *count))?;
            if !holds_goals(name, *count as usize) {
                goals.copy_nodes(*count as usize, nodes)?;
            }
            Ok(true)
        }
    }
}

/// Whether the arguments of a compound with such a name and so many arguments are goals: it is a conjunction, a disjunction or a condition
/// with what follows it (ISO/IEC 13211-1 7.6.2).
pub fn holds_goals(name: &Name, count: usize) -> bool
    ensures { result ≡ is_control name.now count }
{
    match name.as_str() {
        "," | ";" | "->" => count == 2,
        _ => false,
    }
}

/// A goal is its own conversion.
pub fn converted_once()
    ensures { (t goal : Tree) → converted t ≡ Some goal → converted goal ≡ Some goal }
{}
