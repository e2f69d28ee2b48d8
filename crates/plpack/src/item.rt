//! Nodes at the front of bytes.
ghost use Rattle.std.specs.Prelude.{◌<◌, ◌≤◌, ◌^◌, ◌↔◌, ◌∷◌, IfOk, IsTrue};
ghost use Rattle.std.specs.Option.{SomeIff};
ghost use Rattle.plpack.specs.Items.{after, IsNumbered};
ghost use Rattle.plpack.specs.Finding.{Finds, FindsNext};

use crate::parts::{long_of, name_of, short_of};
use crate::tag::{ATOM, COMPOUND, INTEGER, VARIABLE};
use plterm::name::Name;
use plterm::node::Node;
use plterm::term::ARITY;
use std::alloc::{AllocError, Global};

/// A node, and the bytes behind its own.
#[derive(Drop)]
pub(crate) struct NodeAt<'a> {
    pub node: Node,
    pub behind: &'a [u8],
}

/// A node that may follow others of a term, the bytes behind its own, and how many variables were seen with it.
#[derive(Drop)]
pub struct Next<'a> {
    pub node: Node,
    pub behind: &'a [u8],
    pub seen: u64,
}

/// The node whose bytes begin the bytes, where it may follow nodes of a term in which so many variables were seen: it does not if it is a variable that
/// leaves out a number.
pub fn next_item(alloc: Global, bytes: &[u8], seen: u64) -> Result<Option<Next<'_>>, AllocError>
    requires { seen < 2 ^ 63 }
    ensures { IfOk result (FindsNext bytes.now seen) }
{
    let Some(NodeAt { node, behind }) = item_at(alloc, bytes)? else {
        return Ok(None);
    };
    let Some(seen) = seen_with(seen, &node) else {
        return Ok(None);
    };
    Ok(Some(Next { node, behind, seen }))
}

/// How many variables were seen with the node, if it is no variable that leaves out a number.
fn seen_with(seen: u64, node: &Node) -> Option<u64>
    requires { seen < 2 ^ 63 }
    ensures { SomeIff result (IsNumbered seen node.now) (after seen node.now) }
{
    match node {
        Node::Var(number) if *number > seen => None,
        Node::Var(number) if *number == seen => Some(seen + 1),
        _ => Some(seen),
    }
}

/// The node whose bytes begin the bytes.
fn item_at(alloc: Global, bytes: &[u8]) -> Result<Option<NodeAt<'_>>, AllocError>
    ensures { IfOk result (Finds bytes.now) }
{
    match bytes {
        [VARIABLE, rest @ ..] => Ok(variable_at(rest)),
        [INTEGER, rest @ ..] => Ok(integer_at(rest)),
        [ATOM, rest @ ..] => atom_at(alloc, rest),
        [COMPOUND, rest @ ..] => compound_at(alloc, rest),
        [_, ..] => Ok(None),
        [] => Ok(None),
    }
}

/// The variable whose number begins the bytes.
fn variable_at(bytes: &[u8]) -> Option<NodeAt<'_>>
    ensures { Finds (VARIABLE ∷ bytes.now) result }
{
    let (number, behind) = long_of(bytes)?;
    let node = Node::Var(number);
    Some(NodeAt { node, behind })
}

/// The integer whose value begins the bytes.
fn integer_at(bytes: &[u8]) -> Option<NodeAt<'_>>
    ensures { Finds (INTEGER ∷ bytes.now) result }
{
    let (value, behind) = long_of(bytes)?;
    let node = Node::Int(value.cast_signed());
    Some(NodeAt { node, behind })
}

/// The atom whose name begins the bytes.
fn atom_at(alloc: Global, bytes: &[u8]) -> Result<Option<NodeAt<'_>>, AllocError>
    ensures { IfOk result (Finds (ATOM ∷ bytes.now)) }
{
    let Some((text, behind)) = name_of(bytes) else {
        return Ok(None);
    };
    let node = Node::Atom(Name::new(alloc, text)?);
    Ok(Some(NodeAt { node, behind }))
}

/// The compound whose arity and name begin the bytes.
fn compound_at(alloc: Global, bytes: &[u8]) -> Result<Option<NodeAt<'_>>, AllocError>
    ensures { IfOk result (Finds (COMPOUND ∷ bytes.now)) }
{
    let Some((arity, rest)) = short_of(bytes) else {
        return Ok(None);
    };
    if !is_arity(arity) {
        return Ok(None);
    }
    let Some((text, behind)) = name_of(rest) else {
        return Ok(None);
    };
    let node = Node::Compound(Name::new(alloc, text)?, arity);
    Ok(Some(NodeAt { node, behind }))
}

/// Whether a compound may have so many arguments.
fn is_arity(count: u16) -> bool
    ensures { IsTrue result ↔ ((0 < count) × (count ≤ 1024)) }
{
    count > 0 && count as usize <= ARITY
}
