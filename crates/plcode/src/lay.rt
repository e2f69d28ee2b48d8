//! Laying the nodes of terms down.
ghost use Rattle.std.specs.Prelude.{◌≡◌, ◌^◌, ◌<◌, ◌≤◌, [], ◌∷◌, ◌++◌, length, take, drop, reverse, IfOk, OnOk, List};
ghost use Rattle.plterm.specs.Tree.{Tree, atom};
ghost use Rattle.plterm.specs.declared.node.Node.TheVariants.{Compound};
ghost use Rattle.plterm.specs.Reading.{arity, read, reading, Fits, IsForest, IsName};
ghost use Rattle.platoms.specs.Names.{Table, Extends};
ghost use Rattle.plcode.specs.declared.node.Node.{Node as OfNode};
ghost use Rattle.plcode.specs.declared.node.Node.TheVariants.{Fun, Sub};
ghost use Rattle.plcode.specs.Laying.{lower as lower_of, lowest, Grows, IsLaid, IsRow, Waits};

use crate::node::Node;
use platoms::names::{Functor, Names};
use plterm::name::Name;
use plterm::node::Node as TermNode;
use plterm::walk::Terms;
use std::alloc::{AllocError, Global};

/// Where the first block of the last compound begins, if a node follows others.
fn lower(low: u32, node: Node) -> u32
    ensures { result ≡ lower_of low node }
{
    match node {
        Node::Sub(from, _) => from,
        Node::Var(_) | Node::Int(_) | Node::Atom(_) | Node::Fun(_, _) => low,
    }
}

/// Refuses nodes that are too many for places of 32 bits.
fn few(nodes: &[Node]) -> Result<(), AllocError>
    ensures { OnOk result (length nodes.now < 2 ^ 32) }
{
    if nodes.len() > u32::MAX as usize {
        return Err(AllocError);
    }
    Ok(())
}

/// Moves the topmost nodes of a stack, so many as are asked for, behind the others; the topmost one comes first. Says where the
/// first block of the last compound among them begins; where there is none, it is `end`. Refuses to pass the places of 32 bits.
fn put_row(
    nodes: &mut Vec<Node>,
    waiting: &mut Vec<Node>,
    count: u16,
    end: u32,
) -> Result<u32, AllocError>
    requires { count ≤ length waiting.old.items }
    ensures nodes { OnOk result (nodes.new.items ≡ nodes.old.items ++ take count (reverse waiting.old.items)) }
    ensures few { OnOk result (length nodes.new.items < 2 ^ 32) }
    ensures waiting { OnOk result (reverse waiting.new.items ≡ drop count (reverse waiting.old.items)) }
    ensures lowest { IfOk result (λ low. low ≡ lowest end (take count (reverse waiting.old.items))) }
{
    let mut low = end;
    for _ in 0..count {
        let Some(node) = waiting.pop() else {
            unreachable!()
        };
        low = lower(low, node);
        nodes.push(node)?;
    }
    few(nodes.as_slice())?;
    Ok(low)
}

/// Lays a block down, whose arguments are the topmost nodes of a stack; the compound takes their place.
fn put_block(
    nodes: &mut Vec<Node>,
    waiting: &mut Vec<Node>,
    functor: u32,
    count: u16,
) -> Result<(), AllocError>
    requires { count ≤ length waiting.old.items }
    ensures nodes { OnOk result (nodes.new.items ≡ nodes.old.items ++ Fun functor count ∷ take count (reverse waiting.old.items)) }
    ensures few { OnOk result (length nodes.new.items < 2 ^ 32) }
    ensures waiting { OnOk result (reverse waiting.new.items ≡ Sub (lowest (length nodes.old.items) (take count (reverse waiting.old.items))) (length nodes.old.items) ∷ drop count (reverse waiting.old.items)) }
{
    let Ok(root) = u32::try_from(nodes.len()) else {
        return Err(AllocError);
    };
    nodes.push(Node::Fun(functor, count))?;
    let from = put_row(nodes, waiting, count, root)?;
    waiting.push(Node::Sub(from, root))?;
    Ok(())
}

/// Puts the node of an atom on a stack.
fn put_atom(waiting: &mut Vec<Node>, names: &mut Names, name: &Name) -> Result<(), AllocError>
    requires { IsName name.now }
    ensures names { Extends names.old names.new }
    ensures waits { OnOk result ((nodes : List OfNode) → (ts : List Tree) → Waits names.old nodes (reverse waiting.old.items) ts → Waits names.new nodes (reverse waiting.new.items) (atom name.now ∷ ts)) }
{
    let atom = names.atom(name)?;
    waiting.push(Node::Atom(atom))?;
    Ok(())
}

/// Lays a compound down whose arguments are the topmost nodes of a stack; its own node takes their place.
fn put_compound(
    nodes: &mut Vec<Node>,
    waiting: &mut Vec<Node>,
    names: &mut Names,
    name: &Name,
    arity: u16,
) -> Result<(), AllocError>
    requires room { arity ≤ length waiting.old.items }
    requires fits { Fits (Compound name.now arity) }
    ensures names { Extends names.old names.new }
    ensures grows { OnOk result (Grows nodes.old.items nodes.new.items) }
    ensures waits { OnOk result ((ts : List Tree) → Waits names.old nodes.old.items (reverse waiting.old.items) ts → Waits names.new nodes.new.items (reverse waiting.new.items) (read (Compound name.now arity) ts)) }
{
    let name = names.atom(name)?;
    let functor = names.functor(Functor { name, arity })?;
    put_block(nodes, waiting, functor, arity)?;
    Ok(())
}

/// Lays a term down whose arguments are the topmost nodes of a stack; its own node takes their place.
fn put_node(
    nodes: &mut Vec<Node>,
    waiting: &mut Vec<Node>,
    names: &mut Names,
    node: &TermNode,
) -> Result<(), AllocError>
    requires room { arity node.now ≤ length waiting.old.items }
    requires fits { Fits node.now }
    ensures names { Extends names.old names.new }
    ensures grows { OnOk result (Grows nodes.old.items nodes.new.items) }
    ensures waits { OnOk result ((ts : List Tree) → Waits names.old nodes.old.items (reverse waiting.old.items) ts → Waits names.new nodes.new.items (reverse waiting.new.items) (read node.now ts)) }
{
    match node {
        TermNode::Var(variable) => {
            let Ok(slot) = u32::try_from(*variable) else {
                return Err(AllocError);
            };
            waiting.push(Node::Var(slot))?;
            Ok(())
        }
        TermNode::Int(number) => {
            waiting.push(Node::Int(*number))?;
            Ok(())
        }
        TermNode::Atom(name) => put_atom(waiting, names, name),
        TermNode::Compound(name, arity) => put_compound(nodes, waiting, names, name, *arity),
    }
}

/// Lays a term down by a node that was read, whose arguments are the topmost nodes of a stack; its own node takes their place.
fn put_read(
    nodes: &mut Vec<Node>,
    waiting: &mut Vec<Node>,
    names: &mut Names,
    node: TermNode,
) -> Result<(), AllocError>
    requires room { arity node ≤ length waiting.old.items }
    requires fits { Fits node }
    ensures names { Extends names.old names.new }
    ensures grows { OnOk result (Grows nodes.old.items nodes.new.items) }
    ensures waits { OnOk result ((ts : List Tree) → Waits names.old nodes.old.items (reverse waiting.old.items) ts → Waits names.new nodes.new.items (reverse waiting.new.items) (read node ts)) }
{
    put_node(nodes, waiting, names, &node)
}

/// Lays terms down by their nodes, those of the last term first. Their own nodes wait, that of the first term on top.
fn put_all(
    nodes: &mut Vec<Node>,
    waiting: &mut Vec<Node>,
    names: &mut Names,
    terms: Vec<TermNode>,
) -> Result<(), AllocError>
    requires forest { IsForest terms.items }
    requires laid { IsLaid names.old nodes.old.items }
    requires none { waiting.old.items ≡ [] }
    ensures names { Extends names.old names.new }
    ensures grows { OnOk result (Grows nodes.old.items nodes.new.items) }
    ensures waits { OnOk result (Waits names.new nodes.new.items (reverse waiting.new.items) (reading terms.items)) }
{
    let mut terms = terms;
    'terms: while let Some(node) = terms.pop() {
        put_read(nodes, waiting, names, node)?;
    }
    Ok(())
}

/// Lays terms down, so many as are asked for, which are taken off; their own nodes wait, that of the first term on top.
fn stacked(
    alloc: Global,
    nodes: &mut Vec<Node>,
    names: &mut Names,
    terms: &mut Terms<'_>,
    count: usize,
) -> Result<Vec<Node>, AllocError>
    requires room { count ≤ length terms.old }
    requires laid { IsLaid names.old nodes.old.items }
    ensures rest { OnOk result (terms.new ≡ drop count terms.old) }
    ensures waits { IfOk result (λ w. Waits names.new nodes.new.items (reverse w.items) (take count terms.old)) }
    ensures count { IfOk result (λ w. length w.items ≡ count) }
    ensures grows { OnOk result (Grows nodes.old.items nodes.new.items) }
    ensures names { Extends names.old names.new }
{
    let mut spelled = Vec::new(alloc);
    terms.copy_nodes(count, &mut spelled)?;
    let mut waiting = Vec::new(alloc);
    put_all(nodes, &mut waiting, names, spelled)?;
    Ok(waiting)
}

/// Lays the topmost nodes of a stack down in a row, so many as are asked for; the topmost one comes first. Says where the row begins.
fn lay_row(nodes: &mut Vec<Node>, waiting: &mut Vec<Node>, count: u16) -> Result<u32, AllocError>
    requires { count ≤ length waiting.old.items }
    ensures grows { OnOk result (Grows nodes.old.items nodes.new.items) }
    ensures laid { OnOk result ((t : Table) (ts : List Tree) → Waits t nodes.old.items (reverse waiting.old.items) ts → IsLaid t nodes.new.items) }
    ensures row { IfOk result (λ at. (t : Table) (ts : List Tree) → Waits t nodes.old.items (reverse waiting.old.items) ts → IsRow t nodes.new.items at count (take count ts)) }
{
    let Ok(at) = u32::try_from(nodes.len()) else {
        return Err(AllocError);
    };
    put_row(nodes, waiting, count, at)?;
    Ok(at)
}

/// Lays terms down behind the nodes, so many as are asked for, which are taken off; says where the row of their own nodes begins.
/// For want of memory, or of numbers, what was laid down stays, and no row is there.
pub fn lay(
    alloc: Global,
    nodes: &mut Vec<Node>,
    names: &mut Names,
    terms: &mut Terms<'_>,
    count: u16,
) -> Result<u32, AllocError>
    requires room { count ≤ length terms.old }
    requires laid { IsLaid names.old nodes.old.items }
    ensures rest { OnOk result (terms.new ≡ drop count terms.old) }
    ensures row { IfOk result (λ at. IsRow names.new nodes.new.items at count (take count terms.old)) }
    ensures laid { OnOk result (IsLaid names.new nodes.new.items) }
    ensures grows { OnOk result (Grows nodes.old.items nodes.new.items) }
    ensures names { Extends names.old names.new }
{
    let mut waiting = stacked(alloc, nodes, names, terms, count as usize)?;
    let at = lay_row(nodes, &mut waiting, count)?;
    Ok(at)
}

/// Lays a term down by its node, whose arguments are taken off the terms: their blocks, its own, and its own node; says where this
/// stands. For want of memory, or of numbers, what was laid down stays, and no node is there.
pub fn lay_term(
    alloc: Global,
    nodes: &mut Vec<Node>,
    names: &mut Names,
    node: TermNode,
    terms: &mut Terms<'_>,
) -> Result<u32, AllocError>
    requires room { arity node ≤ length terms.old }
    requires fits { Fits node }
    requires laid { IsLaid names.old nodes.old.items }
    ensures rest { OnOk result (terms.new ≡ drop (arity node) terms.old) }
    ensures row { IfOk result (λ at. IsRow names.new nodes.new.items at 1 (take 1 (read node terms.old))) }
    ensures laid { OnOk result (IsLaid names.new nodes.new.items) }
    ensures grows { OnOk result (Grows nodes.old.items nodes.new.items) }
    ensures names { Extends names.old names.new }
{
    let mut waiting = stacked(alloc, nodes, names, terms, node.arity())?;
    put_read(nodes, &mut waiting, names, node)?;
    let at = lay_row(nodes, &mut waiting, 1)?;
    Ok(at)
}
