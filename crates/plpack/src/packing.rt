//! Terms to bytes.
ghost use Rattle.std.specs.Prelude.{◌≡◌, ◌^◌, ◌<◌, ◌++◌, length, IfOk, OnOk};
ghost use Rattle.plterm.specs.declared.node.Node.TheVariants.{Var, Int, Atom, Compound};
ghost use Rattle.plterm.specs.Reading.{Fits};
ghost use Rattle.plterm.specs.Variables.{added, numbered, place, with_node};
ghost use Rattle.plpack.specs.Packing.{item, name_item, packed, IsPackable};

use crate::tag::{ATOM, COMPOUND, INTEGER, VARIABLE};
use plterm::node::Node;
use plterm::numbers::Numbers;
use plterm::walk::TermRef;
use std::alloc::{AllocError, Global};

/// The bytes of a term, in time linear in its nodes. Terms have the same bytes exactly where they are variants of one another.
pub fn pack(alloc: Global, term: &TermRef<'_>) -> Result<Vec<u8>, AllocError>
    ensures bytes { IfOk result (λ bytes. bytes.items ≡ packed term.now) }
    ensures limits { OnOk result (IsPackable term.now) }
{
    let mut out = Vec::new(alloc);
    let mut seen = Numbers::new(alloc);
    let mut terms = term.alone();
    'nodes: while let Some(node) = terms.enter() {
        put_node(&mut out, &mut seen, node)?;
    }
    Ok(out)
}

/// Adds the item of a node, with the place of its variable among those seen, which is seen from then on.
fn put_node(out: &mut Vec<u8>, seen: &mut Numbers, node: &Node) -> Result<(), AllocError>
    requires { Fits node.now }
    ensures bytes { OnOk result (out.new.items ≡ out.old.items ++ item (numbered seen.old node.now)) }
    ensures seen { OnOk result (seen.new ≡ with_node seen.old node.now) }
{
    match node {
        Node::Var(variable) => put_variable(out, seen, *variable),
        Node::Int(value) => put_integer(out, *value),
        Node::Atom(name) => put_atom(out, name.as_str()),
        Node::Compound(name, arity) => put_compound(out, name.as_str(), *arity),
    }
}

/// Adds the item of a variable, with its place among those seen, which it is one of from then on.
pub fn put_variable(out: &mut Vec<u8>, seen: &mut Numbers, variable: u64) -> Result<(), AllocError>
    ensures bytes { OnOk result (out.new.items ≡ out.old.items ++ item (Var (place variable seen.old))) }
    ensures seen { OnOk result (seen.new ≡ added seen.old variable) }
{
    let number = seen.place_of(variable)?;
    out.push(VARIABLE)?;
    out.extend_from_slice(&number.to_be_bytes())
}

/// Adds the item of an integer.
pub fn put_integer(out: &mut Vec<u8>, value: i64) -> Result<(), AllocError>
    ensures { OnOk result (out.new.items ≡ out.old.items ++ item (Int value)) }
{
    out.push(INTEGER)?;
    out.extend_from_slice(&value.to_be_bytes())
}

/// Adds the item of an atom.
pub fn put_atom(out: &mut Vec<u8>, name: &str) -> Result<(), AllocError>
    requires { length name.now < 2 ^ 16 }
    ensures { OnOk result (out.new.items ≡ out.old.items ++ item (Atom name.now)) }
{
    out.push(ATOM)?;
    put_name(out, name)
}

/// Adds the item of a compound with so many arguments. Those of its arguments are to follow.
pub fn put_compound(out: &mut Vec<u8>, name: &str, arity: u16) -> Result<(), AllocError>
    requires { length name.now < 2 ^ 16 }
    ensures { OnOk result (out.new.items ≡ out.old.items ++ item (Compound name.now arity)) }
{
    out.push(COMPOUND)?;
    out.extend_from_slice(&arity.to_be_bytes())?;
    put_name(out, name)
}

/// Adds a name and, before it, how many bytes it has.
fn put_name(out: &mut Vec<u8>, name: &str) -> Result<(), AllocError>
    requires { length name.now < 2 ^ 16 }
    ensures { OnOk result (out.new.items ≡ out.old.items ++ name_item name.now) }
{
    out.extend_from_slice(&(name.len() as u16).to_be_bytes())?;
    out.extend_from_slice(name.as_bytes())
}
