//! The pieces that goals come to.
ghost use Rattle.std.specs.Prelude.{◌≡◌, ◌≤◌, length, IfOk, OnOk};
ghost use Rattle.std.specs.List.{flat_map};
ghost use Rattle.plterm.specs.Reading.{arity, read, spelling, Fits};
ghost use Rattle.plcode.specs.Steps.{text, Extended};
ghost use Rattle.plcode.specs.Bodies.{IsCode, Splits};
ghost use Rattle.plcode.specs.Goals.{piece_at as piece_at_of, piece_for};

use crate::body::Piece;
use crate::draft::Draft;
use crate::lay::lay_term;
use plnames::kind::{Control, Kind};
use plnames::table::NameTable;
use plterm::node::Node as TermNode;
use plterm::walk::Terms;
use std::alloc::{AllocError, Global};

/// The piece of a control construct whose arguments are two goals.
fn control_piece(kind: Option<Kind>, count: u16) -> Option<Piece>
    ensures { result ≡ piece_for kind count }
{
    if count != 2 {
        return None;
    }
    match kind {
        Some(Kind::Control(Control::And)) => Some(Piece::And),
        Some(Kind::Control(Control::Or)) => Some(Piece::Or),
        Some(Kind::Control(Control::IfThen)) => Some(Piece::IfThen),
        _ => None,
    }
}

/// The piece of a node that is a control construct whose arguments are two goals.
fn piece_at(kinds: &NameTable, node: &TermNode) -> Option<Piece>
    ensures { result ≡ piece_at_of node.now }
{
    match node {
        TermNode::Compound(name, count) => {
            let kind = kinds.kind_of(name.as_str(), *count);
            control_piece(kind, *count)
        }
        TermNode::Var(_) | TermNode::Int(_) | TermNode::Atom(_) => None,
    }
}

/// The piece of the first goal, whose node was taken off; what is not a control construct of goals is laid down.
pub(crate) fn piece_of(
    alloc: Global,
    code: &mut Draft,
    kinds: &NameTable,
    node: &TermNode,
    goals: &mut Terms<'_>,
) -> Result<Piece, AllocError>
    requires room { arity node.now ≤ length goals.old }
    requires fits { Fits node.now }
    requires code { IsCode (text code.old) }
    ensures extended { OnOk result (Extended (text code.old) (text code.new)) }
    ensures code { OnOk result (IsCode (text code.new)) }
    ensures splits { IfOk result (λ p. Splits (text code.new) p (read node.now goals.old) goals.new) }
    ensures less { OnOk result (length (flat_map spelling goals.new) ≤ length (flat_map spelling goals.old)) }
{
    match piece_at(kinds, node) {
        Some(piece) => Ok(piece),
        None => {
            let node = node.copied()?;
            let at = lay_term(alloc, &mut code.nodes, &mut code.names, node, goals)?;
            Ok(Piece::Single(at))
        }
    }
}
