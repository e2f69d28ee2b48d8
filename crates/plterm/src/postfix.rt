//! From nodes each behind its arguments to nodes each before them, in time linear in their number.
ghost use Rattle.std.specs.Prelude.{◌≡◌, [], List, length, reverse, IfOk, OnOk};
ghost use Rattle.plterm.specs.Tree.{Tree};
ghost use Rattle.plterm.specs.Reading.{reading, IsForest};
ghost use Rattle.plterm.specs.Building.{trees_of};
ghost use Rattle.plterm.specs.Postfix.{all_moved, IsPostfix, IsReady};
ghost use Rattle.plterm.specs.Closing.{Closes};

use crate::node::Node;
use std::alloc::{AllocError, Global};

/// A node whose arguments are still to come, and how many of them.
#[derive(Drop)]
pub struct Open {
    pub node: Node,
    pub left: usize,
}

/// The nodes in prefix order from the end, of nodes each behind its arguments.
pub fn reordered(alloc: Global, mut nodes: Vec<Node>) -> Result<Vec<Node>, AllocError>
    requires { IsPostfix nodes.items }
    ensures forest { IfOk result (λ made. IsForest (reverse made.items)) }
    ensures trees { IfOk result (λ made. reading (reverse made.items) ≡ all_moved (trees_of nodes.items) []) }
{
    let mut made = Vec::with_capacity(alloc, nodes.len())?;
    let mut waiting = Vec::new(alloc);
    'nodes: while let Some(node) = nodes.pop() {
        let left = node.arity();
        waiting.push(Open { node, left })?;
        close(&mut waiting, &mut made)?;
    }
    Ok(made)
}

/// Closes the open nodes that have all their arguments, and counts the next tree as an argument of the one behind them.
fn close(waiting: &mut Vec<Open>, made: &mut Vec<Node>) -> Result<(), AllocError>
    ensures { OnOk result ((trees : List Tree) → IsReady (reverse waiting.old.items) trees (reading (reverse made.old.items)) → IsForest (reverse made.old.items)
        → Closes (reverse waiting.old.items) (reverse waiting.new.items) (reverse made.old.items) (reverse made.new.items) trees) }
{
    'open: while let Some(top) = waiting.pop() {
        let Open { node, left } = top;
        if left > 0 {
            waiting.push(Open {
                node,
                left: left - 1,
            })?;
            return Ok(());
        }
        made.push(node)?;
    }
    Ok(())
}
