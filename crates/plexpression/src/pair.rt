//! Compounds of two arguments that stand in a clause.
ghost use Rattle.std.specs.Prelude.{◌≡◌, ℕ, List, [], ◌∷◌, IfSome, IfNone};
ghost use Rattle.plterm.specs.Tree.{Tree, compound, trees};
ghost use Rattle.plenv.specs.Env.{Env};
ghost use Rattle.plenv.specs.Rows.{tree_at};
ghost use Rattle.plexpression.specs.Nodes.{IsNode, IsPair};

use plcode::node::Node;

/// A compound of two arguments: the number of its functor, and the nodes of its arguments.
#[derive(Clone, Copy, Debug, PartialEq, Eq)]
pub struct Pair {
    pub functor: u32,
    pub left: u32,
    pub right: u32,
}

/// The compound of two arguments that the term of a node is, if it is one. No term is put.
pub fn pair_at(nodes: &[Node], at: u32) -> Option<Pair>
    requires { (e : Env) × ((base : ℕ) × IsNode e nodes.now base at) }
    ensures some { (e : Env) (base : ℕ) → IsNode e nodes.now base at → IfSome result (IsPair e nodes.now base at) }
    ensures none { (e : Env) (base : ℕ) → IsNode e nodes.now base at → IfNone result ((f : List ℕ) (t u : Tree) → tree_at e.heap.names nodes.now at ≡ compound f (trees (t ∷ u ∷ [])) → ⊥) }
{
    let Node::Sub(_, root) = nodes[at as usize] else {
        return None;
    };
    let Node::Fun(functor, arity) = nodes[root as usize] else {
        return None;
    };
    if arity != 2 {
        return None;
    }
    Some(Pair {
        functor,
        left: root + 1,
        right: root + 2,
    })
}
