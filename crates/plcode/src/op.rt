//! The steps of clause bodies.

/// What a step is. Branches are sequences of steps of their own, each of which ends with `Proceed`, and are given by the places where
/// they begin.
#[derive(Clone, Copy)]
pub enum Op {
    /// A goal that is no control construct of branches: the term at the step's node.
    Goal,
    /// `;` of two branches.
    Or(u32, u32),
    /// `->` without an else: the condition, and the branch behind it. For want of the condition it is fail/0.
    IfThen(u32, u32),
    /// `;` whose first argument is an `->`: the condition, and the branches behind it and for want of it.
    IfThenElse(u32, u32, u32),
    /// The end of a sequence.
    Proceed,
}

/// A step: what it is, how many conjunctions are selected on the way to it, and the node of its goal. A control construct of
/// branches has its goal in them, and the end of a sequence has none: there the node is 0. A step costs as many steps of the search
/// as it has conjunctions, and one. A sequence stands reversed: behind the step at a place comes the one before it.
#[derive(Clone, Copy)]
pub struct Step {
    pub op: Op,
    pub conjunctions: u32,
    pub goal: u32,
}
