//! Values of a stack: goals, and the terms of clauses.
ghost use Rattle.std.specs.Prelude.{◌≡◌, ◌<◌, ◌≤◌, length, map, None, IfOk, IfSome, IfNone, OnOk, OnErr};
ghost use Rattle.plterm.specs.Tree.{Tree};
ghost use Rattle.plsubst.specs.Subst.{bind};
ghost use Rattle.plclause.specs.Conversion.{converted};
ghost use Rattle.plcells.specs.Store.{value, AreValues, IsValue};
ghost use Rattle.plgoals.specs.Callables.{called, IsCallable, IsNoGoal};
ghost use Rattle.plgoals.specs.Goals.{IsGoal};
ghost use Rattle.plgoals.specs.Extended.{Extends as ExtendsTerm};
ghost use Rattle.plenv.specs.Env.{over};
ghost use Rattle.plstack.specs.State.{renamed, Extends};
ghost use Rattle.plstack.specs.Arguments.{IsArgument, KeepsArguments};

use crate::stack::Stack;
use plcells::cell::Cell;
use plcode::callee::Number;
use plgoals::extend::Extended;
use pllinks::item::ClauseGoals;
use std::alloc::{AllocError, Global};

impl Stack {
    /// The goal that the term of a value stands for, if it is convertible: the goal's value (ISO/IEC 13211-1 7.6.2). After an `Err` there may be
    /// more names, and nothing else.
    pub fn goal_of(&mut self, alloc: Global, v: Cell) -> Result<Option<Cell>, AllocError>
        requires { IsValue self.old.env.heap v }
        ensures some { IfOk result (λ found. IfSome found (λ w. IsGoal self.old.env.heap self.new.env.heap v w)) }
        ensures none { IfOk result (λ found. IfNone found (converted (value self.old.env.heap v) ≡ None)) }
        ensures count { self.new.env.count ≡ self.old.env.count }
        ensures stays { Extends self.old self.new }
        ensures back { OnErr result (self.new ≡ renamed self.old self.new.env.heap.names) }
    {
        let goal = self.env.goal_of(alloc, v);
        let _ = self.env.heap();
        goal
    }

    /// The term of a value with further arguments behind its own, as call/N makes it (ISO/IEC 13211-1 Cor.2 8.15.4). After an `Err` there may be
    /// more names, and nothing else.
    pub fn with_arguments(
        &mut self,
        alloc: Global,
        v: Cell,
        further: &[Cell],
    ) -> Result<Extended, AllocError>
        requires value { IsValue self.old.env.heap v }
        requires further { AreValues self.old.env.heap further.now }
        requires some { 0 < length further.now }
        requires few { length further.now ≤ 1024 }
        ensures ok { IfOk result (λ r. ExtendsTerm self.old.env.heap self.new.env.heap v further.now r) }
        ensures count { self.new.env.count ≡ self.old.env.count }
        ensures stays { Extends self.old self.new }
        ensures back { OnErr result (self.new ≡ renamed self.old self.new.env.heap.names) }
    {
        let made = self.env.with_arguments(alloc, v, further);
        let _ = self.env.heap();
        made
    }

    /// Puts the arguments of the goal at a node of a clause, whose slots are those of a run: the number by which it is called, and a list made their
    /// values; none for a variable or an integer, and the list is empty.
    pub fn put_goal(
        &mut self,
        run: ClauseGoals,
        node: u32,
        values: &mut Vec<Cell>,
    ) -> Result<Option<Number>, AllocError>
        requires { (t : Tree) × IsArgument self.old run node t }
        ensures callable { IfOk result (λ found. IfSome found (λ n. IsCallable self.new.env.heap.names n (length values.new.items))) }
        ensures is { IfOk result (λ found. IfSome found (λ n. (t : Tree) → IsArgument self.old run node t → bind (over self.old.env run.base) t ≡ called self.new.env.heap.names n (map (value self.new.env.heap) values.new.items))) }
        ensures none { IfOk result (λ found. IfNone found ((t : Tree) → IsArgument self.old run node t → IsNoGoal (bind (over self.old.env run.base) t))) }
        ensures values { OnOk result (AreValues self.new.env.heap values.new.items) }
        ensures few { OnOk result (length values.new.items ≤ 1024) }
        ensures arguments { KeepsArguments self.old self.new }
        ensures count { self.new.env.count ≡ self.old.env.count }
        ensures stays { Extends self.old self.new }
    {
        let _ = self.env.heap();
        let put = self
            .env
            .put_goal(self.basis.code.code().nodes(), node, run.base, values);
        let _ = self.env.heap();
        put
    }

    /// Puts the term of a node of a clause, whose slots are those of a run: its value.
    pub fn put_node(&mut self, run: ClauseGoals, node: u32) -> Result<Cell, AllocError>
        requires { (t : Tree) × IsArgument self.old run node t }
        ensures value { IfOk result (λ v. IsValue self.new.env.heap v) }
        ensures is { IfOk result (λ v. (t : Tree) → IsArgument self.old run node t → value self.new.env.heap v ≡ bind (over self.old.env run.base) t) }
        ensures count { self.new.env.count ≡ self.old.env.count }
        ensures stays { Extends self.old self.new }
    {
        let _ = self.env.heap();
        let put = self
            .env
            .put_node(self.basis.code.code().nodes(), node, run.base);
        let _ = self.env.heap();
        put
    }
}
