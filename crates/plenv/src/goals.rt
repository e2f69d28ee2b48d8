//! Values as goals.
ghost use Rattle.std.specs.Prelude.{◌≡◌, ℕ, ◌<◌, ◌≤◌, length, map, None, IfOk, IfSome, IfNone, OnOk, OnErr};
ghost use Rattle.plsubst.specs.Subst.{bind};
ghost use Rattle.plclause.specs.Conversion.{converted};
ghost use Rattle.plcells.specs.Store.{value, AreValues, IsValue};
ghost use Rattle.plcode.specs.Laying.{IsLaid};
ghost use Rattle.plcode.specs.Packed.{node_at, IsArgument, IsBlockAt};
ghost use Rattle.plgoals.specs.Callables.{called, IsCallable, IsNoGoal};
ghost use Rattle.plgoals.specs.Goals.{IsGoal};
ghost use Rattle.plgoals.specs.Extended.{Extends};
ghost use Rattle.plenv.specs.Blocks.{block_at};
ghost use Rattle.plenv.specs.Changes.{Stays};
ghost use Rattle.plenv.specs.Env.{over, renamed, Covers};
ghost use Rattle.plenv.specs.Rows.{tree_at};

use crate::env::{Environment, known};
use crate::slot::Row;
use plcells::cell::Cell;
use plcode::callee::Number;
use plcode::node::Node;
use plgoals::callable::arguments_of;
use plgoals::extend::{self, Extended};
use plgoals::goal;
use std::alloc::{AllocError, Global};

impl Environment {
    /// The goal that the term of a value stands for, if it is convertible: the goal's value (ISO/IEC 13211-1 7.6.2). After an `Err` there may be
    /// more names, and nothing else.
    pub fn goal_of(&mut self, alloc: Global, v: Cell) -> Result<Option<Cell>, AllocError>
        requires { IsValue self.old.heap v }
        ensures some { IfOk result (λ found. IfSome found (λ w. IsGoal self.old.heap self.new.heap v w)) }
        ensures none { IfOk result (λ found. IfNone found ((converted (value self.old.heap v) ≡ None) × (self.new ≡ self.old))) }
        ensures stays { Stays self.old self.new }
        ensures back { OnErr result (self.new ≡ renamed self.old self.new.heap.names) }
    {
        goal::goal_of(&mut self.heap, alloc, v)
    }

    /// The term of a value with further arguments behind its own, as call/N makes it (ISO/IEC 13211-1 Cor.2 8.15.4). After an `Err` there may be
    /// more names, and nothing else.
    pub fn with_arguments(
        &mut self,
        alloc: Global,
        v: Cell,
        further: &[Cell],
    ) -> Result<Extended, AllocError>
        requires value { IsValue self.old.heap v }
        requires further { AreValues self.old.heap further.now }
        requires some { 0 < length further.now }
        requires few { length further.now ≤ 1024 }
        ensures is { IfOk result (λ r. Extends self.old.heap self.new.heap v further.now r) }
        ensures stays { Stays self.old self.new }
        ensures back { OnErr result (self.new ≡ renamed self.old self.new.heap.names) }
    {
        extend::with_arguments(&mut self.heap, alloc, v, further)
    }

    /// Puts the arguments of the compound whose block stands at a place, of a clause whose slots begin at a place: the number by which it is
    /// called, and a list made their values.
    #[inline(always)]
    fn put_arguments(
        &mut self,
        nodes: &[Node],
        root: u32,
        base: u32,
        values: &mut Vec<Cell>,
    ) -> Result<Number, AllocError>
        requires laid { IsLaid self.old.heap.names nodes.now }
        requires block { (from : ℕ) × ((f : ℕ) × ((k : ℕ) × IsBlockAt nodes.now from root f k)) }
        requires covers { Covers self.old base (block_at self.old.heap.names nodes.now root) }
        ensures callable { IfOk result (λ n. IsCallable self.new.heap.names n (length values.new.items)) }
        ensures is { IfOk result (λ n. bind (over self.old base) (block_at self.old.heap.names nodes.now root) ≡ called self.new.heap.names n (map (value self.new.heap) values.new.items)) }
        ensures values { OnOk result (AreValues self.new.heap values.new.items) }
        ensures few { OnOk result (length values.new.items ≤ 1024) }
        ensures stays { Stays self.old self.new }
        ensures names { self.new.heap.names ≡ self.old.heap.names }
    {
        let Node::Fun(f, count) = nodes[root as usize] else {
            unreachable!()
        };
        let row = Row {
            at: root + 1,
            count,
        };
        self.put_row(nodes, row, base, values)?;
        Ok(Number::Functor(f))
    }

    /// Puts the arguments of the goal at a node, of a clause whose slots begin at a place: the number by which it is called, and a list made their
    /// values; none for a variable or an integer, and the list is empty. The goal itself is put only where it is no compound.
    pub fn put_goal(
        &mut self,
        nodes: &[Node],
        at: u32,
        base: u32,
        values: &mut Vec<Cell>,
    ) -> Result<Option<Number>, AllocError>
        requires laid { IsLaid self.old.heap.names nodes.now }
        requires within { at < length nodes.now }
        requires whole { IsArgument 0 at (node_at nodes.now at) }
        requires covers { Covers self.old base (tree_at self.old.heap.names nodes.now at) }
        ensures callable { IfOk result (λ found. IfSome found (λ n. IsCallable self.new.heap.names n (length values.new.items))) }
        ensures is { IfOk result (λ found. IfSome found (λ n. bind (over self.old base) (tree_at self.old.heap.names nodes.now at) ≡ called self.new.heap.names n (map (value self.new.heap) values.new.items))) }
        ensures none { IfOk result (λ found. IfNone found (IsNoGoal (bind (over self.old base) (tree_at self.old.heap.names nodes.now at)))) }
        ensures values { OnOk result (AreValues self.new.heap values.new.items) }
        ensures few { OnOk result (length values.new.items ≤ 1024) }
        ensures stays { Stays self.old self.new }
        ensures names { self.new.heap.names ≡ self.old.heap.names }
    {
        if let Node::Sub(_, root) = nodes[at as usize] {
            let number = self.put_arguments(nodes, root, base, values)?;
            return Ok(Some(number));
        }
        let goal = self.put_node(nodes, at, base)?;
        known(&self.heap);
        arguments_of(&self.heap, goal, values)
    }
}
