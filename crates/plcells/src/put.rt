//! Terms put on a heap.

ghost use Rattle.std.specs.Prelude.{◌≡◌, ◌≤◌, [], length, map, reverse, IfOk, OnOk, OnErr};
ghost use Rattle.plterm.specs.declared.node.Node.TheVariants.{Compound};
ghost use Rattle.plterm.specs.Reading.{tree_of, arity, IsTerm, Fits as FitsNode};
ghost use Rattle.plterm.specs.Variables.{AllBelow};
ghost use Rattle.plsubst.specs.Subst.{bind};
ghost use Rattle.platoms.specs.Names.{functor_name};
ghost use Rattle.plcells.specs.Store.{Keeps, Preserves, AreValues, IsFunctorOf, AddsBlock, renamed};
ghost use Rattle.plcells.specs.Blocks.{stands_for};
ghost use Rattle.plcells.specs.Putting.{standing, AreGiven, HasValue, PutsNode, PutsTerm};

use crate::cell::{Argument, Cell};
use crate::heap::Heap;
use crate::id::CellId;
use plterm::node::Node;
use plterm::term::Term;
use std::alloc::{AllocError, Global};

impl Heap {
    /// A new block of these values. It is ground where none of them is known to hold a variable.
    pub fn put_block(&mut self, f: u32, values: &[Argument]) -> Result<CellId, AllocError>
        requires functor { IsFunctorOf self.old.names f (length values.now) }
        requires given { AreGiven self.old values.now }
        ensures ok { IfOk result (λ p. AddsBlock self.old self.new p (functor_name self.old.names f) (map (stands_for self.old) values.now) []) }
        ensures err { OnErr result (self.new ≡ self.old) }
    {
        let ground = self.are_solid(values);
        self.build(f, ground, values)
    }

    /// A new block of these values, of which the last one is the first argument.
    fn put_reversed(&mut self, f: u32, values: &mut [Argument]) -> Result<CellId, AllocError>
        requires functor { IsFunctorOf self.old.names f (length values.old) }
        requires given { AreGiven self.old (reverse values.old) }
        ensures ok { IfOk result (λ p. AddsBlock self.old self.new p (functor_name self.old.names f) (map (stands_for self.old) (reverse values.old)) []) }
        ensures err { OnErr result (self.new ≡ self.old) }
    {
        values.reverse();
        self.put_block(f, values)
    }

    /// A new compound of the topmost values, the first argument on top: it takes their place on the stack.
    fn put_compound(
        &mut self,
        stack: &mut Vec<Argument>,
        f: u32,
        count: u16,
    ) -> Result<(), AllocError>
        requires functor { IsFunctorOf self.old.names f count }
        requires room { count ≤ length stack.old.items }
        requires given { AreGiven self.old (reverse stack.old.items) }
        ensures ok { OnOk result (PutsNode self.old self.new [] (Compound (functor_name self.old.names f) count) stack.old.items stack.new.items) }
        ensures keeps { Keeps self.old self.new }
    {
        let first = stack.len() - count as usize;
        let p = self.put_reversed(f, &mut stack[first..])?;
        stack.truncate(first);
        stack.push(Argument::Value(Cell::Str(p)))?;
        Ok(())
    }

    /// A value for a node whose arguments are topmost on the stack, in their place.
    fn put_node(
        &mut self,
        stack: &mut Vec<Argument>,
        node: &Node,
        values: &[Cell],
    ) -> Result<(), AllocError>
        requires fits { FitsNode node.now }
        requires room { arity node.now ≤ length stack.old.items }
        requires given { AreGiven self.old (reverse stack.old.items) }
        requires values { AreValues self.old values.now }
        requires value { HasValue values.now node.now }
        ensures ok { OnOk result (PutsNode self.old self.new values.now node.now stack.old.items stack.new.items) }
        ensures keeps { Keeps self.old self.new }
    {
        match node {
            Node::Var(x) => stack.push(Argument::Value(values[*x as usize]))?,
            Node::Int(number) => {
                let v = self.integer(*number)?;
                stack.push(Argument::Value(v))?;
            }
            Node::Atom(name) => {
                let a = self.atom(name)?;
                stack.push(Argument::Value(Cell::Atom(a)))?;
            }
            Node::Compound(name, count) => {
                let f = self.functor_named(name, *count)?;
                self.put_compound(stack, f, *count)?;
            }
        }
        Ok(())
    }

    /// A value for a term that is given in prefix order from its end. What the stack held is gone.
    fn put_all(
        &mut self,
        stack: &mut Vec<Argument>,
        nodes: &[Node],
        values: &[Cell],
    ) -> Result<Cell, AllocError>
        requires term { IsTerm (reverse nodes.now) }
        requires below { AllBelow (length values.now) (tree_of (reverse nodes.now)) }
        requires values { AreValues self.old values.now }
        ensures ok { IfOk result (λ v. PutsTerm self.old self.new v (bind (standing self.old values.now) (tree_of (reverse nodes.now)))) }
        ensures keeps { Keeps self.old self.new }
    {
        stack.clear();
        for node in nodes {
            self.put_node(stack, node, values)?;
        }
        let Some(Argument::Value(v)) = stack.pop() else {
            unreachable!()
        };
        Ok(v)
    }

    /// Puts a term that is given in prefix order from its end, whose variable x is what value number x stands for: its value. What the stack
    /// held is gone. After an `Err` there may be more names, and nothing else.
    pub fn put_nodes(
        &mut self,
        stack: &mut Vec<Argument>,
        nodes: &[Node],
        values: &[Cell],
    ) -> Result<Cell, AllocError>
        requires term { IsTerm (reverse nodes.now) }
        requires below { AllBelow (length values.now) (tree_of (reverse nodes.now)) }
        requires values { AreValues self.old values.now }
        ensures ok { IfOk result (λ v. PutsTerm self.old self.new v (bind (standing self.old values.now) (tree_of (reverse nodes.now)))) }
        ensures preserves { Preserves self.old self.new }
        ensures err { OnErr result (self.new ≡ renamed self.old self.new.names) }
    {
        let boundary = self.boundary();
        let mark = self.mark();
        match self.put_all(stack, nodes, values) {
            Ok(v) => {
                self.forget(boundary);
                Ok(v)
            }
            Err(e) => {
                self.cut_back(mark, boundary);
                Err(e)
            }
        }
    }

    /// Puts a term, whose variable x is what value number x stands for: its value. After an `Err` there may be more names, and nothing else.
    pub fn put(&mut self, alloc: Global, term: &Term, values: &[Cell]) -> Result<Cell, AllocError>
        requires below { AllBelow (length values.now) term.now }
        requires values { AreValues self.old values.now }
        ensures ok { IfOk result (λ v. PutsTerm self.old self.new v (bind (standing self.old values.now) term.now)) }
        ensures preserves { Preserves self.old self.new }
        ensures err { OnErr result (self.new ≡ renamed self.old self.new.names) }
    {
        let mut stack = Vec::new(alloc);
        self.put_nodes(&mut stack, term.nodes(), values)
    }
}
