//! Terms of compiled clauses, put as values.
ghost use Rattle.std.specs.Prelude.{◌≡◌, ◌+◌, ◌^◌, ◌<◌, ◌≤◌, suc, map, length, get_or, Some, None, IfOk, OnOk, OnErr};
ghost use Rattle.plterm.specs.Tree.{var};
ghost use Rattle.plsubst.specs.Subst.{bind};
ghost use Rattle.plcells.specs.Store.{AddsVariable, IsFresh};
ghost use Rattle.plcode.specs.Nodes.{Whole, tree, values as values_of};
ghost use Rattle.plcode.specs.Laying.{IsLaid};
ghost use Rattle.plcode.specs.Packed.{node_at, ArePacked, IsArgument, IsBlockAt, Packed};
ghost use Rattle.plcode.specs.declared.node.Node.TheVariants.{Fun as FunNode};
ghost use Rattle.plenv.specs.declared.slot.Slot.TheVariants.{Free as FreeSlot};
ghost use Rattle.plenv.specs.Env.{over, slot_at, variable, Covers};
ghost use Rattle.plenv.specs.Changes.{NoneFreed, Puts, PutsAll, Stays};
ghost use Rattle.plenv.specs.Blocks.{block_at, AreBuilt, HasFree, PutsBlock};
ghost use Rattle.plenv.specs.Rows.{row_at, tree_at, CoversAll};

use crate::block::{BlocksAt, Gathered, gather};
use crate::env::{Environment, known, note};
use crate::slot::{Noted, Row, Slot};
use plcells::cell::Cell;
use plcells::heap::Heap;
use plcells::id::CellId;
use plcode::node::Node;
use std::alloc::AllocError;

/// A new variable on the heap; the cells before it refer to one another alone, which is noted for the occurs check.
fn add_variable(heap: &mut Heap, number: u64) -> Result<CellId, AllocError>
    requires { IsFresh heap.old number }
    ensures ok { IfOk result (λ c. AddsVariable heap.old heap.new c number) }
    ensures err { OnErr result (heap.new ≡ heap.old) }
{
    heap.note_closed()?;
    heap.variable(number)
}

impl Environment {
    /// Puts the variable of a free slot on the heap: its value, which the slot holds from now on. A slot that is set has its value already.
    #[inline(always)]
    pub fn put_variable(&mut self, slot: u32) -> Result<Cell, AllocError>
        requires within { slot < length self.old.slots }
        ensures ok { (n : _) → slot_at self.old.slots slot ≡ FreeSlot n → IfOk result (λ v. Puts self.old self.new v (var n)) }
        ensures variable { IfOk result (λ v. Puts self.old self.new v (variable self.old slot)) }
        ensures set { OnOk result ((n : _) → slot_at self.new.slots slot ≡ FreeSlot n → ⊥) }
        ensures freer { NoneFreed self.old self.new }
        ensures names { self.new.heap.names ≡ self.old.heap.names }
        ensures err { OnErr result (Stays self.old self.new) }
    {
        self.put_slot(slot as usize)
    }

    /// The same for any slot.
    #[inline(always)]
    fn put_slot(&mut self, slot: usize) -> Result<Cell, AllocError>
        requires within { slot < length self.old.slots }
        ensures ok { (n : _) → slot_at self.old.slots slot ≡ FreeSlot n → IfOk result (λ v. Puts self.old self.new v (var n)) }
        ensures variable { IfOk result (λ v. Puts self.old self.new v (variable self.old slot)) }
        ensures set { OnOk result ((n : _) → slot_at self.new.slots slot ≡ FreeSlot n → ⊥) }
        ensures freer { NoneFreed self.old self.new }
        ensures names { self.new.heap.names ≡ self.old.heap.names }
        ensures err { OnErr result (Stays self.old self.new) }
    {
        let number = match self.slots[slot] {
            Slot::Set(v) => return Ok(v),
            Slot::Free(number) => number,
        };
        let is_old = slot < self.boundary;
        note(
            &mut self.noted,
            is_old,
            Noted {
                slot: slot as u32,
                number,
            },
        )?;
        let c = add_variable(&mut self.heap, number)?;
        self.slots[slot] = Slot::Set(Cell::Ref(c));
        Ok(Cell::Ref(c))
    }

    /// Puts the block at a place behind those before it, where no more than one of its variables has a free slot: how many arguments it has.
    /// That variable stands in the block, and its slot refers to it from now on.
    #[inline(always)]
    fn put_block(
        &mut self,
        nodes: &[Node],
        place: u32,
        run: &BlocksAt,
    ) -> Result<Option<u16>, AllocError>
        requires laid { IsLaid self.old.heap.names nodes.now }
        requires block { (f : _) × ((k : _) × IsBlockAt nodes.now run.now.from place f k) }
        requires built { AreBuilt self.old.heap nodes.now run.now place }
        ensures some { IfOk result (λ r. (k : _) → r ≡ Some k → PutsBlock self.old self.new nodes.now run.now place k) }
        ensures none { IfOk result (λ r. r ≡ None → (f k : _) → IsBlockAt nodes.now run.now.from place f k → HasFree self.old.slots run.now.base nodes.now place (suc (place + k))) }
        ensures stays { Stays self.old self.new }
        ensures names { self.new.heap.names ≡ self.old.heap.names }
        ensures freer { NoneFreed self.old self.new }
        ensures few { length self.old.heap.cells < 2 ^ 32 }
    {
        known(&self.heap);
        let Node::Fun(f, arity) = nodes[place as usize] else {
            unreachable!()
        };
        let first = place as usize + 1;
        let row = &nodes[first..first + arity as usize];
        match gather(&mut self.heap, &mut self.block, &self.slots, row, run)? {
            Gathered::Several => Ok(None),
            Gathered::Whole => {
                self.heap.build(f, false, &self.block)?;
                Ok(Some(arity))
            }
            Gathered::One(at, number) => {
                let Node::Var(s) = row[at] else {
                    unreachable!()
                };
                let slot = run.base as usize + s as usize;
                let is_old = slot < self.boundary;
                let slot_number = slot as u32;
                let set = Noted {
                    slot: slot_number,
                    number,
                };
                note(&mut self.noted, is_old, set)?;
                let p = self.heap.build(f, false, &self.block)?;
                known(&self.heap);
                self.slots[slot] = Slot::Set(Cell::Ref(p.arg(1 + at as u32)));
                Ok(Some(arity))
            }
        }
    }

    /// Puts the blocks of a compound, of a clause whose slots begin at a place: its value. None where a block has several
    /// variables with free slots.
    fn put_blocks(
        &mut self,
        nodes: &[Node],
        from: u32,
        root: u32,
        base: u32,
    ) -> Result<Option<Cell>, AllocError>
        requires laid { IsLaid self.old.heap.names nodes.now }
        requires packed { Packed nodes.now from root from }
        requires covers { Covers self.old base (block_at self.old.heap.names nodes.now root) }
        ensures some { IfOk result (λ r. (v : _) → r ≡ Some v → Puts self.old self.new v (bind (over self.old base) (block_at self.old.heap.names nodes.now root))) }
        ensures none { IfOk result (λ r. r ≡ None → (f k : _) → node_at nodes.now root ≡ FunNode f k → HasFree self.old.slots base nodes.now from (suc (root + k))) }
        ensures stays { Stays self.old self.new }
        ensures names { self.new.heap.names ≡ self.old.heap.names }
        ensures freer { NoneFreed self.old self.new }
    {
        known(&self.heap);
        let start = self.heap.next();
        let run = BlocksAt { from, start, base };
        let mut place = from;
        loop {
            let Some(arity) = self.put_block(nodes, place, &run)? else {
                return Ok(None);
            };
            if place == root {
                return Ok(Some(Cell::Str(start.after(root - from))));
            }
            place += 1 + u32::from(arity);
        }
    }

    /// Puts the variables among some nodes whose slots are free.
    fn put_variables(&mut self, row: &[Node], base: u32) -> Result<(), AllocError>
        ensures set { OnOk result (HasFree self.new.slots base row.now 0 (length row.now) → ⊥) }
        ensures stays { Stays self.old self.new }
        ensures names { self.new.heap.names ≡ self.old.heap.names }
        ensures freer { NoneFreed self.old self.new }
    {
        for node in row {
            if let Node::Var(s) = node {
                let slot = base as usize + *s as usize;
                if slot < self.slot_count() {
                    self.put_slot(slot)?;
                }
            }
        }
        Ok(())
    }

    /// Puts a compound, of a clause whose slots begin at a place: its value.
    #[inline(always)]
    fn put_compound(
        &mut self,
        nodes: &[Node],
        from: u32,
        root: u32,
        base: u32,
    ) -> Result<Cell, AllocError>
        requires laid { IsLaid self.old.heap.names nodes.now }
        requires packed { Packed nodes.now from root from }
        requires covers { Covers self.old base (block_at self.old.heap.names nodes.now root) }
        ensures ok { IfOk result (λ v. Puts self.old self.new v (bind (over self.old base) (block_at self.old.heap.names nodes.now root))) }
        ensures stays { Stays self.old self.new }
        ensures names { self.new.heap.names ≡ self.old.heap.names }
        ensures freer { NoneFreed self.old self.new }
    {
        if let Some(v) = self.put_blocks(nodes, from, root, base)? {
            return Ok(v);
        }
        let Node::Fun(_, arity) = nodes[root as usize] else {
            unreachable!()
        };
        let last = root as usize + 1 + arity as usize;
        let row = &nodes[from as usize..last];
        self.put_variables(row, base)?;
        let Some(v) = self.put_blocks(nodes, from, root, base)? else {
            unreachable!()
        };
        Ok(v)
    }

    /// Puts the term of a node, of a clause whose slots begin at a place: its value.
    #[inline(always)]
    pub fn put_node(&mut self, nodes: &[Node], at: u32, base: u32) -> Result<Cell, AllocError>
        requires laid { IsLaid self.old.heap.names nodes.now }
        requires packed { ArePacked nodes.now }
        requires within { at < length nodes.now }
        requires whole { IsArgument 0 at (node_at nodes.now at) }
        requires covers { Covers self.old base (tree_at self.old.heap.names nodes.now at) }
        ensures ok { IfOk result (λ v. Puts self.old self.new v (bind (over self.old base) (tree_at self.old.heap.names nodes.now at))) }
        ensures names { self.new.heap.names ≡ self.old.heap.names }
        ensures freer { NoneFreed self.old self.new }
        ensures err { OnErr result (Stays self.old self.new) }
    {
        self.put_at(nodes, at as usize, base)
    }

    /// The same for any place.
    #[inline(always)]
    fn put_at(&mut self, nodes: &[Node], at: usize, base: u32) -> Result<Cell, AllocError>
        requires laid { IsLaid self.old.heap.names nodes.now }
        requires packed { ArePacked nodes.now }
        requires within { at < length nodes.now }
        requires whole { IsArgument 0 at (node_at nodes.now at) }
        requires covers { Covers self.old base (tree_at self.old.heap.names nodes.now at) }
        ensures ok { IfOk result (λ v. Puts self.old self.new v (bind (over self.old base) (tree_at self.old.heap.names nodes.now at))) }
        ensures names { self.new.heap.names ≡ self.old.heap.names }
        ensures freer { NoneFreed self.old self.new }
        ensures err { OnErr result (Stays self.old self.new) }
    {
        match nodes[at] {
            Node::Var(s) => self.put_slot(base as usize + s as usize),
            Node::Int(number) => self.heap.integer(number),
            Node::Atom(a) => Ok(Cell::Atom(a)),
            Node::Sub(from, root) => self.put_compound(nodes, from, root, base),
            Node::Fun(_, _) => unreachable!(),
        }
    }

    /// Puts a row of terms of a clause whose slots begin at a place: their values, in the place of those that the list holds.
    #[inline(always)]
    pub fn put_row(
        &mut self,
        nodes: &[Node],
        row: Row,
        base: u32,
        values: &mut Vec<Cell>,
    ) -> Result<(), AllocError>
        requires laid { IsLaid self.old.heap.names nodes.now }
        requires packed { ArePacked nodes.now }
        requires row { row.at + row.count ≤ length nodes.now }
        requires whole { (j : _) → row.at ≤ j → j < row.at + row.count → IsArgument 0 j (node_at nodes.now j) }
        requires covers { CoversAll self.old base (row_at self.old.heap.names nodes.now row) }
        ensures ok { OnOk result (PutsAll self.old self.new values.new.items (map (bind (over self.old base)) (row_at self.old.heap.names nodes.now row))) }
        ensures names { self.new.heap.names ≡ self.old.heap.names }
        ensures freer { NoneFreed self.old self.new }
        ensures err { OnErr result (Stays self.old self.new) }
    {
        values.clear();
        let first = row.at as usize;
        for i in 0..row.count as usize {
            let v = self.put_at(nodes, first + i, base)?;
            values.push(v)?;
        }
        Ok(())
    }
}
