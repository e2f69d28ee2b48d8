//! Copies of terms, by the levels of the handlers that they are kept for.
ghost use Rattle.std.specs.Prelude.{◌≡◌, ◌++◌, ◌∷◌, ◌<◌, ◌≤◌, [], length, filter, nat_lt, nat_le, true, false, vec_len, vec_capacity, OnOk, OnErr};
ghost use Rattle.std.specs.List.Sorted.{IsNonDecreasingBy, IsPartitionPoint};
ghost use Rattle.plcells.specs.Store.{value, IsValue};
ghost use Rattle.plsearch.specs.Collecting.{kept_below, with_copy};
ghost use Rattle.plcollect.specs.declared.collection.Held.{Held as OfHeld};
ghost use Rattle.plcollect.specs.Copies.{kept_of, AreCopies};

use crate::copy::Copier;
use plcells::cell::Cell;
use plcells::heap::Heap;
use pllinks::level::Level;
use plterm::node::Node;
use std::alloc::{AllocError, Global};
use std::marker::Model;

/// A copy among the nodes: the level of the handler that it is kept for, where its nodes begin, how many they are, and how many variables it
/// has.
#[derive(Clone, Copy)]
pub struct Held {
    pub(crate) level: Level,
    pub(crate) from: usize,
    pub(crate) count: usize,
    pub(crate) variables: u32,
}

/// The copies that are kept, the latest last. Those for a handler stand behind those for the handlers outside of it.
#[derive(Drop)]
pub struct Collection {
    // The nodes of all copies, those of a copy in prefix order from the end.
    pub(crate) nodes: Vec<Node>,
    pub(crate) held: Vec<Held>,
    copier: Copier,
}

impl Model for Collection {
    ghost use Rattle.std.specs.Coded.{codes};
    ghost use Rattle.std.specs.Prelude.{List};
    ghost use Rattle.plterm.specs.Reading.{tree_code};
    ghost use Rattle.plsearch.specs.Types.{Kept as OfKept};
    ghost use Rattle.plcollect.specs.Copies.{kept_of, AreCopies};

    ghost Value = { List OfKept };

    ghost coded = { Prim.hlevel (codes, tree_code) };

    ghost view = { λ c. kept_of c.nodes.items c.held.items };

    ghost invariant = { λ c. AreCopies c.nodes.items c.held.items };
}

impl Collection {
    /// No copies.
    pub fn new(alloc: Global) -> Collection
        ensures { result ≡ [] }
    {
        Collection {
            nodes: Vec::new(alloc),
            held: Vec::new(alloc),
            copier: Copier::new(alloc),
        }
    }

    /// Keeps a copy of a value's term for the handler of a level, and nothing any more for those inside of it. It takes time linear in the term.
    pub fn keep(
        &mut self,
        alloc: Global,
        heap: &Heap,
        v: Cell,
        level: Level,
    ) -> Result<(), AllocError>
        requires { IsValue heap.now v }
        ensures ok { OnOk result (self.new ≡ with_copy level (value heap.now v) self.old) }
        ensures err { OnErr result (self.new ≡ self.old) }
    {
        let variables = self.copier.copy(alloc, heap, v)?;
        let from = self.nodes.len();
        let count = self.copier.nodes.len();
        self.held.reserve(1)?;
        self.nodes.append(&mut self.copier.nodes)?;
        let one = Held {
            level,
            from,
            count,
            variables,
        };
        hold(&mut self.held, one);
        Ok(())
    }

    /// Keeps nothing any more for handlers from a level on.
    pub fn drop_from(&mut self, level: Level)
        ensures { self.new ≡ kept_below level self.old }
    {
        leave_below(&mut self.held, level);
        trim(&mut self.nodes, &self.held);
    }
}

/// The copies for handlers from a level on.
pub(crate) fn held_from(held: &[Held], level: Level) -> &[Held]
    requires { IsNonDecreasingBy (λ (h : OfHeld). h.level) held.now }
    ensures { result.now ≡ filter (λ (h : OfHeld). nat_le level h.level) held.now }
{
    &held[place_of(held, level)..]
}

/// Puts a copy behind the others, and takes those off that are kept for handlers inside of its own.
fn hold(held: &mut Vec<Held>, one: Held)
    requires levels { IsNonDecreasingBy (λ (h : OfHeld). h.level) held.old.items }
    requires room { vec_len held.old < vec_capacity held.old }
    ensures { held.new.items ≡ filter (λ (h : OfHeld). nat_le h.level one.level) held.old.items ++ one ∷ [] }
{
    let place = place_behind(held, one.level);
    held.truncate(place);
    match held.push(one) {
        Ok(()) => {}
        Err(_) => unreachable!(),
    }
}

/// Leaves of the copies those for handlers below a level.
fn leave_below(held: &mut Vec<Held>, level: Level)
    requires levels { IsNonDecreasingBy (λ (h : OfHeld). h.level) held.old.items }
    ensures { held.new.items ≡ filter (λ (h : OfHeld). nat_lt h.level level) held.old.items }
{
    let place = place_of(held, level);
    held.truncate(place);
}

/// Takes the nodes behind those of the last copy off.
fn trim(nodes: &mut Vec<Node>, held: &[Held])
    requires { AreCopies nodes.old.items held.now }
    ensures are { AreCopies nodes.new.items held.now }
    ensures same { kept_of nodes.new.items held.now ≡ kept_of nodes.old.items held.now }
{
    let count = held.len();
    if count == 0 {
        nodes.clear();
        return;
    }
    let last = &held[count - 1];
    nodes.truncate(last.from + last.count);
}

/// Where the copies for handlers from a level on begin.
fn place_of(held: &[Held], level: Level) -> usize
    requires { IsNonDecreasingBy (λ (h : OfHeld). h.level) held.now }
    ensures within { result ≤ length held.now }
    ensures point { IsPartitionPoint (λ (h : OfHeld). nat_lt h.level level ≡ true) (λ (h : OfHeld). nat_lt h.level level ≡ false) held.now result }
{
    held.partition_point(|h| h.level < level)
}

/// Where the copies for handlers up to a level end. Mostly that is behind all.
fn place_behind(held: &[Held], level: Level) -> usize
    requires { IsNonDecreasingBy (λ (h : OfHeld). h.level) held.now }
    ensures within { result ≤ length held.now }
    ensures point { IsPartitionPoint (λ (h : OfHeld). nat_le h.level level ≡ true) (λ (h : OfHeld). nat_le h.level level ≡ false) held.now result }
{
    let count = held.len();
    if count > 0 && held[count - 1].level <= level {
        return count;
    }
    held.partition_point(|h| h.level <= level)
}
