//! The list of the copies that are kept, on the heap of an environment.
ghost use Rattle.std.specs.Prelude.{◌≡◌, [], ◌∷◌, IfOk, OnOk};
ghost use Rattle.std.specs.List.{All, sum_by};
ghost use Rattle.plterm.specs.Tree.{atom, compound, none, more, var};
ghost use Rattle.plcells.specs.Store.{value, IsValue};
ghost use Rattle.plread.specs.Texts.{dot, listed, nil};
ghost use Rattle.plsearch.specs.Collecting.{copies_from, count_new, renumbered};
ghost use Rattle.plenv.specs.Changes.{Extends, Puts, PutsTerm, Stays};
ghost use Rattle.plcollect.specs.declared.collection.Held.{Held as OfHeld};
ghost use Rattle.plcollect.specs.Copies.{copies_of, IsCopy};

use crate::collection::{Collection, Held, held_from};
use plcells::cell::{Argument, Cell};
use plenv::env::Environment;
use pllinks::level::Level;
use plterm::name::Name;
use plterm::node::Node;
use plterm::term::Term;
use std::alloc::{AllocError, Global};

impl Collection {
    /// Puts the list of the copies that are kept for handlers from a level on, their variables new: its value. After an `Err` all that was there
    /// stands for what it did.
    pub fn put_list(
        &self,
        env: &mut Environment,
        alloc: Global,
        level: Level,
    ) -> Result<Cell, AllocError>
        ensures ok { IfOk result (λ v. PutsTerm env.old env.new v (listed (renumbered env.old.count (copies_from level self.now))) (count_new (copies_from level self.now))) }
        ensures extends { Extends env.old env.new }
    {
        put_copies(env, alloc, &self.nodes, held_from(&self.held, level))
    }
}

/// How many variables copies have, each of its own.
fn count_variables(held: &[Held]) -> Result<u32, AllocError>
    ensures { IfOk result (λ n. n ≡ sum_by (λ (h : OfHeld). h.variables) held.now) }
{
    let mut count: u32 = 0;
    for one in held {
        match count.checked_add(one.variables) {
            Some(sum) => count = sum,
            None => return Err(AllocError),
        }
    }
    Ok(count)
}

/// A pair of two variables, as a list has them.
fn pair(alloc: Global) -> Result<Term, AllocError>
    ensures { IfOk result (λ t. t ≡ compound dot (more (var 0) (more (var 1) none))) }
{
    let name = Name::new(alloc, ".")?;
    let mut parts = Vec::new(alloc);
    parts.push(Term::var(alloc, 0)?)?;
    parts.push(Term::var(alloc, 1)?)?;
    match Term::compound(alloc, name, parts) {
        Ok(term) => Ok(term),
        Err(_) => Err(AllocError),
    }
}

/// Puts the empty list: its value.
fn put_end(env: &mut Environment, alloc: Global) -> Result<Cell, AllocError>
    ensures ok { IfOk result (λ v. Puts env.old env.new v (atom nil)) }
    ensures stays { Stays env.old env.new }
{
    let _ = env.heap();
    let name = Name::new(alloc, "[]")?;
    match Term::atom(alloc, name) {
        Ok(end) => env.put_over(alloc, &end, &[]),
        Err(_) => Err(AllocError),
    }
}

/// Puts the pair of two values: its value.
fn put_pair(
    env: &mut Environment,
    stack: &mut Vec<Argument>,
    pair: &Term,
    head: Cell,
    tail: Cell,
) -> Result<Cell, AllocError>
    requires pair { pair.now ≡ compound dot (more (var 0) (more (var 1) none)) }
    requires head { IsValue env.old.heap head }
    requires tail { IsValue env.old.heap tail }
    ensures ok { IfOk result (λ v. Puts env.old env.new v (compound dot (more (value env.old.heap head) (more (value env.old.heap tail) none)))) }
    ensures stays { Stays env.old env.new }
{
    env.put_nodes(stack, pair.nodes(), &[head, tail])
}

/// Puts the list of copies, their variables new: its value. The last copy is put first.
fn put_copies(
    env: &mut Environment,
    alloc: Global,
    nodes: &[Node],
    held: &[Held],
) -> Result<Cell, AllocError>
    requires { All (IsCopy nodes.now) held.now }
    ensures ok { IfOk result (λ v. PutsTerm env.old env.new v (listed (renumbered env.old.count (copies_of nodes.now held.now))) (count_new (copies_of nodes.now held.now))) }
    ensures extends { Extends env.old env.new }
{
    let count = count_variables(held)?;
    let values = env.new_values(alloc, count)?;
    let pair = pair(alloc)?;
    let mut list = put_end(env, alloc)?;
    let mut stack = Vec::new(alloc);
    let mut before = values.len();
    let mut at = held.len();
    while at > 0 {
        at -= 1;
        let one = &held[at];
        let end = before;
        before -= one.variables as usize;
        let copy = &nodes[one.from..one.from + one.count];
        let v = env.put_nodes(&mut stack, copy, &values[before..end])?;
        list = put_pair(env, &mut stack, &pair, v, list)?;
    }
    Ok(list)
}
