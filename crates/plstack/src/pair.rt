//! The terms that clause/2 and retract/1 resolve: a head and a body as one term.
ghost use Rattle.std.specs.Prelude.{◌≡◌, codes, IfOk, OnErr};
ghost use Rattle.plterm.specs.Tree.{atom};
ghost use Rattle.plcells.specs.Store.{IsValue, value};
ghost use Rattle.plsearch.specs.Lookups.{clause_term};
ghost use Rattle.plstack.specs.State.{renamed, Extends};
ghost use Rattle.plstack.specs.Arguments.{KeepsArguments};

use crate::stack::Stack;
use plcells::cell::Cell;
use plclause::shared::SharedTerm;
use std::alloc::AllocError;

impl Stack {
    /// Puts `Head :- Body` of the values of a head and a body: its value. After an `Err` there may be more names, and nothing else.
    pub fn put_clause_term(&mut self, head: Cell, body: Cell) -> Result<Cell, AllocError>
        requires head { IsValue self.old.env.heap head }
        requires body { IsValue self.old.env.heap body }
        ensures value { IfOk result (λ v. IsValue self.new.env.heap v) }
        ensures is { IfOk result (λ v. value self.new.env.heap v ≡ clause_term (value self.old.env.heap head) (value self.old.env.heap body)) }
        ensures count { self.new.env.count ≡ self.old.env.count }
        ensures arguments { KeepsArguments self.old self.new }
        ensures stays { Extends self.old self.new }
        ensures back { OnErr result (self.new ≡ renamed self.old self.new.env.heap.names) }
    {
        let put = self.copier.put_clause(&mut self.env, head, body);
        let _ = self.env.heap();
        put
    }

    /// The atom true, as a term that facts share.
    pub fn truth(&self) -> &SharedTerm
        ensures { result.now ≡ atom (codes "true") }
    {
        self.copier.truth()
    }

    /// Puts the atom true: its value. After an `Err` there may be more names, and nothing else.
    pub fn put_true(&mut self) -> Result<Cell, AllocError>
        ensures value { IfOk result (λ v. IsValue self.new.env.heap v) }
        ensures is { IfOk result (λ v. value self.new.env.heap v ≡ atom (codes "true")) }
        ensures count { self.new.env.count ≡ self.old.env.count }
        ensures arguments { KeepsArguments self.old self.new }
        ensures stays { Extends self.old self.new }
        ensures back { OnErr result (self.new ≡ renamed self.old self.new.env.heap.names) }
    {
        let put = self.copier.put_true(&mut self.env);
        let _ = self.env.heap();
        put
    }
}
