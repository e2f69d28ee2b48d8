//! Predicates of several answers: they are tried one at a time.
//!
//! A row that is refused memory leaves the search where it was.
ghost use Rattle.std.specs.Prelude.{◌≡◌, ◌+◌, ◌<◌, ◌≤◌, ◌^◌, ◌++◌, length, map, filter_map, true, IfOk, OnOk, OnErr};
ghost use Rattle.std.specs.List.{list_all};
ghost use Rattle.plterm.specs.Ground.{is_ground};
ghost use Rattle.plcells.specs.Store.{value, AreValues};
ghost use Rattle.plbuiltin.specs.Solution.{against};
ghost use Rattle.plgenerator.specs.Answers.{left, IsRemaining};
ghost use Rattle.plsearch.specs.Moves.{choose};
ghost use Rattle.plsearch.specs.Rows.{solved};
ghost use Rattle.plstack.specs.State.{goals_of, IsFit, IsList};
ghost use Rattle.plmachine.specs.Lists.{Grown};
ghost use Rattle.plmachine.specs.Machine.{local_of, Moved, Stays};
ghost use Rattle.plprogram.specs.Program.{Program as Given};

use crate::machine::{Machine, Mode, Outcome};
use plcells::cell::Cell;
use plgenerator::turn::{Groups, Remaining};
use pllinks::link::Continuation;
use plstack::stack::Stack;
use plterm::term::Term;
use std::alloc::{AllocError, Global};

impl Machine {
    /// The answers of a turn over some values are tried before a list.
    pub(crate) fn several(
        &mut self,
        values: &[Cell],
        turn: Remaining,
        rest: Continuation,
    ) -> Result<(), AllocError>
        requires visits { self.old.mode ≡ Mode.Visit }
        requires values { AreValues self.old.stack.env.heap values.now }
        requires few { length values.now < 2 ^ 32 }
        requires turn { IsRemaining self.old.stack.env.heap values.now turn }
        requires rest { IsList self.old.stack rest }
        requires fits { IsFit self.old.stack rest }
        ensures ok { (P : Given) → OnOk result (Moved P self.old self.new (choose (filter_map (solved (goals_of self.old.stack rest) self.old.stack.env.count) (left self.old.stack.env.heap values.now turn)) (local_of self.old))) }
        ensures err { (P : Given) → OnErr result (Stays P self.old self.new) }
    {
        if self.stack.call_answers(self.alloc, values, turn, rest)? {
            return Ok(());
        }
        self.give(Outcome::Fail);
        Ok(())
    }

    /// Some values are unified, together, with one term after another, before a list.
    pub(crate) fn one_of(
        &mut self,
        values: Vec<Cell>,
        groups: &[Term],
        rest: Continuation,
    ) -> Result<(), AllocError>
        requires visits { self.old.mode ≡ Mode.Visit }
        requires values { AreValues self.old.stack.env.heap values.items }
        requires some { 0 < length values.items }
        requires few { length values.items ≤ 1023 }
        requires ground { list_all is_ground groups.now ≡ true }
        requires many { length values.items + length groups.now < 2 ^ 32 }
        requires rest { IsList self.old.stack rest }
        requires fits { IsFit self.old.stack rest }
        ensures ok { (P : Given) → OnOk result (Moved P self.old self.new (choose (filter_map (solved (goals_of self.old.stack rest) self.old.stack.env.count) (map (against (map (value self.old.stack.env.heap) values.items)) groups.now)) (local_of self.old))) }
        ensures err { (P : Given) → OnErr result (Stays P self.old self.new) }
    {
        let arguments = values.len() as u16;
        let values = put_terms(&mut self.stack, self.alloc, values, groups)?;
        let turn = Remaining::Groups(Groups {
            arguments,
            passed: 0,
        });
        self.several(&values, turn, rest)
    }
}

/// Some values, and behind them those of terms without variables. After an `Err` all stands for what it did.
fn put_terms(
    stack: &mut Stack,
    alloc: Global,
    values: Vec<Cell>,
    terms: &[Term],
) -> Result<Vec<Cell>, AllocError>
    requires values { AreValues stack.old.env.heap values.items }
    requires ground { list_all is_ground terms.now ≡ true }
    ensures there { IfOk result (λ all. AreValues stack.new.env.heap all.items) }
    ensures are { IfOk result (λ all. map (value stack.new.env.heap) all.items ≡ map (value stack.old.env.heap) values.items ++ terms.now) }
    ensures grown { Grown stack.old stack.new }
{
    let mut all = values;
    for term in terms {
        let v = stack.put_copy(alloc, term)?;
        all.push(v)?;
    }
    Ok(all)
}
