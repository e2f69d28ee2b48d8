//! Walks over the clauses of the program's text, whose case is a walk as that over a view is: its clauses are told by clause/2.

ghost use Rattle.std.specs.Prelude.{◌≡◌, ◌↔◌, ◌+◌, ◌<◌, ◌≤◌, IsTrue, ◌∷◌, [], List, length, IfNone, IfOk, IfSome, OnErr, OnOk};
ghost use Rattle.plcells.specs.Store.{value};
ghost use Rattle.plclause.specs.Indicators.{indicator};
ghost use Rattle.plevent.specs.declared.update.Update.{Update};
ghost use Rattle.plprogram.specs.Program.{Program as Given, clauses_for};
ghost use Rattle.plsearch.specs.Types.{Case, Choice};
ghost use Rattle.plstore.specs.Looking.{Views};
ghost use Rattle.plstack.specs.declared.frame.Spot.TheVariants.{Text as TextOf};
ghost use Rattle.plstack.specs.Places.{head_in};
ghost use Rattle.plstack.specs.State.{cases_of, walks_in, EndsWalks, RetriesBy};
ghost use Rattle.plstack.specs.StaticCalls.{database_of};
ghost use Rattle.plstack.specs.Walks.{AtWalk};
ghost use Rattle.plsolver.specs.Solver.{Quiet, Stays};

use crate::progress::Progress;
use plclause::clause::Clause;
use plmachine::candidate;
use plmachine::clauses::mode_of;
use plmachine::machine::{Mode, Outcome};
use plprogram::program::Program;
use plrefusals::value::indicator_of;
use plstack::frame::Spot;
use plstack::walk::{Entered, Walking};
use std::alloc::AllocError;

impl Progress {
    /// The next clause of the text that fits is visited; where none does the walk is closed.
    #[tactic(auto, using(crate::proofs::Ending::ends_same, crate::proofs::Ending::ends_refl))]
    pub(crate) fn retry_text(
        &mut self,
        program: &Program,
        at: &Walking,
        number: usize,
    ) -> Result<(), AllocError>
        requires fails { self.old.machine.mode ≡ Mode.Back Outcome.Fail }
        requires at { AtWalk self.old.machine.stack at.now.point at.now.walk }
        requires text { at.now.walk.spot ≡ TextOf number }
        ensures ok { OnOk result (Quiet program.now self.old self.new) }
        ensures err { OnErr result (Stays program.now self.old self.new) }
        ensures walks { EndsWalks self.old.machine.stack self.new.machine.stack }
    {
        let head = self.head_at(at);
        let heap = self.machine.stack.env().heap();
        let p = indicator_of(self.machine.alloc, heap, &head)?;
        let clauses = program.clauses_of(&p);
        let Some(entered) = self.first_of_text(clauses, at, number)? else {
            self.machine.stack.close();
            return Ok(());
        };
        self.machine.mode = mode_of(entered);
        Ok(())
    }

    /// Tries clauses of the text from a number on, up to the first that fits. Where none does nothing is left of the walk.
    fn first_of_text(
        &mut self,
        clauses: &[Clause],
        at: &Walking,
        number: usize,
    ) -> Result<Option<Entered>, AllocError>
        requires at { AtWalk self.old.machine.stack at.now.point at.now.walk }
        requires text { at.now.walk.spot ≡ TextOf number }
        ensures some { IfOk result (λ o. IfSome o (λ entered. (P : Given) (v : Views) (own : List Update) → clauses.now ≡ clauses_for P (indicator (head_in at.now.walk.uses (value self.old.machine.stack.env.heap at.now.walk.goal))) → RetriesBy (database_of P v own) self.old.machine.stack self.new.machine.stack entered.erased)) }
        ensures none { IfOk result (λ o. IfNone o ((P : Given) (v : Views) (own : List Update) → clauses.now ≡ clauses_for P (indicator (head_in at.now.walk.uses (value self.old.machine.stack.env.heap at.now.walk.goal))) → (below : List Case) × (cases_of (database_of P v own) self.old.machine.stack ≡ Choice [] ∷ below) × (cases_of (database_of P v own) self.new.machine.stack ≡ Choice [] ∷ below))) }
        ensures err { OnErr result ((P : Given) (v : Views) (own : List Update) → clauses.now ≡ clauses_for P (indicator (head_in at.now.walk.uses (value self.old.machine.stack.env.heap at.now.walk.goal))) → cases_of (database_of P v own) self.new.machine.stack ≡ cases_of (database_of P v own) self.old.machine.stack) }
        ensures basis { self.new.machine.stack.basis ≡ self.old.machine.stack.basis }
        ensures frame { self.new ≡ record self.old { machine = record self.old.machine { stack = self.new.machine.stack } } }
        ensures walks { walks_in self.new.machine.stack ≡ walks_in self.old.machine.stack }
    {
        let mut at = *at;
        let mut number = number;
        'clauses: while is_before_last(clauses, number) {
            let next = candidate::of_text(at.walk.uses, &clauses[number])?;
            let spot = Spot::Text(number + 1);
            let rest = Some(spot);
            let stack = &mut self.machine.stack;
            if let Some(entered) = stack.try_walk(&next, rest)? {
                return Ok(Some(entered));
            }
            at.walk.spot = spot;
            number += 1;
        }
        self.last_of_text(clauses, &at, number)
    }

    /// Tries the last clause of the text, if there is one at a number.
    fn last_of_text(
        &mut self,
        clauses: &[Clause],
        at: &Walking,
        number: usize,
    ) -> Result<Option<Entered>, AllocError>
        requires at { AtWalk self.old.machine.stack at.now.point at.now.walk }
        requires text { at.now.walk.spot ≡ TextOf number }
        requires last { length clauses.now ≤ number + 1 }
        ensures some { IfOk result (λ o. IfSome o (λ entered. (P : Given) (v : Views) (own : List Update) → clauses.now ≡ clauses_for P (indicator (head_in at.now.walk.uses (value self.old.machine.stack.env.heap at.now.walk.goal))) → RetriesBy (database_of P v own) self.old.machine.stack self.new.machine.stack entered.erased)) }
        ensures none { IfOk result (λ o. IfNone o ((P : Given) (v : Views) (own : List Update) → clauses.now ≡ clauses_for P (indicator (head_in at.now.walk.uses (value self.old.machine.stack.env.heap at.now.walk.goal))) → (below : List Case) × (cases_of (database_of P v own) self.old.machine.stack ≡ Choice [] ∷ below) × (cases_of (database_of P v own) self.new.machine.stack ≡ Choice [] ∷ below))) }
        ensures err { OnErr result ((P : Given) (v : Views) (own : List Update) → cases_of (database_of P v own) self.new.machine.stack ≡ cases_of (database_of P v own) self.old.machine.stack) }
        ensures basis { self.new.machine.stack.basis ≡ self.old.machine.stack.basis }
        ensures frame { self.new ≡ record self.old { machine = record self.old.machine { stack = self.new.machine.stack } } }
        ensures walks { walks_in self.new.machine.stack ≡ walks_in self.old.machine.stack }
    {
        match clauses.get(number) {
            Some(clause) => {
                let next = candidate::of_text(at.walk.uses, clause)?;
                self.machine.stack.try_walk(&next, None)
            }
            None => {
                self.machine.stack.go_on_walk(None);
                Ok(None)
            }
        }
    }
}

/// Whether a number is that of a clause, and not of the last one.
fn is_before_last(clauses: &[Clause], number: usize) -> bool
    ensures { IsTrue result ↔ (number + 1 < length clauses.now) }
{
    number < clauses.len() && clauses.len() - number > 1
}
