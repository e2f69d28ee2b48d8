//! Clauses that are looked up, and updates that are made: of what is open at once, or else by what is asked.
//!
//! A row that is refused memory leaves the search where it was.
ghost use Rattle.std.specs.Prelude.{◌≡◌, ℕ, true, false, [], ◌∷◌, List, IfOk, OnOk, OnErr};
ghost use Rattle.plcells.specs.Store.{value};
ghost use Rattle.plevent.specs.Search.{Answer};
ghost use Rattle.pltx.specs.Own.{all_made, any_open};
ghost use Rattle.plstore.specs.Looking.{Views};
ghost use Rattle.plsearch.specs.Lookups.{seek};
ghost use Rattle.plsearch.specs.Moves.{go_on as went_on, publish};
ghost use Rattle.plsearch.specs.Types.{Asking, Erase};
ghost use Rattle.plstack.specs.State.{goals_of, IsEmptyOrFit, IsFit, IsList};
ghost use Rattle.plcells.specs.declared.cell.Cell.{Cell as OfCell};
ghost use Rattle.plmachine.specs.declared.machine.Sweep.{Sweep as OfSweep};
ghost use Rattle.plmachine.specs.declared.machine.Mode.TheVariants.{Find as Finds};
ghost use Rattle.plmachine.specs.declared.machine.Find.TheVariants.{Sweep as SweepOf};
ghost use Rattle.plmachine.specs.Lists.{Grown};
ghost use Rattle.plmachine.specs.Machine.{below_in, depth_of, local_of, lookup_of, IsSought, IsTied, Moved, MovedBy, Stays};
ghost use Rattle.plmachine.specs.Seeking.{ErasesBefore, SeeksBy};
ghost use Rattle.plprogram.specs.Program.{Program as Given};

use crate::machine::{Find, Lookup, Machine, Mode, Outcome, Question, Sought, Then};
use plcells::cell::Cell;
use plevent::ClauseName;
use plevent::request::Request;
use plevent::update::{Batch, Update};
use pllinks::link::Continuation;
use plstack::frame::Use;
use pltx::Erasure;
use plviews::View;
use std::alloc::AllocError;
use std::mem::replace;

impl Machine {
    /// Clauses are looked up before a list, in what is open, or else in a view that is asked for.
    pub(crate) fn seek(&mut self, lookup: Lookup, rest: Continuation) -> Result<(), AllocError>
        requires sought { IsSought self.old.stack.env.heap lookup }
        requires rest { IsList self.old.stack rest }
        requires fits { IsFit self.old.stack rest }
        requires tied { IsTied self.old }
        ensures ok { (P : Given) → OnOk result (MovedBy P self.old self.new (λ v. seek (below_in v self.old) (lookup_of self.old.stack.env.heap lookup) (depth_of self.old) (goals_of self.old.stack rest) self.old.stack.env.count (local_of self.old))) }
        ensures err { (P : Given) → OnErr result (Stays P self.old self.new) }
    {
        if !self.layer.is_open() {
            self.ask(Question::Look(lookup), rest);
            return Ok(());
        }
        let view = self.layer.view();
        let find = self.find_of(lookup, view)?;
        self.stack.sees(view);
        self.stack.visit(rest);
        self.mode = Mode::Find(find);
        Ok(())
    }

    /// What a look-up seeks in a view.
    pub fn find_of(&mut self, lookup: Lookup, view: View) -> Result<Find, AllocError>
        requires { IsSought self.old.stack.env.heap lookup }
        ensures ok { IfOk result (λ f. SeeksBy self.old self.new lookup view f) }
        ensures grown { Grown self.old.stack self.new.stack }
        ensures frame { self.new ≡ record self.old { stack = self.new.stack } }
    {
        match lookup {
            Lookup::ToCall(goal) => Ok(first(goal, Use::Call, view)),
            Lookup::ToRetrieve(head, body) => {
                let goal = self.stack.put_clause_term(head, body)?;
                Ok(first(goal, Use::Tell, view))
            }
            Lookup::ToRetract(head, body) => {
                let goal = self.stack.put_clause_term(head, body)?;
                Ok(first(goal, Use::Erase, view))
            }
            Lookup::ToRetractAll(head) => Ok(Find::All(head, view)),
        }
    }

    /// Updates are made of what is open, or else published as one batch, of which there is none without an update.
    pub fn publish(&mut self, updates: Vec<Update>, rest: Continuation) -> Result<(), AllocError>
        requires rest { IsList self.old.stack rest }
        requires fits { IsFit self.old.stack rest }
        requires tied { IsTied self.old }
        ensures ok { (P : Given) → OnOk result (Moved P self.old self.new (publish updates.items (goals_of self.old.stack rest) self.old.stack.env.count (local_of self.old))) }
        ensures err { (P : Given) → OnErr result (Stays P self.old self.new) }
    {
        if self.layer.is_open() {
            self.layer.make(&updates)?;
            self.go_on(rest);
            return Ok(());
        }
        self.publish_batch(updates, rest);
        Ok(())
    }

    /// Updates are published as one batch, of which there is none without an update.
    fn publish_batch(&mut self, updates: Vec<Update>, rest: Continuation)
        requires closed { any_open self.old.layer.own ≡ false }
        requires rest { IsList self.old.stack rest }
        requires fits { IsFit self.old.stack rest }
        ensures { (P : Given) → Moved P self.old self.new (publish updates.items (goals_of self.old.stack rest) self.old.stack.env.count (local_of self.old)) }
    {
        if updates.is_empty() {
            self.go_on(rest);
            return;
        }
        let request = Request::Publish(Batch::new(self.alloc, updates));
        self.ask(Question::Await(request, Then::GoesOn), rest);
    }

    /// What the sweep in hand has to erase is erased, as updates are made or published. Nothing is copied, and the sweep stays where it is refused.
    pub fn publish_swept(&mut self, rest: Continuation) -> Result<(), AllocError>
        requires sweeps { (c : OfCell) × (w : OfSweep) × (self.old.mode ≡ Finds (SweepOf c w)) }
        requires rest { IsList self.old.stack rest }
        requires fits { IsFit self.old.stack rest }
        requires tied { IsTied self.old }
        ensures ok { (P : Given) → OnOk result ((c : OfCell) (w : OfSweep) → self.old.mode ≡ Finds (SweepOf c w) → Moved P self.old self.new (publish w.updates.items (goals_of self.old.stack rest) self.old.stack.env.count (local_of self.old))) }
        ensures err { (P : Given) → OnErr result (Stays P self.old self.new) }
    {
        if self.layer.is_open() {
            self.make_swept()?;
            self.go_on(rest);
            return Ok(());
        }
        let updates = self.take_swept();
        self.publish_batch(updates, rest);
        Ok(())
    }

    /// The erasures of the sweep in hand are made of what is open.
    fn make_swept(&mut self) -> Result<(), AllocError>
        requires sweeps { (c : OfCell) × (w : OfSweep) × (self.old.mode ≡ Finds (SweepOf c w)) }
        requires open { any_open self.old.layer.own ≡ true }
        ensures ok { OnOk result ((c : OfCell) (w : OfSweep) → self.old.mode ≡ Finds (SweepOf c w) → self.new ≡ record self.old { layer = record self.old.layer { own = all_made w.updates.items self.old.layer.own } }) }
        ensures err { OnErr result (self.new ≡ self.old) }
        ensures frame { self.new ≡ record self.old { layer = self.new.layer } }
    {
        let Mode::Find(Find::Sweep(_, sweep)) = &self.mode else {
            unreachable!()
        };
        self.layer.make(&sweep.updates)
    }

    /// The erasures of the sweep in hand, which ends.
    fn take_swept(&mut self) -> Vec<Update>
        requires { (c : OfCell) × (w : OfSweep) × (self.old.mode ≡ Finds (SweepOf c w)) }
        ensures is { (c : OfCell) (w : OfSweep) → self.old.mode ≡ Finds (SweepOf c w) → result.items ≡ w.updates.items }
        ensures frame { self.new ≡ record self.old { mode = Mode.Visit } }
    {
        let mode = replace(&mut self.mode, Mode::Visit);
        let Mode::Find(Find::Sweep(_, sweep)) = mode else {
            unreachable!()
        };
        sweep.updates
    }

    /// The same of one update.
    pub fn publish_one(&mut self, update: Update, rest: Continuation) -> Result<(), AllocError>
        requires rest { IsList self.old.stack rest }
        requires fits { IsFit self.old.stack rest }
        requires tied { IsTied self.old }
        ensures ok { (P : Given) → OnOk result (Moved P self.old self.new (publish (update ∷ []) (goals_of self.old.stack rest) self.old.stack.env.count (local_of self.old))) }
        ensures err { (P : Given) → OnErr result (Stays P self.old self.new) }
    {
        if self.layer.is_open() {
            self.layer.make_one(update)?;
            self.go_on(rest);
            return Ok(());
        }
        let request = Request::Publish(Batch::of(update));
        self.ask(Question::Await(request, Then::GoesOn), rest);
        Ok(())
    }

    /// The clause of a name is erased before a list: of what is open, unless it was erased there before, or else that is asked for.
    pub fn erase(&mut self, name: ClauseName, rest: Continuation) -> Result<(), AllocError>
        requires rest { IsList self.old.stack rest }
        requires fits { IsEmptyOrFit self.old.stack rest }
        requires tied { IsTied self.old }
        ensures ok { (P : Given) → OnOk result (Moved P self.old self.new (went_on (Asking (Erase name) ∷ goals_of self.old.stack rest) self.old.stack.env.count (local_of self.old))) }
        ensures becomes { (P : Given) → OnOk result (ErasesBefore P (any_open self.old.layer.own) self.old self.new name (goals_of self.old.stack rest)) }
        ensures err { (P : Given) → OnErr result (Stays P self.old self.new) }
    {
        if !self.layer.is_open() {
            self.stack.visit(rest);
            self.mode = Mode::Ask(Question::Erase(name));
            return Ok(());
        }
        match self.layer.erase(name)? {
            Erasure::Erased => {
                self.stack.visit(rest);
                self.mode = Mode::Visit;
            }
            Erasure::Gone => self.give(Outcome::Fail),
        }
        Ok(())
    }
}

/// The first clause that may be for a goal is sought in a view.
fn first(goal: Cell, uses: Use, view: View) -> Find
    ensures { result ≡ Find.First (record { goal = goal; uses = uses }) view }
{
    Find::First(Sought { goal, uses }, view)
}
