//! The rows of transaction/1 and snapshot/1: a goal is run inside of what it begins.
//!
//! A row that is refused memory leaves the search where it was.
ghost use Rattle.std.specs.Prelude.{◌≡◌, ◌≤◌, suc, ◌∷◌, IfOk, OnOk, OnErr};
ghost use Rattle.plcells.specs.Store.{value, IsValue};
ghost use Rattle.plsearch.specs.Types.{Marker, Transact};
ghost use Rattle.plsearch.specs.Moves.{beginner as beginner_of, opened};
ghost use Rattle.plsearch.specs.Rows.{beginning};
ghost use Rattle.plsearch.specs.Running.{runnable};
ghost use Rattle.plstack.specs.State.{goals_of, IsFit, IsList};
ghost use Rattle.plmachine.specs.Lists.{Grown};
ghost use Rattle.plmachine.specs.Machine.{depth_of, local_of, IsClosed, IsTied, Moved, Stays};
ghost use Rattle.plrefusals.specs.Predicates.{predicate_of, IsFew};
ghost use Rattle.plmachine.specs.Within.{entered, BeginsAt, IsEntry, IsEntryFit};
ghost use Rattle.plprogram.specs.Program.{Program as Given};

use crate::machine::{Machine, Mode, Outcome, Question};
use crate::running::Ready;
use plcells::cell::Cell;
use plerror::error;
use plevent::JournalPlace;
use pllinks::item::{MarkerKind, Portion};
use pllinks::level::Level;
use pllinks::link::Continuation;
use plrefusals::predicate::Predicate;
use plterm::term::Term;
use pltx::Isolation;
use plviews::View;
use std::alloc::AllocError;

/// What comes first in what begins.
#[derive(Drop)]
pub enum Entry {
    /// This list is visited.
    Visits(Continuation),
    /// The term is no goal: this ball is thrown, with the levels of the markers behind it.
    Throws(Term, Vec<Level>),
}

impl Machine {
    /// transaction/1 or snapshot/1: it begins at once inside of what is open, or else on a view that is asked for.
    #[inline(never)]
    pub fn within(
        &mut self,
        kind: Isolation,
        goal: Cell,
        rest: Continuation,
    ) -> Result<(), AllocError>
        requires goal { IsValue self.old.stack.env.heap goal }
        requires rest { IsList self.old.stack rest }
        requires fits { IsFit self.old.stack rest }
        requires tied { IsTied self.old }
        ensures ok { (P : Given) → OnOk result (Moved P self.old self.new (beginning kind (value self.old.stack.env.heap goal) (depth_of self.old) (goals_of self.old.stack rest) self.old.stack.env.count (local_of self.old))) }
        ensures err { (P : Given) → OnErr result (Stays P self.old self.new) }
    {
        if !self.layer.is_open() {
            self.ask(Question::Begin(kind, goal), rest);
            return Ok(());
        }
        let entry = self.entry(kind, goal, &rest)?;
        let view = self.layer.view();
        self.layer.enter(kind)?;
        match self.stack.open_transaction(view, rest) {
            Ok(()) => {
                self.start(entry);
                Ok(())
            }
            Err(e) => {
                self.layer.end(false);
                Err(e)
            }
        }
    }

    /// An outermost transaction or snapshot begins at a place, with the view of which it was answered, before the visited list.
    pub fn begin_at(
        &mut self,
        kind: Isolation,
        place: JournalPlace,
        goal: Cell,
    ) -> Result<(), AllocError>
        requires goal { IsValue self.old.stack.env.heap goal }
        requires fits { IsFit self.old.stack self.old.stack.goals }
        requires tied { IsTied self.old }
        requires closed { IsClosed self.old.layer.own }
        requires latest { self.old.stack.basis.latest.place ≤ place }
        ensures ok { (P : Given) → OnOk result (BeginsAt P self.old self.new place (opened kind place (value self.old.stack.env.heap goal) (depth_of self.old) (goals_of self.old.stack self.old.stack.goals) self.old.stack.env.count (local_of self.old))) }
        ensures err { (P : Given) → OnErr result (Stays P self.old self.new) }
    {
        let rest = self.stack.visited();
        let entry = self.entry(kind, goal, &rest)?;
        let before = self.layer.place();
        self.layer.begin(kind, place)?;
        let view = View {
            place: place.get(),
            count: 0,
        };
        match self.stack.open_transaction(view, rest) {
            Ok(()) => {
                self.start(entry);
                Ok(())
            }
            Err(e) => {
                self.layer.cancel(before);
                Err(e)
            }
        }
    }

    /// What comes first where a transaction or a snapshot of a goal begins before a list.
    fn entry(
        &mut self,
        kind: Isolation,
        goal: Cell,
        rest: &Continuation,
    ) -> Result<Entry, AllocError>
        requires goal { IsValue self.old.stack.env.heap goal }
        requires rest { IsList self.old.stack rest.now }
        ensures ok { IfOk result (IsEntry self.new.stack (runnable (value self.old.stack.env.heap goal)) (beginner_of kind) (suc (suc (depth_of self.old))) (Marker (Transact (depth_of self.old)) (suc (depth_of self.old)) ∷ goals_of self.old.stack rest.now)) }
        ensures grown { Grown self.old.stack self.new.stack }
        ensures frame { self.new ≡ record self.old { stack = self.new.stack } }
    {
        let depth = self.stack.depth();
        let Some(level) = depth.up(1) else {
            return Err(AllocError);
        };
        let Some(inner) = depth.up(2) else {
            return Err(AllocError);
        };
        let marker = Portion::Marker(MarkerKind::Transact(depth), level);
        let (ready, list) = self.ready_before(goal, marker, rest)?;
        match ready {
            Ready::Runs(goal) => {
                let list = self.stack.link(Portion::Goal(inner, goal), list)?;
                Ok(Entry::Visits(list))
            }
            Ready::Raises(error) => {
                let p = beginner(kind).indicator(self.alloc)?;
                let ball = error::ball(self.alloc, error, &p)?;
                let levels = self.stack.levels(self.alloc, list)?;
                Ok(Entry::Throws(ball, levels))
            }
        }
    }

    /// What comes first, in the cases of what has begun.
    fn start(&mut self, entry: Entry)
        requires { IsEntryFit self.old.stack entry }
        ensures { self.new ≡ entered self.old self.old.stack entry }
    {
        match entry {
            Entry::Visits(list) => self.go_on(list),
            Entry::Throws(ball, levels) => self.give(Outcome::Throw(ball, levels)),
        }
    }
}

/// The predicate that begins it.
fn beginner(kind: Isolation) -> Predicate
    ensures is { predicate_of result ≡ beginner_of kind }
    ensures few { IsFew result }
{
    match kind {
        Isolation::Transaction => Predicate::Transaction,
        Isolation::Snapshot => Predicate::Snapshot,
    }
}
