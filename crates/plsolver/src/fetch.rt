//! What is asked in a view, and what is made of the answers.

ghost use Rattle.std.specs.Prelude.{◌≡◌, ◌≤◌, ℕ, IfOk, OnErr, OnOk};
ghost use Rattle.plcells.specs.Store.{value, IsValue};
ghost use Rattle.plclause.specs.Indicators.{indicator};
ghost use Rattle.plprogram.specs.Program.{Program as Given};
ghost use Rattle.plstore.specs.Looking.{Views, found as found_of};
ghost use Rattle.plstore.specs.declared.query.Query.{Query as Asked};
ghost use Rattle.plstore.specs.declared.query.Query.TheVariants.{Exists as ExistsOf};
ghost use Rattle.plstore.specs.declared.query.Found.TheVariants.{Clause as ClauseOf, Exists as ExistsFound, Next as NextOf};
ghost use Rattle.plterm.specs.Tree.{Tree};
ghost use Rattle.plviews.specs.Views.{AreOrdered};
ghost use Rattle.plmachine.specs.Machine.{IsFound};
ghost use Rattle.plsolver.specs.Asking.{AsksNext};
ghost use Rattle.plsolver.specs.Fetching.{Fetches, find_view, FindAsks, IsClause, IsExists, IsFetching, IsFoundFor, IsNext, ReachAsks, Seeks, WalksOn};
ghost use Rattle.plsolver.specs.Going.{IsSweeping};
ghost use Rattle.plsolver.specs.Says.{Says, IsSlice};
ghost use Rattle.plsolver.specs.Solver.{latest_view, IsOf, KeepsRest, Stays};

use crate::progress::Progress;
use crate::solver::Turn;
use plcells::cell::Cell;
use plclause::clause::Clause;
use plevent::ClauseName;
use plmachine::machine::{Find, Mode, SweepSpot};
use plmachine::sought::{first_key, head_of};
use plrecords::Cursor;
use plrefusals::value::indicator_of;
use plstack::frame::Spot;
use plstore::{Found, Query};
use plviews::{Reach, View};
use std::alloc::AllocError;

impl Progress {
    /// The query that is due.
    pub(crate) fn wanted(&self) -> Result<Turn, AllocError>
        requires of { (P : Given) × IsOf P self.now.machine }
        requires fetching { IsFetching self.now }
        ensures says { (P : Given) → IsOf P self.now.machine → IfOk result (λ turn. Says P self.now turn) }
        ensures other { IfOk result (λ turn. IsSlice turn → ⊥) }
    {
        let query = match &self.machine.mode {
            Mode::Find(find) => self.find_query(find)?,
            Mode::Visit | Mode::Ask(_) | Mode::Back(_) => self.walk_query()?,
        };
        Ok(Turn::Fetch(query))
    }

    /// The next clause of the procedure of a head behind a reach, which is the journal's, by the key of its first argument.
    fn like(&self, head: Cell, reach: Reach) -> Result<Query, AllocError>
        requires head { IsValue self.now.machine.stack.env.heap head }
        requires asks { (h : Tree) → (q : Asked) × ReachAsks h reach q }
        ensures { IfOk result (ReachAsks (value self.now.machine.stack.env.heap head) reach) }
    {
        let Reach::Base(cursor) = reach else {
            unreachable!()
        };
        let heap = self.machine.stack.env().heap();
        let p = indicator_of(self.machine.alloc, heap, &head)?;
        let key = first_key(heap, &head)?;
        Ok(Query::NextLike(p, key, cursor))
    }

    /// Whether the procedure of a head exists.
    fn exists(&self, head: Cell) -> Result<Query, AllocError>
        requires { IsValue self.now.machine.stack.env.heap head }
        ensures { IfOk result (λ q. q ≡ ExistsOf (indicator (value self.now.machine.stack.env.heap head))) }
    {
        let heap = self.machine.stack.env().heap();
        let p = indicator_of(self.machine.alloc, heap, &head)?;
        Ok(Query::Exists(p))
    }

    /// What a look-up asks.
    fn find_query(&self, find: &Find) -> Result<Query, AllocError>
        requires there { IsFound self.now.machine.layer.own self.now.machine.stack find.now }
        requires asks { (q : Asked) × FindAsks self.now.machine.layer.own.updates self.now.machine.stack.env.heap find.now q }
        ensures { IfOk result (FindAsks self.now.machine.layer.own.updates self.now.machine.stack.env.heap find.now) }
    {
        match find {
            Find::First(sought, _) => {
                let heap = self.machine.stack.env().heap();
                let head = head_of(heap, sought.uses, sought.goal);
                self.like(head, Reach::Base(Cursor::Start))
            }
            Find::Exists(goal, _) => self.exists(*goal),
            Find::All(head, _) => self.exists(*head),
            Find::Sweep(head, sweep) => match sweep.spot {
                SweepSpot::Seek(reach) => self.like(*head, reach),
                SweepSpot::At(name, _) => Ok(Query::Clause(name)),
            },
        }
    }

    /// What the innermost case asks, a walk.
    fn walk_query(&self) -> Result<Query, AllocError>
        requires { (g : ℕ) × (q : Asked) × WalksOn self.now.machine g q }
        ensures { IfOk result (λ q. (g : ℕ) × WalksOn self.now.machine g q) }
    {
        let Some(at) = self.machine.stack.walking() else {
            unreachable!()
        };
        match at.walk.spot {
            Spot::Text(_) => unreachable!(),
            Spot::Seek(_, reach) => self.like(self.head_at(&at), reach),
            Spot::At(_, _, reach) => self.like(self.head_at(&at), reach),
            Spot::Known(_, name, _) => Ok(Query::Clause(name)),
        }
    }

    /// The place of the view in which something is asked.
    pub(crate) fn view(&self) -> u64
        requires fetching { IsFetching self.now }
        requires of { (P : Given) × IsOf P self.now.machine }
        ensures is { (g : ℕ) (q : Asked) → Fetches self.now g q → result ≡ g }
        ensures seen { result ≤ latest_view self.now }
    {
        match &self.machine.mode {
            Mode::Find(find) => view_of(find).place,
            Mode::Visit | Mode::Ask(_) | Mode::Back(_) => self.walk_view(),
        }
    }

    /// That of a walk.
    fn walk_view(&self) -> u64
        requires { (g : ℕ) × (q : Asked) × WalksOn self.now.machine g q }
        ensures is { (g : ℕ) (q : Asked) → WalksOn self.now.machine g q → result ≡ g }
        ensures seen { result ≤ latest_view self.now }
    {
        let Some(at) = self.machine.stack.walking() else {
            unreachable!()
        };
        match at.walk.spot {
            Spot::Text(_) => unreachable!(),
            Spot::Seek(view, _) => view.place,
            Spot::At(view, _, _) => view.place,
            Spot::Known(view, _, _) => view.place,
        }
    }

    /// What was asked in a view, and found there.
    pub(crate) fn fetched(&mut self, found: Found) -> Result<(), AllocError>
        requires of { (P : Given) × IsOf P self.old.machine }
        requires fits { (g : ℕ) × (q : Asked) × Fetches self.old g q × IsFoundFor q found }
        ensures ok { (P : Given) → IsOf P self.old.machine → OnOk result ((v : Views) → AreOrdered v → (g : ℕ) (q : Asked) → Fetches self.old g q → found ≡ found_of (v g) q → KeepsRest P v self.old self.new) }
        ensures of { (P : Given) → IsOf P self.old.machine → IsOf P self.new.machine }
        ensures latest { latest_view self.new ≡ latest_view self.old }
        ensures frame { self.new ≡ record self.old { machine = self.new.machine } }
        ensures err { (P : Given) → IsOf P self.old.machine → OnErr result (Stays P self.old self.new) }
        ensures asked { OnOk result ((v : Views) → AreOrdered v → (g : ℕ) (q : Asked) → Fetches self.old g q → found ≡ found_of (v g) q → AsksNext v self.old.machine self.new.machine q) }
    {
        let Mode::Find(find) = &self.machine.mode else {
            return self.fetched_walk(found);
        };
        match find {
            Find::First(sought, view) => {
                let (sought, view) = (*sought, *view);
                self.found_first(sought, view, next_in(found))
            }
            Find::Exists(goal, view) => {
                let (goal, view) = (*goal, *view);
                self.found_exists(goal, view, exists_in(found))
            }
            Find::All(head, view) => {
                let (head, view) = (*head, *view);
                self.found_all(head, view, exists_in(found))
            }
            Find::Sweep(_, _) => self.fetched_sweep(found),
        }
    }

    /// The same for the erasure of all clauses of a head.
    fn fetched_sweep(&mut self, found: Found) -> Result<(), AllocError>
        requires of { (P : Given) × IsOf P self.old.machine }
        requires sweeps { IsSweeping self.old }
        requires fits { (g : ℕ) × (q : Asked) × Seeks self.old.machine g q × IsFoundFor q found }
        ensures ok { (P : Given) → IsOf P self.old.machine → OnOk result ((v : Views) → AreOrdered v → (g : ℕ) (q : Asked) → Seeks self.old.machine g q → found ≡ found_of (v g) q → KeepsRest P v self.old self.new) }
        ensures of { (P : Given) → IsOf P self.old.machine → IsOf P self.new.machine }
        ensures latest { latest_view self.new ≡ latest_view self.old }
        ensures frame { self.new ≡ record self.old { machine = self.new.machine } }
        ensures err { (P : Given) → IsOf P self.old.machine → OnErr result (Stays P self.old self.new) }
        ensures asked { OnOk result ((v : Views) → AreOrdered v → (g : ℕ) (q : Asked) → Seeks self.old.machine g q → found ≡ found_of (v g) q → AsksNext v self.old.machine self.new.machine q) }
    {
        let at = self.sweeping();
        match at.spot {
            SweepSpot::Seek(_) => self.swept_behind(next_in(found)),
            SweepSpot::At(name, reach) => self.sweep_past(name, reach, &clause_in(found)),
        }
    }

    /// The same for a walk, the innermost case.
    fn fetched_walk(&mut self, found: Found) -> Result<(), AllocError>
        requires of { (P : Given) × IsOf P self.old.machine }
        requires fits { (g : ℕ) × (q : Asked) × WalksOn self.old.machine g q × IsFoundFor q found }
        ensures ok { OnOk result ((P : Given) (v : Views) → AreOrdered v → (g : ℕ) (q : Asked) → WalksOn self.old.machine g q → found ≡ found_of (v g) q → KeepsRest P v self.old self.new) }
        ensures of { (P : Given) → IsOf P self.old.machine → IsOf P self.new.machine }
        ensures latest { latest_view self.new ≡ latest_view self.old }
        ensures frame { self.new ≡ record self.old { machine = self.new.machine } }
        ensures err { OnErr result ((P : Given) → Stays P self.old self.new) }
        ensures asked { OnOk result ((v : Views) → AreOrdered v → (g : ℕ) (q : Asked) → WalksOn self.old.machine g q → found ≡ found_of (v g) q → AsksNext v self.old.machine self.new.machine q) }
    {
        let Some(at) = self.machine.stack.walking() else {
            unreachable!()
        };
        match at.walk.spot {
            Spot::Text(_) => unreachable!(),
            Spot::Seek(view, _) => self.walked_behind(view, next_in(found)),
            Spot::At(view, _, _) => self.walked_behind(view, next_in(found)),
            Spot::Known(_, _, _) => self.walked(clause_in(found)),
        }
    }
}

/// The view in which a look-up seeks.
fn view_of(find: &Find) -> View
    ensures { result ≡ find_view find.now }
{
    match find {
        Find::First(_, view) | Find::Exists(_, view) | Find::All(_, view) => *view,
        Find::Sweep(_, sweep) => sweep.view,
    }
}

/// The name that was found.
fn next_in(found: Found) -> Option<ClauseName>
    requires { IsNext found }
    ensures { found ≡ NextOf result }
{
    match found {
        Found::Next(name) => name,
        Found::Clause(_) | Found::Alive(_) | Found::Exists(_) => unreachable!(),
    }
}

/// The clause that was found.
fn clause_in(found: Found) -> Option<Clause>
    requires { IsClause found }
    ensures { found ≡ ClauseOf result }
{
    match found {
        Found::Clause(clause) => clause,
        Found::Next(_) | Found::Alive(_) | Found::Exists(_) => unreachable!(),
    }
}

/// What was found of a procedure's existence.
fn exists_in(found: Found) -> bool
    requires { IsExists found }
    ensures { found ≡ ExistsFound result }
{
    match found {
        Found::Exists(exists) => exists,
        Found::Next(_) | Found::Clause(_) | Found::Alive(_) => unreachable!(),
    }
}
