//! The solver.

ghost use Rattle.std.specs.Prelude.{◌≡◌, ℕ, ◌+◌, ◌≤◌, [], ◌∷◌, ◌++◌, IfOk, OnOk, OnErr};
ghost use Rattle.plevent.specs.Search.{Seen, Got};
ghost use Rattle.plstack.specs.State.{walks_in};
ghost use Rattle.plstore.specs.Looking.{Views, found as found_of};
ghost use Rattle.plviews.specs.Views.{AreOrdered};
ghost use Rattle.plmachine.specs.Machine.{SeeksAnew};
ghost use Rattle.plprogram.specs.Program.{Program as Given};
ghost use Rattle.plsearch.specs.Search.{search_of};
ghost use Rattle.plsearch.specs.Solving.{Begins, Goes, TakesOne};
ghost use Rattle.plsolver.specs.Fetching.{Fetches, IsFoundFor};
ghost use Rattle.plsolver.specs.Solver.{GoesTo, IsOf, IsSharedOf, Stays, latest_view, rest_of, WaitsForView, ReplyFits, start_given};
ghost use Rattle.plsolver.specs.Advancing.{AdvancesInPart, AdvancesTo};
ghost use Rattle.plsolver.specs.Asking.{AsksNext};
ghost use Rattle.plsolver.specs.Says.{Says, IsSlice};

use crate::progress::Progress;
use crate::shared::Shared;
use plevent::request::{Reply, Request, ThreadEnd};
use plevent::{JournalPlace, ThreadId};
use plprogram::program::Program;
use plstore::{Found, Query};
use plterm::name::Name;
use plterm::term::Term;
use std::alloc::{AllocError, Global};
use std::marker::Model;
use std::mem::replace;

/// The search of a thread, which can stop and go on. It goes on with the program that it was begun with.
#[derive(Drop)]
pub struct Solver {
    progress: Progress,
}

impl Model for Solver {
    ghost use Rattle.std.specs.Coded.{codes};
    ghost use Rattle.plterm.specs.Reading.{tree_code};
    ghost use Rattle.plsolver.specs.declared.progress.Progress.{Progress as Reached};

    ghost Value = { Reached };

    ghost coded = { Prim.hlevel (codes, tree_code) };

    ghost view = { λ s. s.progress };
}

/// What a call of a solver came to.
#[derive(Drop)]
pub enum Turn {
    /// It asks a request.
    Ask(Request),
    /// It asks for a view of the database.
    Refresh,
    /// It asks something in a view that it has.
    Fetch(Query),
    /// The fuel is used.
    Slice,
    /// The search has ended.
    Ended(ThreadEnd),
}

/// Where a search starts.
#[derive(Drop)]
pub struct Start {
    /// Its thread, and the thread's alias, if it has one.
    pub thread: ThreadId,
    pub alias: Option<Name>,
    /// The goal of a thread that was created. Main has none of its own: its goals are the program's.
    pub goal: Option<Term>,
}

impl Solver {
    /// The search from a start: its goals in order, each once, with at most so many steps. The code is the program's, and shared with its other
    /// solvers.
    pub fn new(
        alloc: Global,
        shared: &Shared,
        program: &Program,
        start: Start,
        limit: u64,
    ) -> Result<Solver, AllocError>
        requires { IsSharedOf program.now shared.now }
        ensures begins { IfOk result (λ s. (v : Views) → Begins (search_of program.now (start_given program.now start) limit) (rest_of program.now v s) s.used) }
        ensures of { IfOk result (λ s. IsOf program.now s.machine) }
        ensures latest { IfOk result (λ s. latest_view s ≡ 0) }
        ensures limit { IfOk result (λ s. s.limit ≡ limit) }
        ensures places { IfOk result (λ s. s.places.items ≡ []) }
        ensures walks { IfOk result (λ s. walks_in s.machine.stack ≡ []) }
    {
        let progress = Progress::new(alloc, shared, program, start, limit)?;
        Ok(Solver { progress })
    }

    /// The bytes written so far.
    pub fn output(&self) -> &[u8]
        ensures { result.now ≡ self.now.machine.out.items }
    {
        &self.progress.machine.out
    }

    /// The places of the answers taken so far, in order.
    pub fn places(&self) -> &[JournalPlace]
        ensures { result.now ≡ self.now.places.items }
    {
        &self.progress.places
    }

    /// The bytes written so far, which it has no more.
    pub fn take_output(&mut self) -> Vec<u8>
        ensures is { result.items ≡ self.old.machine.out.items }
        ensures left { self.new.machine.out.items ≡ [] }
        ensures rest { self.new ≡ record self.old { machine = record self.old.machine { out = self.new.machine.out } } }
    {
        let alloc = self.progress.machine.alloc;
        replace(&mut self.progress.machine.out, Vec::new(alloc))
    }

    /// The places of the answers taken so far, which it has no more.
    pub fn take_places(&mut self) -> Vec<JournalPlace>
        ensures is { result.items ≡ self.old.places.items }
        ensures left { self.new.places.items ≡ [] }
        ensures rest { self.new ≡ record self.old { places = self.new.places } }
    {
        let alloc = self.progress.machine.alloc;
        replace(&mut self.progress.places, Vec::new(alloc))
    }

    /// The steps taken so far.
    pub fn steps(&self) -> u64
        ensures { result ≡ self.now.used }
    {
        self.progress.used
    }

    /// Goes on until something is asked, the search ends, or so many steps are taken.
    pub fn advance(&mut self, program: &Program, fuel: u64) -> Result<Turn, AllocError>
        requires of { IsOf program.now self.old.machine }
        requires within { self.old.used ≤ self.old.limit }
        ensures goes { GoesTo program.now self.old self.new }
        ensures of { IsOf program.now self.new.machine }
        ensures latest { latest_view self.new ≡ latest_view self.old }
        ensures limit { self.new.limit ≡ self.old.limit }
        ensures places { self.new.places.items ≡ self.old.places.items }
        ensures fuel { self.new.used ≤ self.old.used + fuel }
        ensures slice { IfOk result (λ turn. IsSlice turn → self.new.used ≡ self.old.used + fuel) }
        ensures says { IfOk result (λ turn. Says program.now self.new turn) }
        ensures walks { AdvancesInPart program.now self.old self.new }
        ensures advances { IfOk result (λ turn. AdvancesTo program.now self.old self.new) }
    {
        self.progress.advance(program, fuel)
    }

    /// The reply to the request that is asked. A refused growth leaves the solver as it was.
    pub fn reply(&mut self, place: JournalPlace, reply: Reply) -> Result<(), AllocError>
        requires of { (P : Given) × IsOf P self.old.machine }
        requires fits { ReplyFits self.old reply }
        requires within { self.old.used ≤ self.old.limit }
        ensures ok { (P : Given) → IsOf P self.old.machine → OnOk result ((v : Views) → TakesOne (Got reply) (rest_of P v self.old) self.old.used (rest_of P v self.new) self.new.used) }
        ensures places { OnOk result (self.new.places.items ≡ self.old.places.items ++ place ∷ []) }
        ensures of { (P : Given) → IsOf P self.old.machine → IsOf P self.new.machine }
        ensures latest { latest_view self.new ≡ latest_view self.old }
        ensures limit { self.new.limit ≡ self.old.limit }
        ensures err { (P : Given) → IsOf P self.old.machine → OnErr result (Stays P self.old self.new) }
        ensures walks { walks_in self.new.machine.stack ≡ walks_in self.old.machine.stack }
    {
        self.progress.reply(place, reply)
    }

    /// The place of the view that the look-up which waits has from now on, or that on which a transaction or a snapshot begins. A refused growth
    /// leaves the solver as it was.
    pub fn refreshed(&mut self, g: JournalPlace) -> Result<(), AllocError>
        requires of { (P : Given) × IsOf P self.old.machine }
        requires waits { WaitsForView self.old }
        requires latest { latest_view self.old ≤ g }
        ensures ok { (P : Given) → IsOf P self.old.machine → OnOk result ((v : Views) → TakesOne (Seen g (v g)) (rest_of P v self.old) self.old.used (rest_of P v self.new) self.new.used) }
        ensures places { OnOk result (self.new.places.items ≡ self.old.places.items ++ g ∷ []) }
        ensures of { (P : Given) → IsOf P self.old.machine → IsOf P self.new.machine }
        ensures latest { OnOk result (latest_view self.new ≡ g) }
        ensures limit { self.new.limit ≡ self.old.limit }
        ensures err { (P : Given) → IsOf P self.old.machine → OnErr result (Stays P self.old self.new) }
        ensures walks { walks_in self.new.machine.stack ≡ walks_in self.old.machine.stack }
        ensures seeks { OnOk result (SeeksAnew self.new.machine.mode) }
    {
        self.progress.refreshed(g)
    }

    /// The place of the view in which something is asked.
    pub fn view(&self) -> JournalPlace
        requires fetching { (g : ℕ) × (q : Query) × Fetches self.now g q }
        requires of { (P : Given) × IsOf P self.now.machine }
        ensures is { (g : ℕ) (q : Query) → Fetches self.now g q → result ≡ g }
        ensures seen { result ≤ latest_view self.now }
    {
        JournalPlace::new(self.progress.view())
    }

    /// What was asked in a view, and found there. A refused growth leaves the solver as it was.
    pub fn fetched(&mut self, found: Found) -> Result<(), AllocError>
        requires of { (P : Given) × IsOf P self.old.machine }
        requires fits { (g : ℕ) × (q : Query) × Fetches self.old g q × IsFoundFor q found }
        requires within { self.old.used ≤ self.old.limit }
        ensures ok { (P : Given) → IsOf P self.old.machine → OnOk result ((v : Views) → AreOrdered v → (g : ℕ) (q : Query) → Fetches self.old g q → found ≡ found_of (v g) q → Goes self.old.limit (rest_of P v self.old) self.old.used (rest_of P v self.new) self.new.used) }
        ensures of { (P : Given) → IsOf P self.old.machine → IsOf P self.new.machine }
        ensures latest { latest_view self.new ≡ latest_view self.old }
        ensures used { self.new.used ≡ self.old.used }
        ensures places { self.new.places.items ≡ self.old.places.items }
        ensures limit { self.new.limit ≡ self.old.limit }
        ensures err { (P : Given) → IsOf P self.old.machine → OnErr result (Stays P self.old self.new) }
        ensures asked { OnOk result ((v : Views) → AreOrdered v → (g : ℕ) (q : Query) → Fetches self.old g q → found ≡ found_of (v g) q → AsksNext v self.old.machine self.new.machine q) }
    {
        self.progress.fetched(found)
    }
}
