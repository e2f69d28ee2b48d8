//! The own updates of a thread's open transactions.
ghost use Rattle.std.specs.Prelude.{◌≡◌, ◌≢◌, ℕ, length, slice_get, take, IfOk, OnErr, OnOk};
ghost use Rattle.std.specs.Option.{option_copied, option_map};
ghost use Rattle.plevent.specs.Alive.{change_if, exists, living, named};
ghost use Rattle.plstore.specs.Like.{next_like_of};
ghost use Rattle.plstore.specs.Looking.{clause_alive};
ghost use Rattle.pltx.specs.Own.{added, begun, ended, ending, erased, erased_in, nothing, IsAddition, IsOpen};
ghost use Rattle.pltx.specs.Walks.{before_first, cursor_at, own_backs, own_batch, own_fronts, AllErasedApart};
ghost use Rattle.pltx.specs.declared.target.Erasure.TheVariants.{Erased, Gone};

use crate::level::{Ended, Isolation};
use crate::overlay::Overlay;
use crate::target::{Erasure, Target};
use plclause::clause::Clause;
use plevent::{JournalPlace, Key, Update};
use plterm::indicator::Indicator;
use std::alloc::{AllocError, Global};
use std::marker::Model;

/// The own updates of a thread's open transactions and snapshots, numbered from 0, on top of a place of the journal. They are
/// seen by that thread alone, until the outermost transaction ends with success and they are published as one batch.
#[derive(Drop)]
pub struct Own {
    overlay: Overlay,
}

/// Before the first own clause of a walk, or behind the one that an own update made.
#[derive(Clone, Copy)]
pub enum OwnCursor {
    Start,
    After(u64),
}

impl Model for Own {
    ghost use Rattle.pltx.specs.Own.{State, state_code};
    ghost use Rattle.std.specs.Prelude.{reverse};

    ghost Value = { State };

    ghost coded = { state_code };

    ghost view = { λ a. record { base = a.overlay.base; updates = a.overlay.updates.items; levels = reverse a.overlay.levels.items } };

    ghost use Rattle.pltx.specs.Overlays.{IsOverlay};

    ghost invariant = { λ a. IsOverlay a.overlay };
}

impl Own {
    /// Nothing is open.
    pub fn new(alloc: Global) -> Own
        ensures { result ≡ nothing }
    {
        Own {
            overlay: Overlay::new(alloc),
        }
    }

    /// Begins a transaction or a snapshot inside what is open. The base counts for the outermost one alone.
    pub fn begin(&mut self, kind: Isolation, base: JournalPlace) -> Result<(), AllocError>
        ensures begun { OnOk result (self.new ≡ begun kind base self.old) }
        ensures refused { OnErr result (self.new ≡ self.old) }
    {
        self.overlay.begin(kind, base)
    }

    /// Makes an update that erases nothing, and gives its number.
    pub fn add(&mut self, update: Update) -> Result<u64, AllocError>
        requires addition { IsAddition update }
        requires open { IsOpen self.old }
        ensures number { IfOk result (λ k. k ≡ length self.old.updates) }
        ensures added { OnOk result (self.new ≡ added update self.old) }
        ensures refused { OnErr result (self.new ≡ self.old) }
    {
        self.overlay.add(update)
    }

    /// Erases a clause, unless an own update has erased it before.
    pub fn erase(&mut self, target: Target) -> Result<Erasure, AllocError>
        requires { IsOpen self.old }
        ensures answer { IfOk result (λ e. e ≡ change_if (erased_in target self.old.updates) Gone Erased) }
        ensures erased { OnOk result (self.new ≡ erased target self.old) }
        ensures refused { OnErr result (self.new ≡ self.old) }
    {
        self.overlay.erase(target)
    }

    /// Ends the innermost transaction or snapshot, with success or without.
    pub fn end(&mut self, success: bool) -> Ended
        requires { IsOpen self.old }
        ensures answer { result ≡ ending success self.old }
        ensures ended { self.new ≡ ended success self.old }
    {
        self.overlay.end(success)
    }

    /// The number of the first own clause of a procedure that is alive after the first `m` updates and may be for a goal of
    /// this key, or of the one behind that at the cursor; none where that one is the last, or is not among those alive.
    pub fn next_own(&self, m: u64, pred: &Indicator, key: &Key, cursor: OwnCursor) -> Option<u64>
        ensures { (b : ℕ) → AllErasedApart b (take m self.now.updates) → option_map (named b) result ≡ next_like_of key.now (cursor_at b cursor) (living (own_batch b m self.now.updates) pred.now) }
    {
        self.overlay.next_own(m, pred, key, cursor)
    }

    /// The same of the clauses that were put before all others.
    pub fn next_front(&self, m: u64, pred: &Indicator, key: &Key, cursor: OwnCursor) -> Option<u64>
        ensures { (b : ℕ) → AllErasedApart b (take m self.now.updates) → option_map (named b) result ≡ next_like_of key.now (cursor_at b cursor) (own_fronts (own_batch b m self.now.updates) pred.now) }
    {
        self.overlay.next_front(m, pred, key, cursor)
    }

    /// The same of those that were put behind all others.
    pub fn next_back(&self, m: u64, pred: &Indicator, key: &Key, cursor: OwnCursor) -> Option<u64>
        ensures { (b : ℕ) → AllErasedApart b (take m self.now.updates) → option_map (named b) result ≡ next_like_of key.now (cursor_at b cursor) (own_backs (own_batch b m self.now.updates) pred.now) }
    {
        self.overlay.next_back(m, pred, key, cursor)
    }

    /// How many updates there are before the first that puts a clause before all others; all, where none does.
    pub fn before_fronts(&self) -> u64
        ensures { result ≡ before_first self.now.updates }
    {
        self.overlay.before_fronts as u64
    }

    /// The clause that an update made, where it is alive after the first `m`.
    pub fn clause(&self, m: u64, number: u64) -> Option<&Clause>
        ensures { (b : ℕ) → AllErasedApart b (take m self.now.updates) → option_copied result ≡ clause_alive (named b number) (own_batch b m self.now.updates) }
    {
        self.overlay.clause(m, number)
    }

    /// Whether one of the first `m` updates named the procedure: it declared it, or made a clause of it.
    pub fn exists_own(&self, m: u64, pred: &Indicator) -> bool
        ensures { (b : ℕ) → result ≡ exists (own_batch b m self.now.updates) pred.now }
    {
        self.overlay.exists(m, pred)
    }

    /// Whether one of the first `m` updates erased a clause.
    pub fn erased(&self, m: u64, target: Target) -> bool
        ensures { result ≡ erased_in target (take m self.now.updates) }
    {
        self.overlay.erased(m, target)
    }

    /// The update of a number.
    pub fn update(&self, number: u64) -> Option<&Update>
        ensures { option_copied result ≡ slice_get self.now.updates number }
    {
        self.overlay.updates.get(number as usize)
    }

    /// How many updates there are.
    pub fn len(&self) -> u64
        ensures { result ≡ length self.now.updates }
    {
        self.overlay.updates.len() as u64
    }

    /// How many transactions and snapshots are open.
    pub fn depth(&self) -> usize
        ensures { result ≡ length self.now.levels }
    {
        self.overlay.levels.len()
    }

    /// The place of the journal that the outermost one began at.
    pub fn base(&self) -> JournalPlace
        requires { IsOpen self.now }
        ensures { result ≡ self.now.base }
    {
        self.overlay.base
    }
}
