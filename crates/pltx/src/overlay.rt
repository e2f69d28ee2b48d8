//! Own updates, with what finds their clauses.
ghost use Rattle.std.specs.Prelude.{◌≡◌, ◌≢◌, ℕ, suc, true, false, ◌++◌, ◌<◌, ◌≤◌, ◌∷◌, [], fold, length, take, IfOk, OnErr, OnOk, vec_len};
ghost use Rattle.std.specs.HashMap.{spare};
ghost use Rattle.std.specs.Vec.{vec_capacity};
ghost use Rattle.std.specs.Option.{option_copied, option_map};
ghost use Rattle.plevent.specs.Alive.{change_if, exists, living, named};
ghost use Rattle.plstore.specs.Like.{next_like_of};
ghost use Rattle.plstore.specs.Looking.{clause_alive};
ghost use Rattle.pltx.specs.Walks.{cursor_at, own_batch, AllErasedApart};
ghost use Rattle.plstore.specs.Cut.{cut};
ghost use Rattle.plrecords.specs.Kept.{keep};
ghost use Rattle.pltx.specs.Overlays.{draft_cursor, drafts, state_of, IsOverlay, IsTracked};
ghost use Rattle.pltx.specs.Own.{added, begun, ended, ending, erased, erased_in, erasing, nothing, published, IsAddition, IsOpen};
ghost use Rattle.pltx.specs.declared.level.Ended.{Ended as End};
ghost use Rattle.pltx.specs.declared.target.Erasure.TheVariants.{Erased, Gone};

use crate::level::{Ended, Isolation, Level};
use crate::marks::{mark, marked, unmark};
use crate::own::OwnCursor;
use crate::sides::is_first;
use crate::target::{Erasure, Target};
use plclause::clause::Clause;
use plevent::{Batch, ClauseName, JournalPlace, Key, Update};
use plrecords::Cursor;
use plstore::Draft;
use plterm::indicator::Indicator;
use std::alloc::{AllocError, Global};
use std::collections::HashMap;
use std::mem::replace;

/// The own updates of open transactions, with what finds their clauses.
#[derive(Drop)]
pub(crate) struct Overlay {
    pub(crate) alloc: Global,
    /// The place of the journal that the outermost transaction began at.
    pub(crate) base: JournalPlace,
    pub(crate) updates: Vec<Update>,
    /// The open levels, the innermost last.
    pub(crate) levels: Vec<Level>,
    /// The clauses of the updates, that of update k at place k.
    pub(crate) draft: Draft,
    /// By what is erased the number of the update that erased it.
    pub(crate) marks: HashMap<Target, u64>,
    /// How many updates there are before the first that puts a clause before all others.
    pub(crate) before_fronts: usize,
}

impl Overlay {
    pub(crate) fn new(alloc: Global) -> Overlay
        ensures state { state_of result ≡ nothing }
        ensures kept { IsOverlay result }
    {
        Overlay {
            alloc,
            base: JournalPlace::START,
            updates: Vec::new(alloc),
            levels: Vec::new(alloc),
            draft: Draft::new(alloc),
            marks: HashMap::new(alloc),
            before_fronts: 0,
        }
    }

    /// Begins a transaction or a snapshot. The base counts for the outermost one alone.
    pub(crate) fn begin(&mut self, kind: Isolation, base: JournalPlace) -> Result<(), AllocError>
        requires { IsOverlay self.old }
        ensures begun { OnOk result (state_of self.new ≡ begun kind base (state_of self.old)) }
        ensures refused { OnErr result (state_of self.new ≡ state_of self.old) }
        ensures kept { IsOverlay self.new }
    {
        let start = self.updates.len();
        self.levels.push(Level { kind, start })?;
        if self.levels.len() == 1 {
            self.base = base;
        }
        Ok(())
    }

    /// Makes an update that erases nothing, and gives its number.
    pub(crate) fn add(&mut self, update: Update) -> Result<u64, AllocError>
        requires addition { IsAddition update }
        requires open { IsOpen (state_of self.old) }
        requires kept { IsOverlay self.old }
        ensures number { IfOk result (λ k. k ≡ length self.old.updates.items) }
        ensures added { OnOk result (state_of self.new ≡ added update (state_of self.old)) }
        ensures refused { OnErr result (state_of self.new ≡ state_of self.old) }
        ensures kept { IsOverlay self.new }
    {
        let number = self.updates.len() as u64;
        self.updates.reserve(1)?;
        self.draft.add(&update, number)?;
        let is_front = is_first(&update);
        append(&mut self.updates, update);
        self.before_fronts = before_fronts(self.before_fronts, self.updates.len(), is_front);
        Ok(number)
    }

    /// Erases a clause, unless an own update has erased it before.
    pub(crate) fn erase(&mut self, target: Target) -> Result<Erasure, AllocError>
        requires open { IsOpen (state_of self.old) }
        requires kept { IsOverlay self.old }
        ensures answer { IfOk result (λ e. e ≡ change_if (erased_in target self.old.updates.items) Gone Erased) }
        ensures erased { OnOk result (state_of self.new ≡ erased target (state_of self.old)) }
        ensures refused { OnErr result (state_of self.new ≡ state_of self.old) }
        ensures kept { IsOverlay self.new }
    {
        match marked(&self.marks, &target) {
            Some(_) => return Ok(Erasure::Gone),
            None => {
                self.erase_now(target)?;
                return Ok(Erasure::Erased);
            }
        }
    }

    /// Erases a clause that no own update has erased.
    fn erase_now(&mut self, target: Target) -> Result<(), AllocError>
        requires fresh { erased_in target self.old.updates.items ≡ false }
        requires open { IsOpen (state_of self.old) }
        requires kept { IsOverlay self.old }
        ensures erased { OnOk result (state_of self.new ≡ added (erasing target) (state_of self.old)) }
        ensures refused { OnErr result (state_of self.new ≡ state_of self.old) }
        ensures kept { IsOverlay self.new }
    {
        self.updates.reserve(1)?;
        self.marks.reserve(1)?;
        let number = self.updates.len() as u64;
        erase_in(&mut self.draft, &target, number)?;
        append(&mut self.updates, target.erasing());
        self.before_fronts = before_fronts(self.before_fronts, self.updates.len(), false);
        mark(&mut self.marks, target, number);
        Ok(())
    }

    /// Ends the innermost transaction or snapshot, with success or without.
    pub(crate) fn end(&mut self, success: bool) -> Ended
        requires open { IsOpen (state_of self.old) }
        requires kept { IsOverlay self.old }
        ensures answer { result ≡ ending success (state_of self.old) }
        ensures ended { state_of self.new ≡ ended success (state_of self.old) }
        ensures kept { IsOverlay self.new }
    {
        match self.levels.pop() {
            None => unreachable!(),
            Some(level) => {
                let kept = level.is_kept(success);
                if self.levels.is_empty() {
                    return self.close(kept);
                }
                return self.leave(level.start, kept);
            }
        }
    }

    /// Ends the outermost one, which is no level any more.
    fn close(&mut self, kept: bool) -> Ended
        requires levels { self.old.levels.items ≡ [] }
        requires tracked { IsTracked self.old }
        ensures answer { result ≡ change_if kept (published self.old.updates.items) End.Dropped }
        ensures closed { state_of self.new ≡ nothing }
        ensures kept { IsOverlay self.new }
    {
        self.base = JournalPlace::START;
        self.before_fronts = 0;
        self.marks = HashMap::new(self.alloc);
        self.draft = Draft::new(self.alloc);
        let updates = replace(&mut self.updates, Vec::new(self.alloc));
        if kept {
            return published(self.alloc, updates);
        }
        Ended::Dropped
    }

    /// Ends an inner one, which is no level any more.
    fn leave(&mut self, start: usize, kept: bool) -> Ended
        requires levels { self.old.levels.items ≢ [] }
        requires tracked { IsTracked self.old }
        ensures answer { result ≡ change_if kept End.Merged End.Dropped }
        ensures left { state_of self.new ≡ record (state_of self.old) { updates = change_if kept self.old.updates.items (take start self.old.updates.items) } }
        ensures kept { IsOverlay self.new }
    {
        if kept {
            return Ended::Merged;
        }
        self.cut(start);
        Ended::Dropped
    }

    /// Takes back the updates from one on.
    fn cut(&mut self, start: usize)
        requires { IsTracked self.old }
        ensures cut { state_of self.new ≡ record (state_of self.old) { updates = take start self.old.updates.items } }
        ensures levels { self.new.levels ≡ self.old.levels }
        ensures tracked { IsTracked self.new }
    {
        if self.updates.len() <= start {
            return;
        }
        unmark(&mut self.marks, &self.updates.as_slice()[start..]);
        self.draft.cut(start as u64);
        self.updates.truncate(start);
        self.before_fronts = lower(self.before_fronts, start);
    }
}

impl Overlay {
    /// The number of the first own clause that is alive after the first `m` updates, or of the one behind that at a cursor.
    pub(crate) fn next_own(
        &self,
        m: u64,
        pred: &Indicator,
        key: &Key,
        cursor: OwnCursor,
    ) -> Option<u64>
        requires { IsTracked self.now }
        ensures { (b : ℕ) → AllErasedApart b (take m self.now.updates.items) → option_map (named b) result ≡ next_like_of key.now (cursor_at b cursor) (living (own_batch b m self.now.updates.items) pred.now) }
    {
        match self.draft.next_like(m, pred, key, in_draft(cursor)) {
            Some(name) => Some(name.place),
            None => None,
        }
    }

    /// The clause that an update made, where it is alive after the first `m`.
    pub(crate) fn clause(&self, m: u64, number: u64) -> Option<&Clause>
        requires { IsTracked self.now }
        ensures { (b : ℕ) → AllErasedApart b (take m self.now.updates.items) → option_copied result ≡ clause_alive (named b number) (own_batch b m self.now.updates.items) }
    {
        let name = draft_name(number);
        if self.draft.alive(m, name) {
            return self.draft.clause(name);
        }
        None
    }

    /// Whether one of the first `m` updates named the procedure.
    pub(crate) fn exists(&self, m: u64, pred: &Indicator) -> bool
        requires { IsTracked self.now }
        ensures { (b : ℕ) → result ≡ exists (own_batch b m self.now.updates.items) pred.now }
    {
        self.draft.exists(m, pred)
    }

    /// Whether one of the first `m` updates erased a clause.
    pub(crate) fn erased(&self, m: u64, target: Target) -> bool
        requires { IsTracked self.now }
        ensures { result ≡ erased_in target (take m self.now.updates.items) }
    {
        match marked(&self.marks, &target) {
            Some(number) => number < m,
            None => false,
        }
    }
}

/// The cursor at the clause of the draft.
fn in_draft(cursor: OwnCursor) -> Cursor
    ensures { result ≡ draft_cursor cursor }
{
    match cursor {
        OwnCursor::Start => Cursor::Start,
        OwnCursor::After(number) => Cursor::After(draft_name(number)),
    }
}

/// The name that the clause of an update has in the draft.
fn draft_name(number: u64) -> ClauseName
    ensures { result ≡ named number 0 }
{
    ClauseName {
        place: number,
        number: 0,
    }
}

/// What the updates come to, once the outermost transaction has ended with success.
fn published(alloc: Global, updates: Vec<Update>) -> Ended
    ensures { result ≡ published updates.items }
{
    if updates.is_empty() {
        return Ended::Nothing;
    }
    Ended::Publish(Batch::new(alloc, updates))
}

/// How many updates there are before the first that puts a clause before all others, once the last one of these is made.
fn before_fronts(before: usize, count: usize, is_front: bool) -> usize
    ensures more { suc before ≡ count → is_front ≡ false → result ≡ count }
    ensures same { (suc before ≡ count → is_front ≡ true) → result ≡ before }
{
    if count > before && count - before == 1 && !is_front {
        count
    } else {
        before
    }
}

/// The lower one.
fn lower(before: usize, start: usize) -> usize
    ensures start { start < before → result ≡ start }
    ensures before { before ≤ start → result ≡ before }
{
    if start < before { start } else { before }
}

/// Appends an update, for which there is room.
fn append(updates: &mut Vec<Update>, update: Update)
    requires { vec_len updates.old < vec_capacity updates.old }
    ensures { updates.new.items ≡ updates.old.items ++ update ∷ [] }
{
    match updates.push(update) {
        Ok(()) => {}
        Err(_) => unreachable!(),
    }
}

/// Makes an erasure in a draft, where it is of an own clause.
fn erase_in(draft: &mut Draft, target: &Target, number: u64) -> Result<(), AllocError>
    requires { cut number draft.old ≡ draft.old }
    ensures made { OnOk result (draft.new ≡ fold keep draft.old (drafts number (erasing target.now))) }
    ensures refused { OnErr result (draft.new ≡ draft.old) }
{
    match target {
        Target::Committed(_) => return Ok(()),
        Target::Own(own) => {
            let name = draft_name(*own);
            return draft.add(&Update::Erase(name), number);
        }
    }
}
