//! Own clauses that were put before all others, and those that were put behind all others.
ghost use Rattle.std.specs.Prelude.{◌≡◌, ℕ, take};
ghost use Rattle.std.specs.List.{slice_get};
ghost use Rattle.std.specs.Option.{option_map};
ghost use Rattle.plevent.specs.Alive.{named};
ghost use Rattle.plstore.specs.Like.{first_like, next_like_of};
ghost use Rattle.plrecords.specs.declared.record.Cursor.TheVariants.{After};
ghost use Rattle.pltx.specs.Overlays.{IsTracked};
ghost use Rattle.pltx.specs.Walks.{cursor_at, is_first, own_backs, own_batch, own_fronts, puts_first, AllErasedApart};

use crate::overlay::Overlay;
use crate::own::OwnCursor;
use plevent::{Key, Update};
use plterm::indicator::Indicator;

impl Overlay {
    /// The number of the first own clause put before all others that is alive after the first `m` updates, or of the one
    /// behind that at a cursor.
    pub(crate) fn next_front(
        &self,
        m: u64,
        pred: &Indicator,
        key: &Key,
        cursor: OwnCursor,
    ) -> Option<u64>
        requires { IsTracked self.now }
        ensures { (b : ℕ) → AllErasedApart b (take m self.now.updates.items) → option_map (named b) result ≡ next_like_of key.now (cursor_at b cursor) (own_fronts (own_batch b m self.now.updates.items) pred.now) }
    {
        match self.next_own(m, pred, key, cursor) {
            None => None,
            Some(number) => {
                if self.is_front(number) {
                    return Some(number);
                }
                None
            }
        }
    }

    /// The same of those put behind all others.
    pub(crate) fn next_back(
        &self,
        m: u64,
        pred: &Indicator,
        key: &Key,
        cursor: OwnCursor,
    ) -> Option<u64>
        requires { IsTracked self.now }
        ensures { (b : ℕ) → AllErasedApart b (take m self.now.updates.items) → option_map (named b) result ≡ next_like_of key.now (cursor_at b cursor) (own_backs (own_batch b m self.now.updates.items) pred.now) }
    {
        match cursor {
            OwnCursor::Start => self.first_back(m, pred, key),
            OwnCursor::After(number) => self.back_after(m, pred, key, number),
        }
    }

    fn first_back(&self, m: u64, pred: &Indicator, key: &Key) -> Option<u64>
        requires { IsTracked self.now }
        ensures { (b : ℕ) → AllErasedApart b (take m self.now.updates.items) → option_map (named b) result ≡ first_like key.now (own_backs (own_batch b m self.now.updates.items) pred.now) }
    {
        match self.draft.first_back(m, pred, key) {
            Some(name) => Some(name.place),
            None => None,
        }
    }

    /// Behind one that was put before all others there is none of these.
    fn back_after(&self, m: u64, pred: &Indicator, key: &Key, number: u64) -> Option<u64>
        requires { IsTracked self.now }
        ensures { (b : ℕ) → AllErasedApart b (take m self.now.updates.items) → option_map (named b) result ≡ next_like_of key.now (After (named b number)) (own_backs (own_batch b m self.now.updates.items) pred.now) }
    {
        if self.is_front(number) {
            return None;
        }
        self.next_own(m, pred, key, OwnCursor::After(number))
    }

    /// Whether the update of a number puts a clause before all others.
    fn is_front(&self, number: u64) -> bool
        ensures { result ≡ puts_first (slice_get self.now.updates.items number) }
    {
        match self.updates.get(number as usize) {
            None => false,
            Some(update) => is_first(update),
        }
    }
}

/// Whether an update puts a clause before all others.
pub(crate) fn is_first(update: &Update) -> bool
    ensures { result ≡ is_first update.now }
{
    matches!(update, Update::First(_))
}
