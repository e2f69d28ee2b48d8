//! What a walk looks for.
ghost use Rattle.std.specs.Prelude.{◌≡◌, ◌&&◌};
ghost use Rattle.plevent.specs.Alive.{is_of};
ghost use Rattle.plrecords.specs.Kept.{seen};
ghost use Rattle.plstore.specs.Like.{is_met};

use plevent::Key;
use plrecords::record::Record;
use plterm::indicator::Indicator;

/// The clauses of a procedure that are alive after the batches below `g` and may be for a goal of a key.
#[derive(Drop)]
pub(crate) struct Sought<'a> {
    pub(crate) g: u64,
    pub(crate) pred: &'a Indicator,
    pub(crate) key: &'a Key,
}

impl<'a> Sought<'a> {
    /// Whether a clause is alive, may be for a goal of the key, and is of the procedure.
    pub(crate) fn is_met(&self, one: &Record) -> bool
        ensures { result ≡ is_met self.now.g self.now.pred.now self.now.key.now one.now }
    {
        one.is_seen(self.g) && self.key.fits(&one.clause.head().root()) && one.is_of(self.pred)
    }

    /// Whether a clause is alive and of the procedure, whatever its first argument is.
    pub(crate) fn is_shown(&self, one: &Record) -> bool
        ensures { result ≡ seen self.now.g one.now && is_of self.now.pred.now one.now.clause }
    {
        one.is_seen(self.g) && one.is_of(self.pred)
    }
}
