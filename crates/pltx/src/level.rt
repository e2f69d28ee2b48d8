//! Open transactions and snapshots, and how they end.
ghost use Rattle.std.specs.Prelude.{◌≡◌};
ghost use Rattle.pltx.specs.Own.{is_kept};

use plevent::Batch;

/// What is open: a transaction, whose updates stay where it succeeds, or a snapshot, whose updates never stay.
#[derive(Clone, Copy)]
pub enum Isolation {
    Transaction,
    Snapshot,
}

/// An open transaction or snapshot, and how many own updates there were at its start.
#[derive(Clone, Copy)]
pub struct Level {
    pub kind: Isolation,
    pub start: usize,
}

/// What an end comes to.
#[derive(Drop)]
pub enum Ended {
    /// An inner transaction: its updates are now those of the one around it.
    Merged,
    /// The outermost transaction: its updates are to be published as one batch.
    Publish(Batch),
    /// The outermost transaction, with no updates.
    Nothing,
    /// The updates since the start are gone.
    Dropped,
}

impl Level {
    /// Whether the updates since its start stay, where it ends with success or without.
    pub(crate) fn is_kept(&self, success: bool) -> bool
        ensures { result ≡ is_kept success self.now.kind }
    {
        match self.kind {
            Isolation::Transaction => success,
            Isolation::Snapshot => false,
        }
    }
}
