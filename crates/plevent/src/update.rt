//! Updates of the database, and batches of them.
ghost use Rattle.std.specs.Prelude.{◌≡◌, ◌∷◌, [], IfOk};
ghost use Rattle.plevent.specs.Batches.{updates_held};

use plclause::clause::Clause;
use plterm::indicator::Indicator;
use std::alloc::{AllocError, Global};
use std::marker::Model;
use std::sync::Arc;

/// The name of a clause: update `number` of the batch at `place` of the journal made it.
#[derive(Clone, Copy, PartialEq, Eq, Hash)]
pub struct ClauseName {
    /// Where the batch stands in the journal, from 0.
    pub place: u64,
    /// Which of its updates it is, from 0.
    pub number: u64,
}

/// A clause that was made, and its name.
#[derive(Drop)]
pub struct Living {
    pub name: ClauseName,
    pub clause: Clause,
}

/// A change of the database.
#[derive(Drop)]
pub enum Update {
    /// A clause before all others of its procedure.
    First(Clause),
    /// A clause behind all others of its procedure.
    Last(Clause),
    /// A clause goes; of one that is not there, nothing.
    Erase(ClauseName),
    /// The clause that this update of the same batch made goes.
    EraseOwn(u64),
    /// A procedure is there from now on, maybe without clauses.
    Declare(Indicator),
}

impl Update {
    /// The same update again; it shares its clause.
    pub fn copied(&self) -> Result<Update, AllocError>
        ensures { IfOk result (λ u. u ≡ self.now) }
    {
        match self {
            Update::First(clause) => {
                let copy = clause.copied()?;
                return Ok(Update::First(copy));
            }
            Update::Last(clause) => {
                let copy = clause.copied()?;
                return Ok(Update::Last(copy));
            }
            Update::Erase(name) => return Ok(Update::Erase(*name)),
            Update::EraseOwn(number) => return Ok(Update::EraseOwn(*number)),
            Update::Declare(pred) => {
                let copy = pred.copied()?;
                return Ok(Update::Declare(copy));
            }
        }
    }
}

/// The updates of a batch: mostly it is one, and of more, copies of the batch share them.
#[derive(Drop)]
pub(crate) enum Held {
    One(Update),
    Shared(Arc<Vec<Update>>),
    /// There was no memory to share them.
    Alone(Vec<Update>),
}

/// Updates that are made at once, in their order.
#[derive(Drop)]
pub struct Batch {
    held: Held,
}

impl Model for Batch {
    ghost use Rattle.std.specs.Prelude.{List};
    ghost use Rattle.plevent.specs.declared.update.Update.{Update};
    ghost use Rattle.std.specs.Coded.{coded_list};
    ghost use Rattle.plevent.specs.Batches.{updates_held};
    ghost use Rattle.plevent.specs.contracts.update.Update.{the_row};

    ghost Value = { List Update };

    ghost coded = { coded_list the_row.coded };

    ghost view = { λ a. updates_held a.held };
}

impl Batch {
    /// The batch of these updates.
    pub fn new(alloc: Global, updates: Vec<Update>) -> Batch
        ensures { result ≡ updates.items }
    {
        let mut updates = updates;
        if updates.len() != 1 {
            return Batch {
                held: shared(alloc, updates),
            };
        }
        match updates.pop() {
            Some(update) => Batch::of(update),
            None => unreachable!(),
        }
    }

    /// The batch of one update.
    pub fn of(update: Update) -> Batch
        ensures { result ≡ update ∷ [] }
    {
        Batch {
            held: Held::One(update),
        }
    }

    /// The updates, in order.
    pub fn as_slice(&self) -> &[Update]
        ensures { result.now ≡ self.now }
    {
        match &self.held {
            Held::One(update) => std::array::from_ref(update).as_slice(),
            Held::Shared(updates) => (&**updates).as_slice(),
            Held::Alone(updates) => updates.as_slice(),
        }
    }

    /// The same batch again. It shares its updates, or where it is one, its clause: no update is copied, unless there was no memory to share them.
    pub fn copied(&self, alloc: Global) -> Result<Batch, AllocError>
        ensures { IfOk result (λ b. b ≡ self.now) }
    {
        match &self.held {
            Held::One(update) => Ok(Batch::of(update.copied()?)),
            Held::Shared(updates) => {
                let held = Held::Shared(Arc::try_clone(updates)?);
                Ok(Batch { held })
            }
            Held::Alone(updates) => {
                let held = Held::Alone(copied_all(alloc, updates)?);
                Ok(Batch { held })
            }
        }
    }
}

/// Updates that copies of a batch are to share, where there is memory for it.
fn shared(alloc: Global, updates: Vec<Update>) -> Held
    ensures { updates_held result ≡ updates.items }
{
    match Arc::new(alloc, updates) {
        Ok(updates) => Held::Shared(updates),
        Err(failed) => Held::Alone(failed.value),
    }
}

/// The same updates again.
fn copied_all(alloc: Global, updates: &[Update]) -> Result<Vec<Update>, AllocError>
    ensures { IfOk result (λ us. us.items ≡ updates.now) }
{
    let mut copies = Vec::with_capacity(alloc, updates.len())?;
    for update in updates {
        copies.push(update.copied()?)?;
    }
    Ok(copies)
}
