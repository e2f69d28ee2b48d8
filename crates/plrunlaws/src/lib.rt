//! The laws of runs and their journals: what makes a batch, where a run stands in its journal at each turn of its search, and what a
//! transaction or a snapshot does to the journal.
//!
//! It has no code. `specs/Batches.antt` says what makes a batch. `specs/Standing.antt` ties a run that follows its thread's search to
//! the machine that does the search by turns, and `specs/Transactions.antt` states over both what the laws of the machine's turns in
//! pltransactions come to in the journal.
#![tactic(auto)]

ghost use Rattle.plrunlaws.specs.Batches.{EachBatchIsAsked};
ghost use Rattle.plrunlaws.specs.Standing.{FollowsToItsEnd, StandsSomewhere, StandsOnce, AsksInTurn, StaysElse, EntriesInOrder, EndsWithItsEnd, EndsOnce};
ghost use Rattle.plrunlaws.specs.Transactions.{TransactionsStandAlone, EndsOrLasts, NothingOfItStays, EachBatchInTurn};

/// Each batch behind the first entry of a legal journal is the act of a publication, or of the erasure of one clause that was alive.
#[tactic(auto, using(crate::proofs::Batches::laws))]
pub fn each_batch_is_asked()
    ensures { EachBatchIsAsked }
{}

/// Each run that follows its thread's search to an end of its own is one that the laws here are about. At each turn of its machine it stands at
/// one place of its journal: its items so far are those whose answers the machine has taken.
#[tactic(auto, using(crate::proofs::Standing::laws))]
pub fn stands_at_each_turn()
    ensures follows { FollowsToItsEnd }
    ensures somewhere { StandsSomewhere }
    ensures once { StandsOnce }
{}

/// What a turn asks is an item of the run, answered at the next of its places; and else the run stays where it stands.
#[tactic(auto, using(crate::proofs::Standing::laws))]
pub fn asks_in_turn()
    ensures asks { AsksInTurn }
    ensures stays { StaysElse }
{}

/// The entries that a thread made by a turn stand before all that it makes later, and the last of all tells of its end, which no other does.
#[tactic(auto, using(crate::proofs::Standing::laws))]
pub fn entries_in_order()
    ensures order { EntriesInOrder }
    ensures ends { EndsWithItsEnd }
    ensures alone { EndsOnce }
{}

/// From the view with which an outermost transaction or snapshot begins to its end, its thread asks for no other view, no batch and no
/// erasure, and none of its entries in the journal is a batch; and if it is a transaction that ends with success and has updates, then
/// the thread's next entry is their batch.
#[tactic(auto, using(crate::proofs::Transactions::laws))]
pub fn transactions_stand_alone()
    ensures { TransactionsStandAlone }
{}

/// An outermost transaction or snapshot has its end, or the run ends inside of it: because it has no step left, or ends the run there.
/// From the view on none of its thread's entries is then a batch, and the last of them tells of that end.
#[tactic(auto, using(crate::proofs::Unended::laws))]
pub fn nothing_of_it_stays()
    ensures either { EndsOrLasts }
    ensures inside { NothingOfItStays }
{}

/// Each batch of a run's thread is what a turn asks at which nothing is open: a publication, or the erasure of one clause.
#[tactic(auto, using(crate::proofs::InTurn::laws))]
pub fn each_batch_in_turn()
    ensures { EachBatchInTurn }
{}
