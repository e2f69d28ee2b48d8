//! The laws of transactions and snapshots, over the definition of the search: what is asked while one is open, what its end comes to,
//! and that nothing is left open. `specs/Laws.antt` states them over the machine that does the search by turns.
//!
//! It has no code.
#![tactic(auto)]

ghost use Rattle.pltransactions.specs.Laws.{SearchByTurns, TakesWhatItAsks, WaitsForWhatItAsks, OpensWithView, ClosesAtItsEnd, OpenAsksNoClauses, OpenAnswersStay, OuterEndPublishes, InnerEndAsksNothing, OpenHaveEnds, UndoEndsOne, NothingLeftOpen};

/// The turns of a search's machine come to the end that the search has.
#[tactic(auto, using(crate::proofs::Transactions::laws))]
pub fn search_by_turns()
    ensures { SearchByTurns }
{}

/// A turn takes one answer where it asks for one, and else none: what a result passes outward asks nothing.
#[tactic(auto, using(crate::proofs::Transactions::laws))]
pub fn takes_what_it_asks()
    ensures takes { TakesWhatItAsks }
    ensures waits { WaitsForWhatItAsks }
{}

/// A transaction or a snapshot that is the outermost one begins with a view, and ends at its marker or its case Undo.
#[tactic(auto, using(crate::proofs::Opening::laws))]
pub fn opens_with_view()
    ensures opens { OpensWithView }
    ensures closes { ClosesAtItsEnd }
{}

/// From the view with which it begins to its end no other view is asked for, no batch is published and no clause is erased; and what is
/// asked besides leaves what is open as it is, whatever the answer.
#[tactic(auto, using(crate::proofs::Transactions::laws))]
pub fn open_asks_no_clauses()
    ensures asks { OpenAsksNoClauses }
    ensures stays { OpenAnswersStay }
{}

/// An outermost transaction that ends with success asks that its updates are published, as one batch, if it has any; a snapshot and an
/// inner end ask nothing.
#[tactic(auto, using(crate::proofs::Transactions::laws))]
pub fn ends_publish()
    ensures outer { OuterEndPublishes }
    ensures inner { InnerEndAsksNothing }
{}

/// As many are open as the list has ends before it, and each case Undo ends the one that it began.
#[tactic(auto, using(crate::proofs::Transactions::laws))]
pub fn open_have_ends()
    ensures lists { OpenHaveEnds }
    ensures undo { UndoEndsOne }
{}

/// Where a search is done, fails, or throws a ball that nothing catches, nothing is left open.
#[tactic(auto, using(crate::proofs::Transactions::laws))]
pub fn nothing_left_open()
    ensures { NothingLeftOpen }
{}
