//! What a Prolog search is: the depth-first search of a program, defined over the answers that its
//! thread takes from the journal, and the laws of that definition.
//!
//! It has no code. `specs/Forms.antt` says what a goal is, `specs/Rows.antt` has a row for each form of goal and each element of a
//! list, over the moves of `specs/Moves.antt` and the look-ups of `specs/Lookups.antt`; `specs/Replies.antt` says what an element that
//! asked makes of its answer, and `specs/Handlers.antt` what a handler makes of a result. `specs/Engine.antt` is the search over these
//! rows, `specs/Search.antt` the search from a start as the journal sees it, and `specs/Starts.antt` where the threads of a journal start.
//! `specs/Machines` does the same search one row at a time, for the laws and for proofs.
#![tactic(auto)]

ghost use Rattle.plsearch.specs.Laws.{VisitsByWalks, TurnsKeepRest, TurnsEnd, EndsIgnoreAnswers, CutsEmpty, CatchersEmpty, EndsRunWhenDone, StartsStay, MainStarts};

/// A list of goals is visited by one walk, and what comes behind a step or an answer by the search again.
#[tactic(auto, using(crate::proofs::Fuel::laws))]
pub fn visits_by_walks()
    ensures { VisitsByWalks }
{}

/// Each turn of the machine keeps the rest of the search.
#[tactic(auto, using(crate::proofs::Turns::laws))]
pub fn turns_keep_rest()
    ensures { TurnsKeepRest }
{}

/// A turn before the end takes a step or an answer, or makes the machine lighter: so turns come to an end.
#[tactic(auto, using(crate::proofs::Weight::laws))]
pub fn turns_end()
    ensures { TurnsEnd }
{}

/// A search that has ended ignores further answers.
#[tactic(auto, using(crate::proofs::Ends::ends_ignore))]
pub fn ends_ignore_answers()
    ensures { EndsIgnoreAnswers }
{}

/// What is behind a cut names no level above it, and so the cases that the cut gives up may be emptied at once.
#[tactic(auto, using(crate::proofs::Cuts::laws))]
pub fn cuts_empty()
    ensures { CutsEmpty }
{}

/// What is behind the marker of a catcher names no level from that of the catcher on, and so it may be emptied there.
#[tactic(auto, using(crate::proofs::Cuts::laws))]
pub fn catchers_empty()
    ensures { CatchersEmpty }
{}

/// A search that asks to end the run has ended so once that is done, and ends the run in no other way.
pub fn ends_run_when_done()
    ensures { EndsRunWhenDone }
{}

/// Where a thread starts is settled once it is created; and thread 1 of each journal is main, with the program's goals.
#[tactic(auto, using(crate::proofs::Starts::laws))]
pub fn starts_stay()
    ensures stays { StartsStay }
    ensures begins { MainStarts }
{}
