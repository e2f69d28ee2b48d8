//! What a look-up may ask, and what begins where a search advances.

ghost use Rattle.plsolver.specs.Advancing.{BeginsBySteps, WalksBySteps};
ghost use Rattle.plsolver.specs.Asking.{AsksNoMore, AsksOnce};

/// A look-up, with the walk that it becomes, asks nothing twice.
#[tactic(auto, using(crate::proofs::Asking::asks_once))]
pub fn asks_once()
    ensures { AsksOnce }
{}

/// For what was asked is asked no more.
#[tactic(auto, using(crate::proofs::Asking::asks_no_more))]
pub fn asks_no_more()
    ensures { AsksNoMore }
{}

/// Where a search advances, at most as many look-ups and walks begin as it takes steps.
#[tactic(auto, using(crate::proofs::Advancing::begins_by_steps))]
pub fn begins_by_steps()
    ensures { BeginsBySteps }
{}

/// And so of the walks where memory was refused on the way.
pub fn walks_by_steps()
    ensures { WalksBySteps }
{}
