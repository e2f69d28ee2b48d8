//! What goal lists are made of.
ghost use Rattle.std.specs.Prelude.{◌≡◌, ◌↔◌, IsTrue};
ghost use Rattle.pllinks.specs.Links.{done, IsDone};

use crate::level::Level;
use plcells::cell::Cell;

/// What a marker is for.
#[derive(Clone, Copy)]
pub enum MarkerKind {
    /// Behind it the choices down to its level are given up.
    Commit,
    /// Here the choices down to its level are given up, and the list fails.
    Never,
    /// Up to here the handler of its level is active.
    Until,
    /// Here a copy of the term of a value is kept for the handler of its level, and the list fails.
    Collect(Cell),
    /// Here what is open ends with success, and behind it the choices down to this level are given up.
    Transact(Level),
}

/// Goals of a clause, from a position of its code on.
#[derive(Clone, Copy)]
pub struct ClauseGoals {
    pub position: u32,
    /// How many conjunctions of the first goal have been selected.
    pub owed: u32,
    /// Where the clause's slots begin.
    pub base: u32,
    /// Where they end.
    pub end: u32,
    /// Its cut level.
    pub level: Level,
}

impl ClauseGoals {
    /// No goals: those behind the last one of a clause, whose code begins with an end.
    pub fn done() -> ClauseGoals
        ensures { result ≡ done }
    {
        ClauseGoals {
            position: 0,
            owed: 0,
            base: 0,
            end: 0,
            level: Level::BOTTOM,
        }
    }

    /// Whether these are the goals behind the last one.
    pub fn is_done(&self) -> bool
        ensures { IsTrue result ↔ IsDone self.now }
    {
        self.position == 0 && self.owed == 0
    }
}

/// A part of a goal list.
#[derive(Clone, Copy)]
pub enum Portion {
    /// Goals of a clause.
    Clause(ClauseGoals),
    /// A goal that is a term: its cut level, and its value.
    Goal(Level, Cell),
    /// A marker, and its level.
    Marker(MarkerKind, Level),
}
