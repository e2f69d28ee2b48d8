//! What is asked of the database at a time, and the answers.
use plclause::clause::Clause;
use plevent::{ClauseName, Key};
use plrecords::record::Cursor;
use plterm::indicator::Indicator;

/// What is asked of the database at a time.
#[derive(Drop)]
pub enum Query {
    /// The name of the first clause of a procedure behind a cursor that may be for a goal of this key.
    NextLike(Indicator, Key, Cursor),
    /// The name of the next clause of a procedure behind a cursor, whatever its first argument is.
    Next(Indicator, Cursor),
    /// The clause of a name, where it is alive.
    Clause(ClauseName),
    /// Whether the clause of a name is alive.
    Alive(ClauseName),
    /// Whether a procedure is there.
    Exists(Indicator),
}

/// The answer to a query, of the query's kind.
#[derive(Drop)]
pub enum Found {
    /// The name of the clause that is next; none where there is no further one.
    Next(Option<ClauseName>),
    /// The clause; none where it is not alive.
    Clause(Option<Clause>),
    /// Whether the clause is alive.
    Alive(bool),
    /// Whether the procedure is there.
    Exists(bool),
}
