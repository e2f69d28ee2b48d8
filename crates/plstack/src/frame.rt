//! Open cases.

use plcells::cell::Cell;
use plenv::slot::Mark;
use plevent::ClauseName;
use plgenerator::turn::Remaining;
use pllinks::link::Continuation;
use plviews::{Reach, View};

/// How much there was: of the environment, of links, and of values that are kept for calls.
#[derive(Clone, Copy)]
pub struct Marks {
    pub env: Mark,
    pub links: usize,
    pub saved: usize,
}

/// What a case comes back to: how much there was when it was opened, and the list behind its goal.
#[derive(Clone, Copy)]
pub struct Point {
    pub marks: Marks,
    pub list: Continuation,
}

/// A call of a static procedure: its place, how many arguments are kept from the mark on, and the number of the first clause that was not
/// tried.
#[derive(Clone, Copy)]
pub struct Clauses {
    pub procedure: u32,
    pub count: u16,
    pub next: usize,
}

/// What is done with a clause that fits.
#[derive(Clone, Copy)]
pub enum Use {
    /// It is entered.
    Call,
    /// That there is such a clause is told.
    Tell,
    /// It is told and erased.
    Erase,
}

/// A clause by its name, and how far the clauses of its procedure are looked through behind it.
#[derive(Clone, Copy)]
pub struct Ahead {
    pub name: ClauseName,
    pub reach: Reach,
}

/// Where a walk over the clauses of a procedure stands.
#[derive(Clone, Copy)]
pub enum Spot {
    /// At a clause of a procedure of the program's text, by its number.
    Text(usize),
    /// In a view, where the clauses are looked through up to a reach, and the next one is to be found.
    Seek(View, Reach),
    /// In a view, at the clause of a name, behind which the clauses are looked through up to a reach.
    At(View, ClauseName, Reach),
    /// The same, where the next clause behind it that may fit is known, or that there is none.
    Known(View, ClauseName, Option<Ahead>),
}

/// A walk over clauses: the goal that is resolved against them, what is done with one that fits, and where it stands.
#[derive(Clone, Copy)]
pub struct Walk {
    pub goal: Cell,
    pub uses: Use,
    pub spot: Spot,
}

/// A call of a predicate of several answers: how many values are kept from the mark on, and which answers are left.
#[derive(Clone, Copy)]
pub struct Answers {
    pub count: u32,
    pub turn: Remaining,
}

/// A catcher and its recovery.
#[derive(Clone, Copy)]
pub struct Catcher {
    pub catcher: Cell,
    pub recovery: Cell,
}

/// What a handler is for.
#[derive(Clone, Copy)]
pub enum Handler {
    /// A ball may be caught.
    Catch(Catcher),
    /// The term of a value is unified with the list of what was kept.
    Gather(Cell),
    /// A transaction or a snapshot ends without success.
    Undo,
}

/// What an open case does with what it comes back to.
#[derive(Clone, Copy)]
pub enum Resume {
    /// The further clauses of a static procedure are tried.
    Clauses(Clauses),
    /// The clauses that are left of a walk are tried.
    Walk(Walk),
    /// The further answers of a predicate are tried.
    Answers(Answers),
    /// The list is visited.
    List,
    /// It is a handler.
    Handle(Handler),
}

/// Open cases.
#[derive(Clone, Copy)]
pub enum Frame {
    /// So many choices with nothing left to try.
    Plain(u64),
    /// A choice point or a handler.
    Open(Point, Resume),
}

/// A handler of a ball or of what was kept, and the list behind the goal that it is for.
#[derive(Clone, Copy)]
pub struct Handling {
    pub handler: Handler,
    pub list: Continuation,
}

/// The cases that a goal with a cut level of its own runs in, besides the choice of that level.
#[derive(Clone, Copy)]
pub enum Around {
    /// No further case.
    Nothing,
    /// A choice of one list.
    Branch(Continuation),
    /// A handler of a ball or of what was kept.
    Handle(Handling),
}

/// A case that was closed.
#[derive(Clone, Copy)]
pub enum Closed {
    /// A choice.
    Choice,
    /// A handler of a ball or of what was kept.
    Handler,
    /// Where a transaction or a snapshot ends without success.
    Transaction,
}
