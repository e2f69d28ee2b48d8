//! The machine of a search.

use plcells::cell::Cell;
use plcollect::collection::Collection;
use plevent::request::Request;
use plevent::{ClauseName, ThreadId, Update};
use pllinks::level::Level;
use plprogram::settings::Settings;
use plstack::frame::Use;
use plstack::stack::Stack;
use plterm::name::Name;
use plterm::term::Term;
use pltx::Isolation;
use plviews::{Layer, Reach, View};
use std::alloc::Global;

/// How the visit of a list ends.
#[derive(Drop)]
pub enum Outcome {
    /// The list is done.
    Stop,
    /// It has no further solution.
    Fail,
    /// A ball was thrown, with the levels of the markers behind it.
    Throw(Term, Vec<Level>),
    /// The run was ended with a number.
    Halted(u8),
    /// No step is left.
    Spent,
}

/// What follows once a request is done.
#[derive(Clone, Copy, Debug, PartialEq, Eq)]
pub enum Then {
    /// The list goes on.
    GoesOn,
    /// The run is ended with a number.
    Ends(u8),
}

/// What clauses are looked up for, by the values of its terms.
#[derive(Clone, Copy)]
pub enum Lookup {
    /// A goal is called.
    ToCall(Cell),
    /// The clauses of a head and a body are told: clause/2.
    ToRetrieve(Cell, Cell),
    /// The clauses of a head and a body are erased, one for each solution: retract/1.
    ToRetract(Cell, Cell),
    /// All clauses of a head are erased: retractall/1.
    ToRetractAll(Cell),
}

/// What is asked before the visited list goes on.
#[derive(Drop)]
pub enum Question {
    /// The view in which clauses are looked up.
    Look(Lookup),
    /// The view on which a transaction or a snapshot of the goal of a value begins.
    Begin(Isolation, Cell),
    /// The reply to the publication of updates, or to the end of the run.
    Await(Request, Then),
    /// The reply to the erasure of the clause of a name.
    Erase(ClauseName),
}

/// Where the clauses of a head, all of which are to be erased, are looked through.
#[derive(Clone, Copy)]
pub enum SweepSpot {
    /// Those that are left.
    Seek(Reach),
    /// The clause of a name, and those that are left behind it.
    At(ClauseName, Reach),
}

/// The erasure of all clauses of a head: its view, where these are looked through, and the erasures so far.
#[derive(Drop)]
pub struct Sweep {
    pub view: View,
    pub spot: SweepSpot,
    pub updates: Vec<Update>,
}

/// A goal that is to be resolved against clauses, and what is done with one that fits.
#[derive(Clone, Copy)]
pub struct Sought {
    pub goal: Cell,
    pub uses: Use,
}

/// What is sought in a view that was taken.
#[derive(Drop)]
pub enum Find {
    /// The first clause that may be for a goal.
    First(Sought, View),
    /// Whether the procedure of a goal exists, in a view in which no clause may be for the goal.
    Exists(Cell, View),
    /// Whether the procedure of a head exists, all of whose clauses are to be erased.
    All(Cell, View),
    /// The clauses of a head, all of which are to be erased.
    Sweep(Cell, Sweep),
}

/// What is next: the visited list is gone through, something is asked or sought before it, or a result is carried outward.
#[derive(Drop)]
pub enum Mode {
    Visit,
    Ask(Question),
    Find(Find),
    Back(Outcome),
}

/// A machine that does one row at a time.
#[derive(Drop)]
pub struct Machine {
    pub alloc: Global,
    /// The thread whose search it does, and its alias, if it has one.
    pub thread: ThreadId,
    pub alias: Option<Name>,
    pub stack: Stack,
    /// The own updates of its open transactions.
    pub layer: Layer,
    pub mode: Mode,
    /// The bytes written.
    pub out: Vec<u8>,
    /// The operators and flags of the thread.
    pub settings: Settings,
    /// The copies that are kept for findall/3.
    pub kept: Collection,
    /// The values of the arguments of the goal that is selected.
    pub args: Vec<Cell>,
}
