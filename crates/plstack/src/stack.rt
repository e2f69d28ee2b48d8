//! The stack.
ghost use Rattle.std.specs.Prelude.{◌≡◌, ◌+◌, ◌⊎◌, ◌↔◌, [], IfOk, IsTrue};
ghost use Rattle.platoms.specs.Names.{Extends as ExtendsNames};
ghost use Rattle.plcode.specs.Steps.{goals_from};
ghost use Rattle.plsearch.specs.Engine.{deeper};
ghost use Rattle.pllinks.specs.Links.{alone};
ghost use Rattle.plstack.specs.Places.{Database};
ghost use Rattle.plstack.specs.Basis.{IsShown};
ghost use Rattle.plstack.specs.State.{cases_of, depth_in, seeing, HasAnswers, HasBranch, HasCatcher, HasClauses, HasWalk, HasGatherer, HasHandler, HasPlain, HasUndo};

use crate::basis::Basis;
use crate::copier::Copier;
use crate::frame::{Frame, Handler, Resume};
use plcells::cell::Cell;
use plcode::program::{ProgramCode, SharedCode};
use plenv::env::Environment;
use plhead::head::Matcher;
use pllinks::level::Level;
use pllinks::link::{Continuation, Link};
use pllinks::list::ListId;
use plviews::View;
use std::alloc::{AllocError, Global};
use std::marker::Model;

/// What the cases rest on, an environment, the goal lists over it, the values that open cases keep, the open cases of a search, and the list
/// that is visited.
#[derive(Drop)]
pub struct Stack {
    pub(crate) basis: Basis,
    pub(crate) env: Environment,
    pub(crate) matcher: Matcher,
    pub(crate) copier: Copier,
    pub(crate) links: Vec<Link>,
    pub(crate) saved: Vec<Cell>,
    pub(crate) frames: Vec<Frame>,
    pub(crate) goals: Continuation,
    pub(crate) depth: Level,
}

impl Model for Stack {
    ghost use Rattle.std.specs.Coded.{codes};
    ghost use Rattle.plterm.specs.Reading.{tree_code};
    ghost use Rattle.plstack.specs.State.{State, IsStack};

    ghost Value = { State };

    ghost coded = { Prim.hlevel (codes, tree_code) };

    ghost view = { λ a. record { basis = record { code = a.basis.code; latest = a.basis.latest; starts = a.basis.starts.items }; env = a.env; links = a.links.items; saved = a.saved.items; frames = a.frames.items; goals = a.goals } };

    ghost invariant = { λ a. IsStack (record { basis = record { code = a.basis.code; latest = a.basis.latest; starts = a.basis.starts.items }; env = a.env; links = a.links.items; saved = a.saved.items; frames = a.frames.items; goals = a.goals }) a.depth };
}

impl Stack {
    /// A stack with nothing on it, of a program's code, over an environment with the names of the code.
    pub fn new(alloc: Global, code: SharedCode, env: Environment) -> Result<Stack, AllocError>
        requires names { ExtendsNames code.text.names env.heap.names }
        requires none { goals_from code.text 0 0 ≡ [] }
        ensures { IfOk result (λ s. s ≡ record { basis = record { code = code; latest = record { place = 0; count = 0 }; starts = [] }; env = env; links = []; saved = []; frames = []; goals = alone 0 }) }
    {
        let copier = Copier::new(alloc)?;
        let _ = env.heap();
        Ok(Stack {
            basis: Basis {
                code,
                latest: View { place: 0, count: 0 },
                starts: Vec::new(alloc),
            },
            env,
            matcher: Matcher::new(alloc),
            copier,
            links: Vec::new(alloc),
            saved: Vec::new(alloc),
            frames: Vec::new(alloc),
            goals: Continuation::alone(ListId::EMPTY),
            depth: Level::BOTTOM,
        })
    }

    /// The program's code.
    pub fn code(&self) -> &ProgramCode
        ensures is { result.now ≡ self.now.basis.code }
        ensures names { ExtendsNames self.now.basis.code.text.names self.now.env.heap.names }
    {
        self.basis.code.code()
    }

    /// From now on a walk may go on in this view.
    pub fn sees(&mut self, view: View)
        requires { IsShown self.old.basis.latest view }
        ensures { self.new ≡ seeing view self.old }
    {
        self.basis.latest = view;
    }

    /// The environment.
    pub fn env(&self) -> &Environment
        ensures { result.now ≡ self.now.env }
    {
        &self.env
    }

    /// The level above all open cases.
    #[tactic(auto, using(crate::proofs::Stacks::depth_is))]
    pub fn depth(&self) -> Level
        ensures is { result ≡ depth_in self.now }
        ensures cases { (db : Database) → result ≡ deeper (cases_of db self.now) 0 }
    {
        self.depth
    }

    /// The level of the innermost case, which is a handler.
    pub fn level(&self) -> Level
        requires { HasHandler self.now ⊎ HasUndo self.now }
        ensures { (db : Database) → deeper (cases_of db self.now) 0 ≡ result + 1 }
    {
        self.depth.down(1)
    }

    /// Whether the innermost case is a choice of further clauses of a static procedure.
    pub fn is_clauses(&self) -> bool
        ensures { IsTrue result ↔ HasClauses self.now }
    {
        matches!(self.frames.last(), Some(Frame::Open(_, Resume::Clauses(_))))
    }

    /// Whether the innermost case is a walk.
    pub fn is_walk(&self) -> bool
        ensures { IsTrue result ↔ HasWalk self.now }
    {
        matches!(self.frames.last(), Some(Frame::Open(_, Resume::Walk(_))))
    }

    /// Whether the innermost case is a choice of further answers of a predicate.
    pub fn is_answers(&self) -> bool
        ensures { IsTrue result ↔ HasAnswers self.now }
    {
        matches!(self.frames.last(), Some(Frame::Open(_, Resume::Answers(_))))
    }

    /// Whether the innermost case is a choice of a list that is to be tried.
    pub fn is_branch(&self) -> bool
        ensures { IsTrue result ↔ HasBranch self.now }
    {
        matches!(self.frames.last(), Some(Frame::Open(_, Resume::List)))
    }

    /// Whether the innermost cases are choices with nothing left to try.
    pub fn is_plain(&self) -> bool
        ensures { IsTrue result ↔ HasPlain self.now }
    {
        matches!(self.frames.last(), Some(Frame::Plain(_)))
    }

    /// Whether the innermost case is a handler of a ball.
    pub fn is_catcher(&self) -> bool
        ensures { IsTrue result ↔ HasCatcher self.now }
    {
        matches!(
            self.frames.last(),
            Some(Frame::Open(_, Resume::Handle(Handler::Catch(_))))
        )
    }

    /// Whether the innermost case is a handler of what was kept.
    pub fn is_gatherer(&self) -> bool
        ensures { IsTrue result ↔ HasGatherer self.now }
    {
        matches!(
            self.frames.last(),
            Some(Frame::Open(_, Resume::Handle(Handler::Gather(_))))
        )
    }

    /// Whether a transaction or a snapshot ends without success at the innermost case.
    pub fn is_undo(&self) -> bool
        ensures { IsTrue result ↔ HasUndo self.now }
    {
        matches!(
            self.frames.last(),
            Some(Frame::Open(_, Resume::Handle(Handler::Undo)))
        )
    }
}
