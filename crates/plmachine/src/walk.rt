//! Walks over clauses that are opened, and procedures that are declared (ISO/IEC 13211-1 7.7.7, 8.8, 8.9).
//!
//! What is refused memory leaves the search where it was.
ghost use Rattle.std.specs.Prelude.{◌≡◌, ◌∷◌, ◌++◌, [], OnOk, OnErr};
ghost use Rattle.plcells.specs.Store.{value, IsValue};
ghost use Rattle.plevent.specs.declared.update.Update.TheVariants.{Declare};
ghost use Rattle.plsearch.specs.Moves.{publish};
ghost use Rattle.plsearch.specs.Lookups.{clause_term};
ghost use Rattle.plstack.specs.Frames.{IsSpotSeen};
ghost use Rattle.plstack.specs.Places.{viewed};
ghost use Rattle.plstack.specs.State.{goals_of, walks_in, IsFit, IsList};
ghost use Rattle.plmachine.specs.Clauses.{Walks};
ghost use Rattle.plmachine.specs.Machine.{local_of, IsTied, Moved, Stays};
ghost use Rattle.plprogram.specs.Program.{Program as Given};

use crate::machine::{Machine, Mode, Outcome};
use plcells::cell::Cell;
use plevent::update::Update;
use pllinks::link::Continuation;
use plstack::frame::{Spot, Use, Walk};
use plterm::indicator::Indicator;
use std::alloc::AllocError;

impl Machine {
    /// A walk before a list, of which no clause was tried.
    pub fn walk(&mut self, walk: Walk, rest: Continuation) -> Result<(), AllocError>
        requires goal { IsValue self.old.stack.env.heap walk.goal }
        requires seen { IsSpotSeen self.old.stack.basis.latest walk.spot }
        requires rest { IsList self.old.stack rest }
        requires fits { IsFit self.old.stack rest }
        ensures ok { (P : Given) → OnOk result (Walks P self.old self.new (value self.old.stack.env.heap walk.goal) walk.uses walk.spot (goals_of self.old.stack rest)) }
        ensures walks { OnOk result (walks_in self.new.stack ≡ viewed walk walk.spot ++ walks_in self.old.stack) }
        ensures err { (P : Given) → OnErr result (Stays P self.old self.new) }
    {
        self.stack.open_walk(walk, rest)?;
        self.mode = Mode::Back(Outcome::Fail);
        Ok(())
    }

    /// A walk over clauses that are told: a head and a body, as one term, are unified with them.
    pub fn tell(
        &mut self,
        neck: Neck,
        uses: Use,
        spot: Spot,
        rest: Continuation,
    ) -> Result<(), AllocError>
        requires head { IsValue self.old.stack.env.heap neck.head }
        requires body { IsValue self.old.stack.env.heap neck.body }
        requires seen { IsSpotSeen self.old.stack.basis.latest spot }
        requires rest { IsList self.old.stack rest }
        requires fits { IsFit self.old.stack rest }
        ensures ok { (P : Given) → OnOk result (Walks P self.old self.new (clause_term (value self.old.stack.env.heap neck.head) (value self.old.stack.env.heap neck.body)) uses spot (goals_of self.old.stack rest)) }
        ensures err { (P : Given) → OnErr result (Stays P self.old self.new) }
    {
        let goal = self.stack.put_clause_term(neck.head, neck.body)?;
        self.walk(Walk { goal, uses, spot }, rest)
    }

    /// A procedure that does not exist is declared: retractall/1.
    pub fn declare_one(&mut self, p: Indicator) -> Result<(), AllocError>
        requires fits { IsFit self.old.stack self.old.stack.goals }
        requires tied { IsTied self.old }
        ensures ok { (P : Given) → OnOk result (Moved P self.old self.new (publish (Declare p ∷ []) (goals_of self.old.stack self.old.stack.goals) self.old.stack.env.count (local_of self.old))) }
        ensures err { (P : Given) → OnErr result (Stays P self.old self.new) }
    {
        let rest = self.stack.visited();
        self.publish_one(Update::Declare(p), rest)
    }
}

/// A head and a body.
#[derive(Clone, Copy)]
pub struct Neck {
    pub head: Cell,
    pub body: Cell,
}
