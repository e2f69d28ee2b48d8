//! Where what is open ends, with success or without, and where a clause is erased of it.
//!
//! A turn that is refused memory leaves the search where it was.

ghost use Rattle.std.specs.Prelude.{◌≡◌, ℕ, ◌↔◌, [], IfNone, IfOk, IfSome, IsTrue, OnErr, OnOk};
ghost use Rattle.pllinks.specs.declared.item.MarkerKind.TheVariants.{Transact as Transacts};
ghost use Rattle.plprogram.specs.Program.{Program as Given};
ghost use Rattle.plsearch.specs.Rows.{published};
ghost use Rattle.plstack.specs.First.{IsFirst};
ghost use Rattle.plstack.specs.State.{EndsWalks, HasUndo};
ghost use Rattle.plstack.specs.declared.first.First.TheVariants.{Marker as MarkerFirst};
ghost use Rattle.plmachine.specs.Machine.{IsLast, IsMachine, IsTied};
ghost use Rattle.plmachine.specs.declared.machine.Mode.TheVariants.{Ask as Asks};
ghost use Rattle.plmachine.specs.declared.machine.Question.{Question as Asked};
ghost use Rattle.plsolver.specs.Solver.{ErasesOwn, IsBack, IsOf, Quiet, PausesAt, Stays};

use crate::progress::{Pause, Progress};
use plevent::request::Request;
use plevent::{Batch, ClauseName};
use pllinks::level::Level;
use pllinks::link::Continuation;
use plmachine::machine::{Mode, Outcome, Question, Then};
use pltx::Ended;
use std::alloc::AllocError;

impl Progress {
    /// One turn at what is asked: a clause is erased of what is open; all else is due.
    #[tactic(auto, using(crate::proofs::Ending::ends_same, crate::proofs::Ending::ends_refl))]
    pub(crate) fn wait(&mut self) -> Result<Option<Pause>, AllocError>
        requires asks { (q : Asked) × (self.old.machine.mode ≡ Asks q) }
        requires of { (P : Given) × IsOf P self.old.machine }
        ensures on { (P : Given) → IsOf P self.old.machine → IfOk result (λ o. IfNone o (Quiet P self.old self.new)) }
        ensures due { (P : Given) → IsOf P self.old.machine → IfOk result (λ o. IfSome o (λ pause. PausesAt P self.new pause × Stays P self.old self.new)) }
        ensures err { (P : Given) → IsOf P self.old.machine → OnErr result (Stays P self.old self.new) }
        ensures walks { EndsWalks self.old.machine.stack self.new.machine.stack }
    {
        let Mode::Ask(question) = &self.machine.mode else {
            unreachable!()
        };
        let name = match question {
            Question::Look(_) => return Ok(Some(Pause::Look)),
            Question::Begin(_, _) => return Ok(Some(Pause::Look)),
            Question::Await(_, _) => return Ok(Some(Pause::Await)),
            Question::Erase(name) => *name,
        };
        if !self.machine.layer.is_open() {
            return Ok(Some(Pause::Await));
        }
        self.erase(name)?;
        Ok(None)
    }

    /// A clause is erased of what is open before the visited list.
    #[tactic(auto, using(crate::proofs::Ending::ends_same, crate::proofs::Ending::ends_refl))]
    fn erase(&mut self, name: ClauseName) -> Result<(), AllocError>
        requires erases { ErasesOwn self.old name }
        requires of { (P : Given) × IsOf P self.old.machine }
        ensures ok { (P : Given) → IsOf P self.old.machine → OnOk result (Quiet P self.old self.new) }
        ensures err { (P : Given) → IsOf P self.old.machine → OnErr result (Stays P self.old self.new) }
        ensures walks { EndsWalks self.old.machine.stack self.new.machine.stack }
    {
        let rest = self.machine.stack.visited();
        self.machine.erase(name, rest)
    }

    /// The marker at which what was opened last ends with success: the choices down to a level are given up, and the updates of the outermost
    /// transaction are published before the list.
    #[tactic(auto, using(crate::proofs::Ending::ends_same, crate::proofs::Ending::ends_refl))]
    pub(crate) fn end_transaction(
        &mut self,
        outer: Level,
        rest: Continuation,
    ) -> Result<(), AllocError>
        requires visits { self.old.machine.mode ≡ Mode.Visit }
        requires marker { (own : ℕ) × IsFirst self.old.machine.stack (MarkerFirst (Transacts outer) own rest) }
        requires tied { IsTied self.old.machine }
        ensures ok { OnOk result ((P : Given) → Quiet P self.old self.new) }
        ensures err { OnErr result (self.new ≡ self.old) }
        ensures walks { EndsWalks self.old.machine.stack self.new.machine.stack }
    {
        self.machine.stack.pass_transact(outer, rest)?;
        let ended = self.machine.layer.end(true);
        if let Some(updates) = batch_of(ended) {
            let request = Request::Publish(updates);
            self.machine.mode = Mode::Ask(Question::Await(request, Then::GoesOn));
        }
        Ok(())
    }

    /// Closes the innermost case, at which what was opened last ends without success, unless a result is carried after which nothing is
    /// visited any more.
    #[tactic(auto, using(crate::proofs::Ending::ends_same, crate::proofs::Ending::ends_refl))]
    pub(crate) fn undo(&mut self)
        requires back { IsBack self.old }
        requires undo { HasUndo self.old.machine.stack }
        requires sound { IsMachine self.old.machine }
        ensures quiet { (P : Given) → Quiet P self.old self.new }
        ensures walks { EndsWalks self.old.machine.stack self.new.machine.stack }
    {
        let is_last = self.is_last();
        self.machine.stack.close();
        if !is_last {
            self.machine.layer.end(false);
        }
    }

    /// Whether a result is carried after which nothing is visited any more.
    fn is_last(&self) -> bool
        ensures { IsTrue result ↔ IsLast self.now.machine.mode }
    {
        matches!(
            self.machine.mode,
            Mode::Back(Outcome::Stop) | Mode::Back(Outcome::Halted(_)) | Mode::Back(Outcome::Spent)
        )
    }
}

/// The updates that are to be published at an end, if there are any.
fn batch_of(ended: Ended) -> Option<Batch>
    ensures some { IfSome result (λ us. ended ≡ Ended.Publish us) }
    ensures none { IfNone result (published ended ≡ []) }
{
    match ended {
        Ended::Publish(updates) => Some(updates),
        Ended::Merged | Ended::Nothing | Ended::Dropped => None,
    }
}
