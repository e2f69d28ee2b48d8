//! What a search asks, and what it makes of the replies.

ghost use Rattle.std.specs.Prelude.{◌≡◌, ◌≤◌, [], ◌∷◌, ◌++◌, IfOk, OnOk, OnErr};
ghost use Rattle.plevent.specs.Search.{Got, Finishes};
ghost use Rattle.plsearch.specs.Search.{next_of};
ghost use Rattle.plsearch.specs.Solving.{TakesOne};
ghost use Rattle.plstack.specs.State.{walks_in};
ghost use Rattle.plstore.specs.Looking.{Views};
ghost use Rattle.plmachine.specs.Machine.{result_of};
ghost use Rattle.plsolver.specs.Solver.{IsOf, Stays, latest_view, rest_of, Waits, ReplyFits, IsOver, IsRequestOf, PausesAt, after_done, after_reply, next_after};
ghost use Rattle.plevent.specs.declared.request.Request.{Request as Requested};
ghost use Rattle.plsolver.specs.Says.{Says, IsSlice};
ghost use Rattle.plprogram.specs.Program.{Program as Given};

use crate::progress::{Pause, Progress};
use crate::solver::Turn;
use plevent::JournalPlace;
use plevent::request::{Reply, Request, ThreadEnd};
use plmachine::machine::{Mode, Outcome, Question, Then};
use std::alloc::{AllocError, Global};

impl Progress {
    /// The reply to the request that is asked.
    pub fn reply(&mut self, place: JournalPlace, reply: Reply) -> Result<(), AllocError>
        requires of { (P : Given) × IsOf P self.old.machine }
        requires fits { ReplyFits self.old reply }
        requires within { self.old.used ≤ self.old.limit }
        ensures ok { (P : Given) → IsOf P self.old.machine → OnOk result ((v : Views) → TakesOne (Got reply) (rest_of P v self.old) self.old.used (rest_of P v self.new) self.new.used) }
        ensures of { (P : Given) → IsOf P self.old.machine → IsOf P self.new.machine }
        ensures latest { latest_view self.new ≡ latest_view self.old }
        ensures places { OnOk result (self.new.places.items ≡ self.old.places.items ++ place ∷ []) }
        ensures limit { self.new.limit ≡ self.old.limit }
        ensures err { (P : Given) → IsOf P self.old.machine → OnErr result (Stays P self.old self.new) }
        ensures walks { walks_in self.new.machine.stack ≡ walks_in self.old.machine.stack }
    {
        let Mode::Ask(question) = &self.machine.mode else {
            unreachable!()
        };
        let next = next_of(question);
        self.places.push(place)?;
        self.machine.mode = mode_after(&reply, next);
        Ok(())
    }

    /// What is said where the search pauses.
    pub(crate) fn told(&self, pause: Pause) -> Result<Turn, AllocError>
        requires of { (P : Given) × IsOf P self.now.machine }
        requires within { self.now.used ≤ self.now.limit }
        requires due { (P : Given) × PausesAt P self.now pause }
        ensures says { (P : Given) → IsOf P self.now.machine → PausesAt P self.now pause → IfOk result (λ turn. Says P self.now turn) }
        ensures other { IfOk result (λ turn. IsSlice turn → ⊥) }
    {
        match pause {
            Pause::Look => Ok(Turn::Refresh),
            Pause::Fetch => self.wanted(),
            Pause::Await => self.asked(),
            Pause::Over => self.ended(),
        }
    }

    /// The request that waits.
    fn asked(&self) -> Result<Turn, AllocError>
        requires waits { Waits self.now }
        requires within { self.now.used ≤ self.now.limit }
        ensures says { (P : Given) → IfOk result (λ turn. Says P self.now turn) }
        ensures other { IfOk result (λ turn. IsSlice turn → ⊥) }
    {
        let Mode::Ask(question) = &self.machine.mode else {
            unreachable!()
        };
        let request = request_of(self.machine.alloc, question)?;
        Ok(Turn::Ask(request))
    }

    /// The end of the search.
    fn ended(&self) -> Result<Turn, AllocError>
        requires over { (P : Given) × IsOver P self.now }
        requires within { self.now.used ≤ self.now.limit }
        ensures says { (P : Given) → IsOver P self.now → IfOk result (λ turn. Says P self.now turn) }
        ensures other { IfOk result (λ turn. IsSlice turn → ⊥) }
    {
        let Mode::Back(outcome) = &self.machine.mode else {
            unreachable!()
        };
        let end = end_of(self.machine.alloc, outcome)?;
        Ok(Turn::Ended(end))
    }
}

/// The request that a question asks.
fn request_of(alloc: Global, question: &Question) -> Result<Request, AllocError>
    requires { (q : Requested) × IsRequestOf question.now q }
    ensures { IfOk result (λ q. IsRequestOf question.now q) }
{
    match question {
        Question::Await(request, _) => request.copied(alloc),
        Question::Erase(name) => Ok(Request::EraseOne(*name)),
        Question::Look(_) | Question::Begin(_, _) => unreachable!(),
    }
}

/// What follows the request that a question asks.
fn next_of(question: &Question) -> Then
    requires { (q : Requested) × IsRequestOf question.now q }
    ensures { result ≡ next_after question.now }
{
    match question {
        Question::Await(_, next) => *next,
        Question::Erase(_) => Then::GoesOn,
        Question::Look(_) | Question::Begin(_, _) => unreachable!(),
    }
}

/// What is next after a reply: a request that came too late fails.
fn mode_after(reply: &Reply, next: Then) -> Mode
    ensures { result ≡ after_reply reply.now next }
{
    match reply {
        Reply::Gone => Mode::Back(Outcome::Fail),
        Reply::Started { .. }
        | Reply::RunOver
        | Reply::Stopped
        | Reply::NotYet(_)
        | Reply::Published
        | Reply::Erased
        | Reply::Done
        | Reply::Shut => mode_of(next),
    }
}

/// What is next where a request was served.
fn mode_of(next: Then) -> Mode
    ensures { result ≡ after_done next }
{
    match next {
        Then::GoesOn => Mode::Visit,
        Then::Ends(number) => Mode::Back(Outcome::Halted(number)),
    }
}

/// The end that a result is.
fn end_of(alloc: Global, outcome: &Outcome) -> Result<ThreadEnd, AllocError>
    ensures { IfOk result (λ e. next_of (result_of outcome.now) ≡ Finishes e) }
{
    match outcome {
        Outcome::Stop => Ok(ThreadEnd::True),
        Outcome::Fail => Ok(ThreadEnd::False),
        Outcome::Halted(number) => Ok(ThreadEnd::Halt(*number)),
        Outcome::Spent => Ok(ThreadEnd::Budget),
        Outcome::Throw(ball, _) => {
            let ball = ball.copied(alloc)?;
            Ok(ThreadEnd::Exception(ball))
        }
    }
}
