//! The rows of halt/0 and halt/1 (ISO/IEC 13211-1 8.17).
//!
//! A row that is refused memory leaves the search where it was.
ghost use Rattle.std.specs.Prelude.{◌≡◌, ℕ, List, ◌∷◌, IfOk, OnOk, OnErr};
ghost use Rattle.plcells.specs.Store.{value, IsValue};
ghost use Rattle.plevent.specs.declared.request.Request.TheVariants.{HaltRun};
ghost use Rattle.plsearch.specs.Types.{Element, Local, Asking, Await, Ends};
ghost use Rattle.plsearch.specs.Moves.{go_on as went_on};
ghost use Rattle.plsearch.specs.Rows.{halting, modulo_256};
ghost use Rattle.plstack.specs.State.{goals_of, IsFit, IsList};
ghost use Rattle.plmachine.specs.Asking.{ended_with};
ghost use Rattle.plmachine.specs.Machine.{local_of, Moved, Stays};
ghost use Rattle.plprogram.specs.Program.{Program as Given};

use crate::machine::{Machine, Question, Then};
use planswers::list::is_variable;
use plcells::cell::Cell;
use plerror::error;
use plevent::request::Request;
use pllinks::link::Continuation;
use plrefusals::predicate::Predicate;
use plrefusals::value::integer_in;
use plterm::term::Term;
use std::alloc::AllocError;

/// What the number of halt/1 comes to.
#[derive(Drop)]
pub enum Status {
    /// The run is ended with this number.
    Is(u8),
    /// It is no integer: the error.
    Raises(Term),
}

impl Machine {
    /// The end of the run, with a number as its status.
    pub fn halt(&mut self, status: u8, rest: Continuation)
        requires rest { IsList self.old.stack rest }
        requires fits { IsFit self.old.stack rest }
        ensures { (P : Given) → Moved P self.old self.new (went_on (Asking (Await (HaltRun status) (Ends status)) ∷ goals_of self.old.stack rest) self.old.stack.env.count (local_of self.old)) }
    {
        let request = Request::HaltRun(status);
        self.ask(Question::Await(request, Then::Ends(status)), rest);
    }

    /// halt/1.
    #[inline(never)]
    pub fn halt_with(&mut self, number: Cell, rest: Continuation) -> Result<(), AllocError>
        requires number { IsValue self.old.stack.env.heap number }
        requires rest { IsList self.old.stack rest }
        requires fits { IsFit self.old.stack rest }
        ensures ok { (P : Given) → OnOk result (Moved P self.old self.new (halting (value self.old.stack.env.heap number) (goals_of self.old.stack rest) self.old.stack.env.count (local_of self.old))) }
        ensures err { (P : Given) → OnErr result (Stays P self.old self.new) }
    {
        match self.status(number)? {
            Status::Is(status) => {
                self.halt(status, rest);
                Ok(())
            }
            Status::Raises(error) => {
                let p = Predicate::Halt.indicator(self.alloc)?;
                self.raise(error, &p, rest)
            }
        }
    }

    /// What the number of halt/1 comes to.
    fn status(&self, number: Cell) -> Result<Status, AllocError>
        requires { IsValue self.now.stack.env.heap number }
        ensures { IfOk result (λ s. (es : List Element) (n : ℕ) (w : Local) → halting (value self.now.stack.env.heap number) es n w ≡ ended_with s es n w) }
    {
        let heap = self.stack.env().heap();
        if is_variable(heap, &number) {
            let error = error::instantiation_error(self.alloc)?;
            return Ok(Status::Raises(error));
        }
        if let Some(number) = integer_in(heap, &number) {
            return Ok(Status::Is(modulo_256(number)));
        }
        let culprit = heap.take(self.alloc, number)?;
        let error = error::type_error(self.alloc, "integer", culprit)?;
        Ok(Status::Raises(error))
    }
}

/// An integer modulo 256, with the divisor's sign.
fn modulo_256(number: i64) -> u8
    ensures { result ≡ modulo_256 number }
{
    number.rem_euclid(256) as u8
}
