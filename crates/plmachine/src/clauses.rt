//! The rows of the predicates on clauses: asserta/1, assertz/1, assert/1, clause/2, retract/1, retractall/1 and dynamic/1 (ISO/IEC 13211-1 8.8, 8.9).
//!
//! A row that is refused memory leaves the search where it was.
ghost use Rattle.std.specs.Prelude.{◌≡◌, ◌∷◌, [], map, filter_map, Some, None, IfOk, IfSome, IfNone, OnOk, OnErr};
ghost use Rattle.plterm.specs.Tree.{Tree};
ghost use Rattle.plcells.specs.Store.{value, IsValue};
ghost use Rattle.plclause.specs.Clausal.{clausal, neck_parts};
ghost use Rattle.plclause.specs.Indicators.{indicator};
ghost use Rattle.plclause.specs.Named.{indicator_of as named_by, named_terms};
ghost use Rattle.plevent.specs.Alive.{or_else};
ghost use Rattle.plevent.specs.declared.update.Update.TheVariants.{Declare};
ghost use Rattle.plprogram.specs.Program.{clauses_for};
ghost use Rattle.plsearch.specs.Types.{ToRetract, ToRetractAll};
ghost use Rattle.plsearch.specs.Lookups.{seek};
ghost use Rattle.plsearch.specs.Moves.{publish};
ghost use Rattle.plsearch.specs.Rows.{add, added, halves, no_body, no_head, retrieving, unchangeable, undeclarable, unerasable, unless, unreadable};
ghost use Rattle.plstack.specs.State.{goals_of, IsFit, IsList};
ghost use Rattle.plmachine.specs.Clauses.{entered_mode, IsNeck};
ghost use Rattle.plmachine.specs.Machine.{below_in, depth_of, local_of, IsBegun, IsTied, Moved, MovedBy, Stays};
ghost use Rattle.plmachine.specs.Selected.{StandsFor};

use crate::machine::{Lookup, Machine, Mode, Question};
use crate::select::Source;
use crate::walk::Neck;
use plcells::cell::Cell;
use plcells::heap::Heap;
use plclause::clause::Clause;
use plclause::form::{ClauseForm, clause_with};
use plclause::named::named_terms;
use plerror::error;
use plevent::update::Update;
use pllinks::link::Continuation;
use plnames::kind::Side;
use plprogram::program::Program;
use plrefusals::naming::{Declaration, declared};
use plrefusals::refusal::{no_body, no_head, unchangeable, unerasable, unreadable};
use plrefusals::value::indicator_of;
use plstack::frame::{Spot, Use};
use plstack::walk::Entered;
use plterm::term::Term;
use std::alloc::{AllocError, Global};

impl Machine {
    /// asserta/1, assertz/1 or assert/1.
    #[inline(never)]
    pub fn add(
        &mut self,
        program: &Program,
        side: Side,
        c: Cell,
        source: Source,
        rest: Continuation,
    ) -> Result<(), AllocError>
        requires begun { IsBegun program.now self.old }
        requires clause { IsValue self.old.stack.env.heap c }
        requires source { (t : Tree) × StandsFor self.old.stack source t }
        requires rest { IsList self.old.stack rest }
        requires fits { IsFit self.old.stack rest }
        requires tied { IsTied self.old }
        ensures ok { (t : Tree) → StandsFor self.old.stack source t → OnOk result (Moved program.now self.old self.new (add program.now side (indicator t) (clausal (value self.old.stack.env.heap c)) (goals_of self.old.stack rest) self.old.stack.env.count (local_of self.old))) }
        ensures err { OnErr result (Stays program.now self.old self.new) }
    {
        let term = self.stack.env().heap().take(self.alloc, c)?;
        match clause_with(self.alloc, term, self.stack.truth())? {
            ClauseForm::NoHead => {
                let error = error::instantiation_error(self.alloc)?;
                self.raise_of(error, source, rest)
            }
            ClauseForm::BadHead(culprit) | ClauseForm::BadBody(culprit) => {
                let error = error::type_error(self.alloc, "callable", culprit)?;
                self.raise_of(error, source, rest)
            }
            ClauseForm::IsClause(clause) => self.add_clause(program, side, clause, source, rest),
        }
    }

    /// A clause is added at a side, unless its procedure is static.
    fn add_clause(
        &mut self,
        program: &Program,
        side: Side,
        clause: Clause,
        source: Source,
        rest: Continuation,
    ) -> Result<(), AllocError>
        requires begun { IsBegun program.now self.old }
        requires source { (t : Tree) × StandsFor self.old.stack source t }
        requires rest { IsList self.old.stack rest }
        requires fits { IsFit self.old.stack rest }
        requires tied { IsTied self.old }
        ensures ok { (t : Tree) → StandsFor self.old.stack source t → OnOk result (Moved program.now self.old self.new (unless (unchangeable program.now (indicator clause.head)) (indicator t) (goals_of self.old.stack rest) (local_of self.old) (publish (added side clause ∷ []) (goals_of self.old.stack rest) self.old.stack.env.count (local_of self.old)))) }
        ensures err { OnErr result (Stays program.now self.old self.new) }
    {
        let procedure = clause.indicator()?;
        if let Some(error) = unchangeable(self.alloc, program, &procedure)? {
            return self.raise_of(error, source, rest);
        }
        self.publish_one(update_of(side, clause), rest)
    }

    /// clause/2.
    #[inline(never)]
    pub fn retrieve(
        &mut self,
        program: &Program,
        head: Cell,
        body: Cell,
        source: Source,
        rest: Continuation,
    ) -> Result<(), AllocError>
        requires begun { IsBegun program.now self.old }
        requires head { IsValue self.old.stack.env.heap head }
        requires body { IsValue self.old.stack.env.heap body }
        requires source { (t : Tree) × StandsFor self.old.stack source t }
        requires rest { IsList self.old.stack rest }
        requires fits { IsFit self.old.stack rest }
        requires tied { IsTied self.old }
        ensures ok { (t : Tree) → StandsFor self.old.stack source t → OnOk result (MovedBy program.now self.old self.new (λ v. unless (or_else (no_head (value self.old.stack.env.heap head)) (or_else (no_body (value self.old.stack.env.heap body)) (unreadable (indicator (value self.old.stack.env.heap head))))) (indicator t) (goals_of self.old.stack rest) (local_of self.old) (retrieving (below_in v self.old) (clauses_for program.now (indicator (value self.old.stack.env.heap head))) (depth_of self.old) (value self.old.stack.env.heap head) (value self.old.stack.env.heap body) (goals_of self.old.stack rest) self.old.stack.env.count (local_of self.old)))) }
        ensures err { OnErr result (Stays program.now self.old self.new) }
    {
        let heap = self.stack.env().heap();
        if let Some(error) = not_told(self.alloc, program, heap, &head, &body)? {
            return self.raise_of(error, source, rest);
        }
        self.retrieve_all(program, head, body, rest)
    }

    /// The clauses of a head and a body, of the program's text or of a view.
    fn retrieve_all(
        &mut self,
        program: &Program,
        head: Cell,
        body: Cell,
        rest: Continuation,
    ) -> Result<(), AllocError>
        requires head { IsValue self.old.stack.env.heap head }
        requires body { IsValue self.old.stack.env.heap body }
        requires rest { IsList self.old.stack rest }
        requires fits { IsFit self.old.stack rest }
        requires tied { IsTied self.old }
        ensures ok { OnOk result (MovedBy program.now self.old self.new (λ v. retrieving (below_in v self.old) (clauses_for program.now (indicator (value self.old.stack.env.heap head))) (depth_of self.old) (value self.old.stack.env.heap head) (value self.old.stack.env.heap body) (goals_of self.old.stack rest) self.old.stack.env.count (local_of self.old))) }
        ensures err { OnErr result (Stays program.now self.old self.new) }
    {
        let p = indicator_of(self.alloc, self.stack.env().heap(), &head)?;
        if program.clauses_of(&p).is_empty() {
            return self.seek(Lookup::ToRetrieve(head, body), rest);
        }
        self.tell(Neck { head, body }, Use::Tell, Spot::Text(0), rest)
    }

    /// retract/1.
    #[inline(never)]
    pub fn retract(
        &mut self,
        program: &Program,
        c: Cell,
        source: Source,
        rest: Continuation,
    ) -> Result<(), AllocError>
        requires begun { IsBegun program.now self.old }
        requires clause { IsValue self.old.stack.env.heap c }
        requires source { (t : Tree) × StandsFor self.old.stack source t }
        requires rest { IsList self.old.stack rest }
        requires fits { IsFit self.old.stack rest }
        requires tied { IsTied self.old }
        ensures ok { (t : Tree) → StandsFor self.old.stack source t → OnOk result (MovedBy program.now self.old self.new (λ v. unless (unerasable program.now (halves (value self.old.stack.env.heap c)).0) (indicator t) (goals_of self.old.stack rest) (local_of self.old) (seek (below_in v self.old) (ToRetract (halves (value self.old.stack.env.heap c)).0 (halves (value self.old.stack.env.heap c)).1) (depth_of self.old) (goals_of self.old.stack rest) self.old.stack.env.count (local_of self.old)))) }
        ensures err { OnErr result (Stays program.now self.old self.new) }
    {
        let heap = self.stack.env().heap();
        let neck = neck_of(heap, &c);
        let parts = neck;
        let head = parts.map_or(c, |parts| parts.head);
        if let Some(error) = unerasable(self.alloc, program, heap, &head)? {
            return self.raise_of(error, source, rest);
        }
        let body = match neck {
            Some(neck) => neck.body,
            None => self.stack.put_true()?,
        };
        self.seek(Lookup::ToRetract(head, body), rest)
    }

    /// retractall/1.
    #[inline(never)]
    pub fn retract_all(
        &mut self,
        program: &Program,
        head: Cell,
        source: Source,
        rest: Continuation,
    ) -> Result<(), AllocError>
        requires begun { IsBegun program.now self.old }
        requires head { IsValue self.old.stack.env.heap head }
        requires source { (t : Tree) × StandsFor self.old.stack source t }
        requires rest { IsList self.old.stack rest }
        requires fits { IsFit self.old.stack rest }
        requires tied { IsTied self.old }
        ensures ok { (t : Tree) → StandsFor self.old.stack source t → OnOk result (MovedBy program.now self.old self.new (λ v. unless (unerasable program.now (value self.old.stack.env.heap head)) (indicator t) (goals_of self.old.stack rest) (local_of self.old) (seek (below_in v self.old) (ToRetractAll (value self.old.stack.env.heap head)) (depth_of self.old) (goals_of self.old.stack rest) self.old.stack.env.count (local_of self.old)))) }
        ensures err { OnErr result (Stays program.now self.old self.new) }
    {
        let heap = self.stack.env().heap();
        if let Some(error) = unerasable(self.alloc, program, heap, &head)? {
            return self.raise_of(error, source, rest);
        }
        self.seek(Lookup::ToRetractAll(head), rest)
    }

    /// dynamic/1.
    #[inline(never)]
    pub fn declare(
        &mut self,
        program: &Program,
        names: Cell,
        source: Source,
        rest: Continuation,
    ) -> Result<(), AllocError>
        requires begun { IsBegun program.now self.old }
        requires names { IsValue self.old.stack.env.heap names }
        requires source { (t : Tree) × StandsFor self.old.stack source t }
        requires rest { IsList self.old.stack rest }
        requires fits { IsFit self.old.stack rest }
        requires tied { IsTied self.old }
        ensures ok { (t : Tree) → StandsFor self.old.stack source t → OnOk result (Moved program.now self.old self.new (unless (undeclarable program.now (named_terms (value self.old.stack.env.heap names))) (indicator t) (goals_of self.old.stack rest) (local_of self.old) (publish (map Declare (filter_map named_by (named_terms (value self.old.stack.env.heap names)))) (goals_of self.old.stack rest) self.old.stack.env.count (local_of self.old)))) }
        ensures err { OnErr result (Stays program.now self.old self.new) }
    {
        let term = self.stack.env().heap().take(self.alloc, names)?;
        let terms = named_terms(self.alloc, &term.root())?;
        match declared(self.alloc, program, &terms)? {
            Declaration::Refused(error) => self.raise_of(error, source, rest),
            Declaration::Updates(updates) => self.publish(updates, rest),
        }
    }
}

/// What comes first, where a goal was resolved with a candidate: the candidate is erased, or its list goes on.
pub fn mode_of(entered: Entered) -> Mode
    ensures { result ≡ entered_mode entered }
{
    match entered.erased {
        Some(name) => Mode::Ask(Question::Erase(name)),
        None => Mode::Visit,
    }
}

/// The update that adds a clause at a side.
fn update_of(side: Side, clause: Clause) -> Update
    ensures { result ≡ added side clause }
{
    match side {
        Side::Front => Update::First(clause),
        Side::Back => Update::Last(clause),
    }
}

/// The head and the body of a term `Head :- Body`.
fn neck_of(heap: &Heap, c: &Cell) -> Option<Neck>
    requires { IsValue heap.now c.now }
    ensures some { IfSome result (IsNeck heap.now c.now) }
    ensures none { IfNone result (neck_parts (value heap.now c.now) ≡ None) }
{
    let Cell::Str(p) = heap.root(*c) else {
        return None;
    };
    let (f, arity) = heap.block(p);
    if arity != 2 {
        return None;
    }
    let functor = heap.names().functor_of(f);
    if heap.names().atom_name(functor.name).as_str() != ":-" {
        return None;
    }
    Some(Neck {
        head: heap.argument(p.arg(1)),
        body: heap.argument(p.arg(2)),
    })
}

/// The error where the clauses of a head and a body are not told.
fn not_told(
    alloc: Global,
    program: &Program,
    heap: &Heap,
    head: &Cell,
    body: &Cell,
) -> Result<Option<Term>, AllocError>
    requires head { IsValue heap.now head.now }
    requires body { IsValue heap.now body.now }
    ensures { IfOk result (λ o. o ≡ or_else (no_head (value heap.now head.now)) (or_else (no_body (value heap.now body.now)) (unreadable (indicator (value heap.now head.now))))) }
{
    let error = no_head(alloc, heap, head)?;
    if error.is_some() {
        return Ok(error);
    }
    let error = no_body(alloc, heap, body)?;
    if error.is_some() {
        return Ok(error);
    }
    let p = indicator_of(alloc, heap, head)?;
    unreadable(alloc, program, &p)
}
