//! Clauses, whose parts are shared.
ghost use Rattle.std.specs.Prelude.{◌≡◌, Some, IfOk, codes};
ghost use Rattle.plterm.specs.Tree.{atom};
ghost use Rattle.plterm.specs.Variables.{AllBelow};
ghost use Rattle.plclause.specs.Conversion.{converted};
ghost use Rattle.plclause.specs.Soundness.{clause_from, IsCallable, IsSound};
ghost use Rattle.plclause.specs.Indicators.{indicator};

use crate::shared::SharedTerm;
use plterm::indicator::Indicator;
use plterm::name::Name;
use plterm::numbers::Numbers;
use plterm::term::Term;
use plterm::walk::{Shape, TermRef};
use std::alloc::{AllocError, Global};
use std::marker::Model;
use std::sync::Arc;

/// The parts of a clause.
#[derive(Drop)]
struct Parts {
    head: Term,
    body: SharedTerm,
    variables: u64,
}

/// A clause: a head, which is an atom or a compound, and a converted body. Its variables are 0, 1, .. by first occurrence,
/// those of the head first. A copy shares its parts.
#[derive(Drop)]
pub struct Clause {
    parts: Arc<Parts>,
}

impl Model for Clause {
    ghost use Rattle.std.specs.Arc.{arc_value};
    ghost use Rattle.plclause.specs.Clause.{Clause as Parted, clause_code};

    ghost Value = { Parted };

    ghost coded = { clause_code };

    ghost use Rattle.plclause.specs.Soundness.{IsSound};

    ghost view = { λ a. record { head = (arc_value a.parts).head; body = (arc_value a.parts).body; variables = (arc_value a.parts).variables } };

    ghost invariant = { λ a. IsSound (record { head = (arc_value a.parts).head; body = (arc_value a.parts).body; variables = (arc_value a.parts).variables }) };
}

impl Clause {
    /// The clause of a head and a goal, with its variables numbered anew.
    pub fn new(alloc: Global, head: &TermRef<'_>, goal: &TermRef<'_>) -> Result<Clause, AllocError>
        requires callable { IsCallable head.now }
        requires goal { converted goal.now ≡ Some goal.now }
        ensures { IfOk result (λ c. c ≡ clause_from head.now goal.now) }
    {
        let (head, seen) = head.numbered(alloc, Numbers::new(alloc))?;
        let (body, seen) = goal.numbered(alloc, seen)?;
        Clause::shared(alloc, head, body, seen.count())
    }

    /// The clause of a head whose body is `true`, with its variables numbered anew. The body is the term `true` that is given, shared with it;
    /// a head without variables is kept as it is.
    pub fn fact(alloc: Global, head: Term, truth: &SharedTerm) -> Result<Clause, AllocError>
        requires callable { IsCallable head }
        requires truth { truth.now ≡ atom (codes "true") }
        ensures { IfOk result (λ c. c ≡ clause_from head (atom (codes "true"))) }
    {
        let body = truth.copied()?;
        if head.is_ground() {
            return Clause::of(alloc, head, body, 0);
        }
        let (head, seen) = head.root().numbered(alloc, Numbers::new(alloc))?;
        Clause::of(alloc, head, body, seen.count())
    }

    /// The clause of these parts, which are shared from now on.
    fn shared(alloc: Global, head: Term, body: Term, variables: u64) -> Result<Clause, AllocError>
        requires { IsSound (record { head = head; body = body; variables = variables }) }
        ensures { IfOk result (λ c. c ≡ record { head = head; body = body; variables = variables }) }
    {
        let body = SharedTerm::new(alloc, body)?;
        Clause::of(alloc, head, body, variables)
    }

    /// The same of a body that is shared already.
    fn of(alloc: Global, head: Term, body: SharedTerm, variables: u64) -> Result<Clause, AllocError>
        requires { IsSound (record { head = head; body = body; variables = variables }) }
        ensures { IfOk result (λ c. c ≡ record { head = head; body = body; variables = variables }) }
    {
        let parts = Parts {
            head,
            body,
            variables,
        };
        let parts = Arc::new(alloc, parts)?;
        Ok(Clause { parts })
    }

    /// The head, an atom or a compound.
    pub fn head(&self) -> &Term
        ensures value { result.now ≡ self.now.head }
        ensures callable { IsCallable self.now.head }
        ensures below { AllBelow self.now.variables self.now.head }

        // The variables are numbered by first occurrence, those of the head first.
        ensures numbered { clause_from self.now.head self.now.body ≡ self.now }
    {
        &self.parts.head
    }

    /// The body, a converted goal.
    pub fn body(&self) -> &Term
        ensures value { result.now ≡ self.now.body }
        ensures goal { converted self.now.body ≡ Some self.now.body }
        ensures below { AllBelow self.now.variables self.now.body }
    {
        self.parts.body.term()
    }

    /// How many variables the clause has: they are the numbers below.
    pub fn variables(&self) -> u64
        ensures { result ≡ self.now.variables }
    {
        self.parts.variables
    }

    /// The same clause again, which copies no nodes.
    pub fn copied(&self) -> Result<Clause, AllocError>
        ensures { IfOk result (λ c. c ≡ self.now) }
    {
        let parts = Arc::try_clone(&self.parts)?;
        Ok(Clause { parts })
    }

    /// The indicator of the procedure that the clause is of.
    pub fn indicator(&self) -> Result<Indicator, AllocError>
        ensures { IfOk result (λ i. i ≡ indicator self.now.head) }
    {
        indicator_of(&self.parts.head.root())
    }
}

/// The indicator of an atom or a compound.
pub fn indicator_of(term: &TermRef<'_>) -> Result<Indicator, AllocError>
    requires { IsCallable term.now }
    ensures { IfOk result (λ i. i ≡ indicator term.now) }
{
    match term.shape() {
        Shape::Atom(name) => procedure(name, 0),
        Shape::Compound(name, args) => procedure(name, args.len() as u16),
        Shape::Var(_) | Shape::Int(_) => unreachable!(),
    }
}

fn procedure(name: &Name, arity: u16) -> Result<Indicator, AllocError>
    ensures { IfOk result (λ i. i ≡ record { name = name.now; arity = arity }) }
{
    let name = name.copied()?;
    Ok(Indicator { name, arity })
}
