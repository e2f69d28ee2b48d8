//! One clause that was made, and a place in a walk.
ghost use Rattle.std.specs.Prelude.{◌≡◌, None, Some, nat_eq, length};
ghost use Rattle.std.specs.Option.{option_copied};
ghost use Rattle.plterm.specs.Indicators.{same_indicator};
ghost use Rattle.plterm.specs.Tree.{trees, list_of};
ghost use Rattle.plclause.specs.Indicators.{indicator};
ghost use Rattle.plevent.specs.Alive.{change_if, is_of};
ghost use Rattle.plrecords.specs.Kept.{seen, not_below};

use plclause::clause::Clause;
use plevent::ClauseName;
use plterm::indicator::Indicator;
use plterm::term::Term;
use plterm::walk::{Shape, Terms};

/// A clause, and the place of the first batch that erased it.
#[derive(Drop)]
pub struct Record {
    pub name: ClauseName,
    pub clause: Clause,
    /// Whether it was put before all others.
    pub front: bool,
    pub erased: Option<u64>,
}

/// A procedure that was declared, and where.
#[derive(Drop)]
pub struct Declared {
    pub pred: Indicator,
    pub place: u64,
}

/// Before the first clause of a walk, or behind one of its clauses.
#[derive(Clone, Copy)]
pub enum Cursor {
    Start,
    After(ClauseName),
}

impl Record {
    /// Whether it is made, and not erased, by the batches below `g`.
    pub fn is_seen(&self, g: u64) -> bool
        ensures { result ≡ seen g self.now }
    {
        self.name.place < g && self.is_kept(g)
    }

    /// Its clause, where it is made, and not erased, by the batches below `g`.
    pub fn clause_at(&self, g: u64) -> Option<&Clause>
        ensures { option_copied result ≡ change_if (seen g self.now) (Some self.now.clause) None }
    {
        if self.is_seen(g) {
            Some(&self.clause)
        } else {
            None
        }
    }

    /// Whether no batch below `g` erased it.
    fn is_kept(&self, g: u64) -> bool
        ensures { result ≡ not_below g self.now.erased }
    {
        match self.erased {
            None => true,
            Some(place) => g <= place,
        }
    }
}

impl Record {
    /// Whether its clause belongs to the procedure.
    pub fn is_of(&self, pred: &Indicator) -> bool
        ensures { result ≡ is_of pred.now self.now.clause }
    {
        heads(self.clause.head(), pred)
    }
}

/// Whether the head is one of the procedure.
fn heads(head: &Term, pred: &Indicator) -> bool
    ensures { result ≡ same_indicator (indicator head.now) pred.now }
{
    match head.root().shape() {
        Shape::Atom(name) => name.is_same(&pred.name) && pred.arity == 0,
        Shape::Compound(name, args) => name.is_same(&pred.name) && has_arity(&args, pred.arity),
        Shape::Var(_) | Shape::Int(_) => pred.name.is_empty() && pred.arity == 0,
    }
}

fn has_arity(args: &Terms<'_>, arity: u16) -> bool
    ensures { result ≡ nat_eq (length (list_of (trees args.now))) arity }
{
    args.len() == arity as usize
}
