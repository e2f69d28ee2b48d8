//! Terms copied to the heap, and the terms that clause/2 and retract/1 put around what they copy.
ghost use Rattle.std.specs.Prelude.{◌≡◌, codes, length, IfOk, OnErr};
ghost use Rattle.plterm.specs.Tree.{atom};
ghost use Rattle.plterm.specs.Variables.{AllBelow};
ghost use Rattle.plsubst.specs.Subst.{bind};
ghost use Rattle.plcells.specs.Putting.{standing};
ghost use Rattle.plcells.specs.Store.{value, AreValues, IsValue};
ghost use Rattle.plenv.specs.Changes.{Puts, Stays};
ghost use Rattle.plenv.specs.Env.{renamed};
ghost use Rattle.plsearch.specs.Lookups.{clause_term};

use plcells::cell::{Argument, Cell};
use plclause::form::truth;
use plclause::shared::SharedTerm;
use plenv::env::Environment;
use plterm::name::Name;
use plterm::term::Term;
use std::alloc::{AllocError, Global};

/// Room for the work of copying terms, which keeps its memory between calls, and names and a term that are put often.
#[derive(Drop)]
pub struct Copier {
    pub(crate) alloc: Global,
    stack: Vec<Argument>,
    /// The name of a clause as a term.
    neck: Name,
    /// The name of the atom true, and the atom as a term, which facts share.
    yes: Name,
    truth: SharedTerm,
    ghost is_neck: { neck ≡ codes ":-" },
    ghost is_yes: { yes ≡ codes "true" },
    ghost is_truth: { truth ≡ atom (codes "true") },
}

impl Copier {
    /// With no work done.
    pub fn new(alloc: Global) -> Result<Copier, AllocError> {
        let neck = Name::new(alloc, ":-")?;
        let yes = Name::new(alloc, "true")?;
        let truth = truth(alloc)?;
        Ok(Copier {
            alloc,
            stack: Vec::new(alloc),
            neck,
            yes,
            truth,
        })
    }

    /// The atom true, as a term that facts share.
    pub(crate) fn truth(&self) -> &SharedTerm
        ensures { result.now ≡ atom (codes "true") }
    {
        &self.truth
    }

    /// Puts a term, whose variable x is what value number x stands for: its value.
    pub(crate) fn put(
        &mut self,
        env: &mut Environment,
        term: &Term,
        values: &[Cell],
    ) -> Result<Cell, AllocError>
        requires below { AllBelow (length values.now) term.now }
        requires values { AreValues env.old.heap values.now }
        ensures ok { IfOk result (λ v. Puts env.old env.new v (bind (standing env.old.heap values.now) term.now)) }
        ensures err { OnErr result (Stays env.old env.new) }
    {
        env.put_nodes(&mut self.stack, term.nodes(), values)
    }

    /// Puts `Head :- Body` of the values of a head and a body: its value. After an `Err` there may be more names, and nothing else.
    pub(crate) fn put_clause(
        &self,
        env: &mut Environment,
        head: Cell,
        body: Cell,
    ) -> Result<Cell, AllocError>
        requires head { IsValue env.old.heap head }
        requires body { IsValue env.old.heap body }
        ensures ok { IfOk result (λ v. Puts env.old env.new v (clause_term (value env.old.heap head) (value env.old.heap body))) }
        ensures err { OnErr result (Stays env.old env.new) }
        ensures back { OnErr result (env.new ≡ renamed env.old env.new.heap.names) }
    {
        env.put_named(&self.neck, &[head, body])
    }

    /// Puts the atom true: its value. After an `Err` there may be more names, and nothing else.
    pub(crate) fn put_true(&self, env: &mut Environment) -> Result<Cell, AllocError>
        ensures ok { IfOk result (λ v. Puts env.old env.new v (atom (codes "true"))) }
        ensures err { OnErr result (Stays env.old env.new) }
        ensures back { OnErr result (env.new ≡ renamed env.old env.new.heap.names) }
    {
        env.put_atom(&self.yes)
    }
}
