//! The row of findall/3, and the list of what it collects (ISO/IEC 13211-1 8.10.1).
//!
//! A row that is refused memory leaves the search where it was.
ghost use Rattle.std.specs.Prelude.{◌≡◌, suc, [], ◌∷◌, true, false, None, IfOk, OnOk, OnErr};
ghost use Rattle.plsubst.specs.Unify.{unify as unifier_of};
ghost use Rattle.plcells.specs.Store.{value, IsValue};
ghost use Rattle.plread.specs.Texts.{listed};
ghost use Rattle.plsearch.specs.Types.{Collect, Marker};
ghost use Rattle.plsearch.specs.Running.{runnable};
ghost use Rattle.plsearch.specs.Collecting.{copies_from, renumbered};
ghost use Rattle.plsearch.specs.Moves.{run as runs};
ghost use Rattle.plsearch.specs.Rows.{finding as finding_of, findall_3, gathering};
ghost use Rattle.plstack.specs.State.{goals_of, Extends, IsFit, IsList};
ghost use Rattle.plmachine.specs.Gathering.{Gathers};
ghost use Rattle.plmachine.specs.Machine.{depth_of, local_of, Moved, Stays};
ghost use Rattle.plprogram.specs.Program.{Program as Given};

use crate::machine::Machine;
use crate::running::Running;
use planswers::error::type_error;
use planswers::list::may_be_list;
use plcells::cell::Cell;
use pllinks::item::{MarkerKind, Portion};
use pllinks::level::Level;
use pllinks::link::Continuation;
use plrefusals::predicate::Predicate;
use plstack::frame::{Around, Handler, Handling};
use std::alloc::{AllocError, Global};

/// What findall/3 is given.
#[derive(Clone, Copy)]
pub struct Finding {
    /// A copy of its term is kept for each solution.
    pub template: Cell,
    pub goal: Cell,
    /// What is to be the list.
    pub whole: Cell,
}

impl Machine {
    /// findall/3.
    #[inline(never)]
    pub fn find_all(&mut self, finding: Finding, rest: Continuation) -> Result<(), AllocError>
        requires template { IsValue self.old.stack.env.heap finding.template }
        requires goal { IsValue self.old.stack.env.heap finding.goal }
        requires whole { IsValue self.old.stack.env.heap finding.whole }
        requires rest { IsList self.old.stack rest }
        requires fits { IsFit self.old.stack rest }
        ensures ok { (P : Given) → OnOk result (Moved P self.old self.new (finding_of (value self.old.stack.env.heap finding.template) (value self.old.stack.env.heap finding.goal) (value self.old.stack.env.heap finding.whole) (depth_of self.old) (goals_of self.old.stack rest) self.old.stack.env.count (local_of self.old))) }
        ensures err { (P : Given) → OnErr result (Stays P self.old self.new) }
    {
        let heap = self.stack.env().heap();
        if may_be_list(heap, finding.whole) {
            return self.collecting(finding, rest);
        }
        let error = type_error(self.alloc, heap, "list", finding.whole)?;
        let p = Predicate::FindAll.indicator(self.alloc)?;
        self.raise(error, &p, rest)
    }

    /// The goal of findall/3 is run, before a marker that collects, in a handler that gathers what was kept.
    fn collecting(&mut self, finding: Finding, rest: Continuation) -> Result<(), AllocError>
        requires template { IsValue self.old.stack.env.heap finding.template }
        requires goal { IsValue self.old.stack.env.heap finding.goal }
        requires whole { IsValue self.old.stack.env.heap finding.whole }
        requires rest { IsList self.old.stack rest }
        requires fits { IsFit self.old.stack rest }
        ensures ok { (P : Given) → OnOk result (Moved P self.old self.new (runs (runnable (value self.old.stack.env.heap finding.goal)) findall_3 (gathering (value self.old.stack.env.heap finding.whole) (goals_of self.old.stack rest) self.old.stack.env.count ∷ []) (suc (depth_of self.old)) (Marker (Collect (value self.old.stack.env.heap finding.template)) (depth_of self.old) ∷ goals_of self.old.stack rest) self.old.stack.env.count (local_of self.old))) }
        ensures err { (P : Given) → OnErr result (Stays P self.old self.new) }
    {
        let depth = self.stack.depth();
        let Some(level) = depth.up(1) else {
            return Err(AllocError);
        };
        let marker = Portion::Marker(MarkerKind::Collect(finding.template), depth);
        let (ready, list) = self.ready_before(finding.goal, marker, &rest)?;
        let how = Running {
            predicate: Predicate::FindAll,
            around: Around::Handle(Handling {
                handler: Handler::Gather(finding.whole),
                list: rest,
            }),
            level,
            list,
        };
        self.run(ready, how)
    }

    /// Unifies the list of the copies that are kept from a level on, their variables new, with the term of a value: whether they have a
    /// unifier. Where they have none, or memory gives out, all cases stand for what they did.
    pub fn gather(&mut self, level: Level, whole: Cell) -> Result<bool, AllocError>
        requires { IsValue self.old.stack.env.heap whole }
        ensures yes { IfOk result (λ fits. fits ≡ true → Gathers self.old.stack self.new.stack (value self.old.stack.env.heap whole) (copies_from level self.old.kept)) }
        ensures no { IfOk result (λ fits. fits ≡ false → unifier_of (value self.old.stack.env.heap whole) (listed (renumbered self.old.stack.env.count (copies_from level self.old.kept))) ≡ None) }
        ensures same { IfOk result (λ fits. fits ≡ false → Extends self.old.stack self.new.stack) }
        ensures err { OnErr result (Extends self.old.stack self.new.stack) }
        ensures frame { self.new ≡ record self.old { stack = self.new.stack } }
    {
        let list = self.stack.put_list(self.alloc, &self.kept, level)?;
        self.stack.unify(whole, list)
    }
}
