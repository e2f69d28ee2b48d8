//! What a text holds so far.
ghost use Rattle.std.specs.Prelude.{◌≡◌, ◌+◌, ◌<◌, ◌^◌, ◌++◌, IfOk, OnOk, fold, map, filter, not};
ghost use Rattle.plevent.specs.declared.update.Update.TheVariants.{Declare, Last as LastOf};
ghost use Rattle.plterm.specs.Indicators.{same_indicator};
ghost use Rattle.plprogram.specs.Program.{procedures_of, with_clause};
ghost use Rattle.plload.specs.Draft.{Draft as Drafted, with_meaning, with_name, is_dynamic, program_of, empty_draft};
ghost use Rattle.plload.specs.Shown.{shown};

use crate::meaning::Meaning;
use indexmap::IndexSet;
use plclause::clause::Clause;
use plevent::update::{Batch, Update};
use plnames::table::NameTable;
use plprogram::program::{Counts, Procedures, Program};
use plprogram::settings::Settings;
use plterm::indicator::Indicator;
use plterm::term::Term;
use std::alloc::{AllocError, Global};
use std::marker::Model;

/// What a text holds so far: its clauses in order, the procedures that its directives name as dynamic, the goals of main,
/// and how many directives there are.
#[derive(Drop)]
pub struct Draft {
    clauses: Vec<Clause>,
    declared: IndexSet<Indicator>,
    goals: Vec<Term>,
    directives: u64,
}

impl Model for Draft {
    ghost use Rattle.plload.specs.Draft.{Draft as Drafted, draft_code};

    ghost Value = { Drafted };

    ghost coded = { draft_code };

    ghost view = { λ a. record { clauses = a.clauses.items; declared = a.declared.keys; goals = a.goals.items; directives = a.directives } };
}

impl Draft {
    /// Nothing so far.
    pub fn new(alloc: Global) -> Draft
        ensures { result ≡ empty_draft }
    {
        Draft {
            clauses: Vec::new(alloc),
            declared: IndexSet::new(alloc),
            goals: Vec::new(alloc),
            directives: 0,
        }
    }

    /// Adds what a clause or a directive means. After an `Err` a part of it may be there.
    pub fn add(&mut self, meaning: Meaning) -> Result<(), AllocError>
        requires { self.old.directives + 1 < 2 ^ 64 }
        ensures { OnOk result (self.new ≡ with_meaning self.old (shown meaning)) }
    {
        match meaning {
            Meaning::Adds(clause) => {
                self.clauses.push(clause)?;
                Ok(())
            }
            Meaning::Runs(goal) => {
                self.goals.push(goal)?;
                self.count_directive();
                Ok(())
            }
            Meaning::Declares(indicators) => {
                name_all(&mut self.declared, indicators)?;
                self.count_directive();
                Ok(())
            }
            Meaning::Operates(_priority, _kind, _names) => {
                self.count_directive();
                Ok(())
            }
            Meaning::Sets(_) | Meaning::Passes => {
                self.count_directive();
                Ok(())
            }
            Meaning::Refused(_) => Ok(()),
        }
    }

    /// One directive more.
    fn count_directive(&mut self)
        requires { self.old.directives + 1 < 2 ^ 64 }
        ensures { self.new ≡ record self.old { directives = self.old.directives + 1 } }
    {
        self.directives += 1;
    }

    /// The program, where these are the settings at the text's end.
    pub fn finish(
        self,
        alloc: Global,
        names: NameTable,
        settings: Settings,
    ) -> Result<Program, AllocError>
        ensures { IfOk result (λ p. p ≡ program_of settings self) }
    {
        let Draft {
            clauses,
            declared,
            goals,
            directives,
        } = self;
        let count = clauses.len() as u64;
        let counts = Counts {
            clauses: count,
            directives,
        };
        let mut first = declares(alloc, &declared)?;
        let procedures = part(alloc, names, clauses, &declared, &mut first)?;
        Ok(Program::new(
            procedures,
            goals,
            Batch::new(alloc, first),
            settings,
            counts,
        ))
    }
}

/// Names procedures as dynamic, each once.
fn name_all(
    declared: &mut IndexSet<Indicator>,
    indicators: Vec<Indicator>,
) -> Result<(), AllocError>
    ensures { OnOk result (declared.new.keys ≡ fold with_name declared.old.keys indicators.items) }
{
    for indicator in indicators {
        declared.insert(indicator)?;
    }
    Ok(())
}

/// The declarations of the dynamic procedures, in the order of their naming.
fn declares(alloc: Global, declared: &IndexSet<Indicator>) -> Result<Vec<Update>, AllocError>
    ensures { IfOk result (λ us. us.items ≡ map Declare declared.now.keys) }
{
    let mut updates = Vec::new(alloc);
    for indicator in declared.as_slice() {
        updates.push(Update::Declare(indicator.copied()?))?;
    }
    Ok(updates)
}

/// The static procedures of the clauses; those of dynamic procedures are added to the first batch.
fn part(
    alloc: Global,
    names: NameTable,
    clauses: Vec<Clause>,
    declared: &IndexSet<Indicator>,
    first: &mut Vec<Update>,
) -> Result<Procedures, AllocError>
    ensures procedures { IfOk result (λ ps. ps ≡ procedures_of (filter (λ c. not (is_dynamic declared.now.keys c)) clauses.items)) }
    ensures first { OnOk result (first.new.items ≡ first.old.items ++ map LastOf (filter (is_dynamic declared.now.keys) clauses.items)) }
{
    let mut procedures = Procedures::new(alloc, names);
    for clause in clauses {
        if declared.contains(&clause.indicator()?) {
            first.push(Update::Last(clause))?;
        } else {
            procedures.add(alloc, clause)?;
        }
    }
    Ok(procedures)
}
