//! Loaded programs.
ghost use Rattle.std.specs.Prelude.{◌≡◌, ◌<◌, [], Some, fold, length, slice_get, OnOk, IfOk};
ghost use Rattle.plprogram.specs.Program.{clauses_in, clauses_for, with_clause, with_goal, AreOf};

use crate::settings::{Settings, Unknown};
use indexmap::IndexMap;
use plclause::clause::Clause;
use plevent::update::Batch;
use plnames::table::NameTable;
use plops::table::OpTable;
use plterm::indicator::Indicator;
use plterm::term::Term;
use std::alloc::{AllocError, Global};
use std::marker::Model;

/// What each name with an arity is, and the static procedures of a text with their clauses, each in text order, by their
/// first clauses.
#[derive(Drop)]
pub struct Procedures {
    names: NameTable,
    entries: IndexMap<Indicator, Vec<Clause>>,
}

impl Model for Procedures {
    ghost use Rattle.std.specs.Prelude.{List, map};
    ghost use Rattle.plterm.specs.declared.indicator.Indicator.{Indicator};
    ghost use Rattle.plclause.specs.Clause.{Clause};
    ghost use Rattle.plprogram.specs.Program.{procedures_code, AreOwn};

    ghost Value = { List (Indicator × List Clause) };

    ghost coded = { procedures_code };

    ghost view = { λ a. map (λ e. (e.0, e.1.items)) a.entries.entries };

    ghost invariant = { λ a. AreOwn (map (λ e. (e.0, e.1.items)) a.entries.entries) };
}

impl Procedures {
    /// No procedures of a text.
    pub fn new(alloc: Global, names: NameTable) -> Procedures
        ensures { result ≡ [] }
    {
        Procedures {
            names,
            entries: IndexMap::new(alloc),
        }
    }

    /// The clauses of a procedure, in text order; none, if it is not there.
    pub fn clauses_of(&self, indicator: &Indicator) -> &[Clause]
        ensures { result.now ≡ clauses_in self.now indicator.now }
    {
        match self.entries.get(indicator) {
            Some(clauses) => clauses.as_slice(),
            None => &[],
        }
    }

    /// How many procedures there are.
    fn count(&self) -> usize
        ensures { result ≡ length self.now }
    {
        self.entries.len()
    }

    /// The procedure at a place, with its clauses in text order.
    fn at(&self, index: usize) -> (&Indicator, &[Clause])
        requires { index < length self.now }
        ensures is { slice_get self.now index ≡ Some (result.0.now, result.1.now) }
        ensures own { AreOf result.0.now result.1.now }
    {
        let Some((indicator, clauses)) = self.entries.get_index(index) else {
            unreachable!()
        };
        (indicator, clauses.as_slice())
    }

    /// Adds clauses, each as the last of its procedure. After an `Err` some of them may be there.
    fn add_all(&mut self, alloc: Global, clauses: Vec<Clause>) -> Result<(), AllocError>
        ensures { OnOk result (self.new ≡ fold with_clause self.old clauses.items) }
    {
        for clause in clauses {
            self.add(alloc, clause)?;
        }
        Ok(())
    }

    /// Adds a clause, as the last of its procedure. After an `Err` the procedure may be there without the clause.
    pub fn add(&mut self, alloc: Global, clause: Clause) -> Result<(), AllocError>
        ensures { OnOk result (self.new ≡ with_clause self.old clause) }
    {
        let indicator = clause.indicator()?;
        match self.entries.get_mut(&indicator) {
            Some(clauses) => {
                clauses.push(clause)?;
                Ok(())
            }
            None => {
                let mut clauses = Vec::new(alloc);
                clauses.push(clause)?;
                match self.entries.insert(indicator, clauses) {
                    Ok(_) => Ok(()),
                    Err(_) => Err(AllocError),
                }
            }
        }
    }
}

/// How many clauses and directives a text has.
#[derive(Clone, Copy, Debug, PartialEq, Eq)]
pub struct Counts {
    pub clauses: u64,
    pub directives: u64,
}

/// A loaded program: its static clauses by procedure, in text order; the goals of main in order, each with variables 0, 1, ..
/// by first occurrence; the first batch of the journal, which declares the dynamic procedures and holds their clauses; and
/// the operators and flags at the text's end.
#[derive(Drop)]
pub struct Program {
    procedures: Procedures,
    goals: Vec<Term>,
    first: Batch,
    settings: Settings,
    counts: Counts,
}

impl Model for Program {
    ghost use Rattle.plprogram.specs.Program.{Program as Loaded, program_code};

    ghost Value = { Loaded };

    ghost coded = { program_code };

    ghost view = { λ a. record { procedures = a.procedures; goals = a.goals.items; first = a.first; settings = a.settings; clauses = a.counts.clauses; directives = a.counts.directives } };
}

impl Program {
    /// The program of these parts.
    pub fn new(
        procedures: Procedures,
        goals: Vec<Term>,
        first: Batch,
        settings: Settings,
        counts: Counts,
    ) -> Program
        ensures { result ≡ record { procedures = procedures; goals = goals.items; first = first; settings = settings; clauses = counts.clauses; directives = counts.directives } }
    {
        Program {
            procedures,
            goals,
            first,
            settings,
            counts,
        }
    }

    /// The program with one more goal of main, if there is one, behind those of the text.
    pub fn with_goal(self, goal: Option<Term>) -> Result<Program, AllocError>
        ensures { IfOk result (λ p. p ≡ with_goal self goal) }
    {
        let mut program = self;
        if let Some(goal) = goal {
            program.goals.push(goal)?;
        }
        Ok(program)
    }

    /// The program with further static clauses, each as the last of its procedure. After an `Err` some of them may be there.
    pub(crate) fn add_clauses(
        &mut self,
        alloc: Global,
        clauses: Vec<Clause>,
    ) -> Result<(), AllocError>
        ensures { OnOk result (self.new ≡ record self.old { procedures = fold with_clause self.old.procedures clauses.items }) }
    {
        self.procedures.add_all(alloc, clauses)
    }

    /// The clauses of a static procedure, in text order; none, if the program does not define it.
    pub fn clauses_of(&self, indicator: &Indicator) -> &[Clause]
        ensures { result.now ≡ clauses_for self.now indicator.now }
    {
        self.procedures.clauses_of(indicator)
    }

    /// How many static procedures the program has.
    pub fn procedure_count(&self) -> usize
        ensures { result ≡ length self.now.procedures }
    {
        self.procedures.count()
    }

    /// The static procedure at a place, by their first clauses, with its clauses in text order.
    pub fn procedure_at(&self, index: usize) -> (&Indicator, &[Clause])
        requires { index < length self.now.procedures }
        ensures is { slice_get self.now.procedures index ≡ Some (result.0.now, result.1.now) }
        ensures own { AreOf result.0.now result.1.now }
    {
        self.procedures.at(index)
    }

    /// What each name with an arity is.
    pub fn names(&self) -> &NameTable {
        &self.procedures.names
    }

    /// The settings at the text's end.
    pub fn settings(&self) -> &Settings
        ensures { result.now ≡ self.now.settings }
    {
        &self.settings
    }

    /// The goals of main, in order.
    pub fn goals(&self) -> &[Term]
        ensures { result.now ≡ self.now.goals }
    {
        self.goals.as_slice()
    }

    /// The first batch of the journal.
    pub fn first(&self) -> &Batch
        ensures { result.now ≡ self.now.first }
    {
        &self.first
    }

    /// The operators at the text's end.
    pub fn operators(&self) -> &OpTable
        ensures { result.now ≡ self.now.settings.operators }
    {
        &self.settings.operators
    }

    /// What a call of a procedure that does not exist comes to: the flag `unknown` at the text's end (ISO/IEC 13211-1 7.11.2.4).
    pub fn unknown(&self) -> Unknown
        ensures { result ≡ self.now.settings.unknown }
    {
        self.settings.unknown
    }

    /// How many clauses the text has.
    pub fn clause_count(&self) -> u64
        ensures { result ≡ self.now.clauses }
    {
        self.counts.clauses
    }

    /// How many directives the text has.
    pub fn directive_count(&self) -> u64
        ensures { result ≡ self.now.directives }
    {
        self.counts.directives
    }
}
