//! Programs with the procedures of a library.
ghost use Rattle.std.specs.Prelude.{◌≡◌, ◌++◌, IfOk, OnOk, flat_map};
ghost use Rattle.std.specs.List.{list_any};
ghost use Rattle.plprogram.specs.Library.{declares, lacks, lacked, with_library};

use crate::program::Program;
use plclause::clause::Clause;
use plevent::update::Update;
use plterm::indicator::Indicator;
use std::alloc::{AllocError, Global};

/// Whether an update declares a procedure.
fn declares(update: &Update, p: &Indicator) -> bool
    ensures { result ≡ declares p.now update.now }
{
    match update {
        Update::Declare(declared) => p.is_same(declared),
        Update::First(_) | Update::Last(_) | Update::Erase(_) | Update::EraseOwn(_) => false,
    }
}

/// Puts copies of clauses behind others.
fn push_copies(found: &mut Vec<Clause>, clauses: &[Clause]) -> Result<(), AllocError>
    ensures { OnOk result (found.new.items ≡ found.old.items ++ clauses.now) }
{
    for clause in clauses {
        found.push(clause.copied()?)?;
    }
    Ok(())
}

impl Program {
    /// Whether the program declares a procedure as dynamic.
    fn declares(&self, p: &Indicator) -> bool
        ensures { result ≡ list_any (declares p.now) self.now.first }
    {
        self.first()
            .as_slice()
            .iter()
            .any(|update| declares(update, p))
    }

    /// Whether the program neither defines nor declares a procedure.
    fn lacks(&self, p: &Indicator) -> bool
        ensures { result ≡ lacks self.now p.now }
    {
        match self.clauses_of(p) {
            [] => !self.declares(p),
            _ => false,
        }
    }

    /// Puts copies of a procedure's clauses behind others, if the program lacks it.
    fn push_lacked(
        &self,
        found: &mut Vec<Clause>,
        p: &Indicator,
        clauses: &[Clause],
    ) -> Result<(), AllocError>
        ensures { OnOk result (found.new.items ≡ found.old.items ++ lacked self.now (p.now, clauses.now)) }
    {
        if self.lacks(p) {
            push_copies(found, clauses)?;
        }
        Ok(())
    }

    /// The clauses of those procedures of a library that the program lacks.
    fn lacking(&self, alloc: Global, library: &Program) -> Result<Vec<Clause>, AllocError>
        ensures { IfOk result (λ found. found.items ≡ flat_map (lacked self.now) library.now.procedures) }
    {
        let mut found = Vec::new(alloc);
        for i in 0..library.procedure_count() {
            let (p, clauses) = library.procedure_at(i);
            self.push_lacked(&mut found, p, clauses)?;
        }
        Ok(found)
    }

    /// The program, with those procedures of a library that it neither defines nor declares.
    pub fn with_library(self, alloc: Global, library: &Program) -> Result<Program, AllocError>
        ensures { IfOk result (λ p. p ≡ with_library self library.now) }
    {
        let mut program = self;
        program.add_library(alloc, library)?;
        Ok(program)
    }

    /// Adds those procedures of a library that the program neither defines nor declares. After an `Err` some of their clauses may be
    /// there.
    fn add_library(&mut self, alloc: Global, library: &Program) -> Result<(), AllocError>
        ensures { OnOk result (self.new ≡ with_library self.old library.now) }
    {
        let clauses = self.lacking(alloc, library)?;
        self.add_clauses(alloc, clauses)
    }
}
