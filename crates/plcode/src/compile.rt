//! The code of a program's static procedures.
ghost use Rattle.std.specs.Prelude.{IfOk, OnOk};
ghost use Rattle.plprogram.specs.Program.{AreOwn};
ghost use Rattle.plcode.specs.Steps.{text, Extended};
ghost use Rattle.plcode.specs.Bodies.{IsCode};
ghost use Rattle.plcode.specs.Clauses.{AreCodeOf, AreProcedures};

use crate::clause::{ClauseCode, compile_clause};
use crate::draft::Draft;
use crate::index::Procedure;
use plclause::clause::Clause;
use plnames::table::NameTable;
use plprogram::program::Program;
use std::alloc::{AllocError, Global};

/// Compiles clauses, in their order. After an `Err` what was put stays, and nothing leads to it.
fn compile_clauses(
    alloc: Global,
    code: &mut Draft,
    kinds: &NameTable,
    clauses: &[Clause],
) -> Result<Vec<ClauseCode>, AllocError>
    requires code { IsCode (text code.old) }
    ensures extended { OnOk result (Extended (text code.old) (text code.new)) }
    ensures code { OnOk result (IsCode (text code.new)) }
    ensures clauses { IfOk result (λ made. AreCodeOf (text code.new) made.items clauses.now) }
{
    let mut made = Vec::new(alloc);
    for clause in clauses {
        let compiled = compile_clause(alloc, code, kinds, clause)?;
        made.push(compiled)?;
    }
    Ok(made)
}

/// Compiles the static procedures of a program, in their order, in time linear in the nodes of their clauses. After an `Err` what
/// was put stays, and nothing leads to it.
pub fn compile_procedures(
    alloc: Global,
    code: &mut Draft,
    program: &Program,
) -> Result<Vec<Procedure>, AllocError>
    requires code { IsCode (text code.old) }
    ensures extended { OnOk result (Extended (text code.old) (text code.new)) }
    ensures code { OnOk result (IsCode (text code.new)) }
    ensures procedures { IfOk result (λ made. AreProcedures (text code.new) made.items program.now.procedures) }
    ensures own { OnOk result (AreOwn program.now.procedures) }
{
    let mut made = Vec::new(alloc);
    for index in 0..program.procedure_count() {
        let (_, clauses) = program.procedure_at(index);
        let compiled = compile_clauses(alloc, code, program.names(), clauses)?;
        let procedure = Procedure::new(alloc, compiled)?;
        made.push(procedure)?;
    }
    Ok(made)
}
