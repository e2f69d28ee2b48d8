//! What the solvers of a program share.

ghost use Rattle.std.specs.Prelude.{◌≡◌, IfOk};
ghost use Rattle.plsolver.specs.Solver.{IsSharedOf};

use plcode::program::{ProgramCode, SharedCode};
use plprogram::program::Program;
use std::alloc::{AllocError, Global};
use std::marker::Model;

/// What the solvers of a program share: its code, with the names in it.
#[derive(Drop)]
pub struct Shared {
    code: SharedCode,
}

impl Model for Shared {
    ghost use Rattle.plcode.specs.Callees.{Compiled};

    ghost Value = { Compiled };

    ghost view = { λ a. a.code };
}

impl Shared {
    /// Compiles a program, once for all its solvers.
    pub fn new(alloc: Global, program: &Program) -> Result<Shared, AllocError>
        ensures { IfOk result (λ shared. IsSharedOf program.now shared) }
    {
        let code = ProgramCode::new(alloc, program)?;
        let code = SharedCode::new(alloc, code)?;
        Ok(Shared { code })
    }

    /// The program's code.
    pub fn code(&self) -> &SharedCode
        ensures { result.now ≡ self.now }
    {
        &self.code
    }
}
