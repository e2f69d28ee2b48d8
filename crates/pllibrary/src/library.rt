//! Programs with the library.
ghost use Rattle.std.specs.Prelude.{◌≡◌, IfOk};
ghost use Rattle.pllibrary.specs.Library.{IsLibrary, HasLibrary};

use crate::text::LIBRARY;
use plload::load::load;
use plprogram::program::Program;
use std::alloc::{AllocError, Global};

/// The program that the library's text is. A text that is refused is answered as want of memory; this one is a constant, which is not.
fn library(alloc: Global) -> Result<Program, AllocError>
    ensures { IfOk result IsLibrary }
{
    match load(alloc, LIBRARY.as_bytes()) {
        Ok(program) => Ok(program),
        Err(_) => Err(AllocError),
    }
}

/// The program with those procedures of the library that it neither defines nor declares.
pub fn with_library(alloc: Global, program: Program) -> Result<Program, AllocError>
    ensures { IfOk result (HasLibrary program) }
{
    let library = library(alloc)?;
    program.with_library(alloc, &library)
}
