//! What the predicates on clauses refuse (ISO/IEC 13211-1 8.8, 8.9).
ghost use Rattle.std.specs.Prelude.{◌≡◌, IfOk};
ghost use Rattle.plcells.specs.Store.{value, IsValue};
ghost use Rattle.plsearch.specs.Rows.{is_static, no_body, no_head, unchangeable, unerasable, unreadable};

use crate::value::{indicator_of, integer_in};
use planswers::list::is_variable;
use plcells::cell::Cell;
use plcells::heap::Heap;
use plerror::error;
use plprogram::program::Program;
use plterm::indicator::Indicator;
use plterm::term::Term;
use std::alloc::{AllocError, Global};

/// Whether a procedure is static.
pub fn is_static(program: &Program, p: &Indicator) -> bool
    ensures { result ≡ is_static program.now p.now }
{
    program.names().is_fixed(p) || !program.clauses_of(p).is_empty()
}

/// The error where a procedure cannot be changed.
pub fn unchangeable(
    alloc: Global,
    program: &Program,
    p: &Indicator,
) -> Result<Option<Term>, AllocError>
    ensures { IfOk result (λ o. o ≡ unchangeable program.now p.now) }
{
    if is_static(program, p) {
        let error = error::static_error(alloc, p)?;
        return Ok(Some(error));
    }
    Ok(None)
}

/// The error where a head is no atom or compound.
pub fn no_head(alloc: Global, heap: &Heap, head: &Cell) -> Result<Option<Term>, AllocError>
    requires { IsValue heap.now head.now }
    ensures { IfOk result (λ o. o ≡ no_head (value heap.now head.now)) }
{
    if is_variable(heap, head) {
        let error = error::instantiation_error(alloc)?;
        return Ok(Some(error));
    }
    no_body(alloc, heap, head)
}

/// The error where no clause can have a body.
pub fn no_body(alloc: Global, heap: &Heap, body: &Cell) -> Result<Option<Term>, AllocError>
    requires { IsValue heap.now body.now }
    ensures { IfOk result (λ o. o ≡ no_body (value heap.now body.now)) }
{
    let Some(number) = integer_in(heap, body) else {
        return Ok(None);
    };
    let culprit = Term::int(alloc, number)?;
    let error = error::type_error(alloc, "callable", culprit)?;
    Ok(Some(error))
}

/// The error where the clauses of a procedure are not told.
pub fn unreadable(
    alloc: Global,
    program: &Program,
    p: &Indicator,
) -> Result<Option<Term>, AllocError>
    ensures { IfOk result (λ o. o ≡ unreadable p.now) }
{
    if program.names().is_fixed(p) {
        let error = error::private_error(alloc, p)?;
        return Ok(Some(error));
    }
    Ok(None)
}

/// The error where the clauses of a head cannot be erased.
pub fn unerasable(
    alloc: Global,
    program: &Program,
    heap: &Heap,
    head: &Cell,
) -> Result<Option<Term>, AllocError>
    requires { IsValue heap.now head.now }
    ensures { IfOk result (λ o. o ≡ unerasable program.now (value heap.now head.now)) }
{
    let error = no_head(alloc, heap, head)?;
    if error.is_some() {
        return Ok(error);
    }
    let p = indicator_of(alloc, heap, head)?;
    unchangeable(alloc, program, &p)
}
