//! Goals that are put on a heap, and the texts of values.
ghost use Rattle.std.specs.Prelude.{◌≡◌, [], length, IfOk};
ghost use Rattle.plterm.specs.Reading.{IsName};
ghost use Rattle.plterm.specs.Variables.{AllBelow};
ghost use Rattle.plcells.specs.Store.{AreValues, IsValue};

use platoms::names::Names;
use plcells::cell::Cell;
use plcells::heap::Heap;
use plload::goal::read_goal;
use plops::table::OpTable;
use plterm::name::Name;
use plterm::term::Term;
use plwrite::style::Style;
use plwrite::write::write_term;
use std::alloc::{AllocError, Global};
use std::string::String;
use std::test::Fail;

/// A heap with nothing on it.
pub(crate) fn empty(alloc: Global) -> Heap
    ensures { result.cells ≡ [] }
{
    Heap::new(alloc, Names::new(alloc))
}

/// So many new variables on a heap with nothing on it.
fn variables(heap: &mut Heap, alloc: Global, count: u64) -> Result<Vec<Cell>, AllocError>
    requires { heap.old.cells ≡ [] }
    ensures values { IfOk result (λ vs. AreValues heap.new vs.items) }
    ensures count { IfOk result (λ vs. length vs.items ≡ count) }
{
    let mut values = Vec::new(alloc);
    for number in 0..count {
        let c = heap.variable(number)?;
        values.push(Cell::Ref(c))?;
    }
    Ok(values)
}

/// A term whose variables have the numbers from 0 on, and how many these are.
fn numbered(alloc: Global, term: &Term) -> Result<(Term, u64), AllocError>
    ensures { IfOk result (λ r. AllBelow r.1 r.0) }
{
    let copy = term.copy(alloc, 0)?;
    let variables = term.variables(alloc)?;
    let Ok(count) = u32::try_from(variables.len()) else {
        return Err(AllocError);
    };
    Ok((copy, u64::from(count)))
}

/// Puts a term on a heap with nothing on it: its value.
fn put(heap: &mut Heap, alloc: Global, term: &Term) -> Result<Cell, AllocError>
    requires { heap.old.cells ≡ [] }
    ensures value { IfOk result (IsValue heap.new) }
{
    let (copy, count) = numbered(alloc, term)?;
    let values = variables(heap, alloc, count)?;
    heap.put(alloc, &copy, &values)
}

/// The goal of a text.
pub(crate) fn goal_of(alloc: Global, text: &str) -> Result<Term, Fail> {
    match read_goal(alloc, text)? {
        Some(goal) => Ok(goal),
        None => Err("no goal".into()),
    }
}

/// Puts the goal of a text on a heap with nothing on it: its value.
pub(crate) fn put_text(heap: &mut Heap, alloc: Global, text: &str) -> Result<Cell, Fail>
    requires { heap.old.cells ≡ [] }
    ensures value { IfOk result (IsValue heap.new) }
{
    let goal = goal_of(alloc, text)?;
    Ok(put(heap, alloc, &goal)?)
}

/// The values of a term's arguments.
fn arguments(alloc: Global, heap: &Heap, v: Cell) -> Result<Vec<Cell>, AllocError>
    requires { IsValue heap.now v }
    ensures { IfOk result (λ vs. AreValues heap.now vs.items) }
{
    let mut args = Vec::new(alloc);
    let Cell::Str(p) = heap.root(v) else {
        return Ok(args);
    };
    let (_, count) = heap.block(p);
    for i in 0..count {
        args.push(heap.argument(p.arg(1 + u32::from(i))))?;
    }
    Ok(args)
}

/// Puts the goal of a text on a heap with nothing on it: the values of its arguments.
pub(crate) fn put_arguments(heap: &mut Heap, alloc: Global, text: &str) -> Result<Vec<Cell>, Fail>
    requires { heap.old.cells ≡ [] }
    ensures { IfOk result (λ vs. AreValues heap.new vs.items) }
{
    let goal = put_text(heap, alloc, text)?;
    Ok(arguments(alloc, heap, goal)?)
}

/// The name of a text.
pub(crate) fn name(alloc: Global, text: &str) -> Result<Name, Fail>
    ensures { IfOk result (λ name. IsName name) }
{
    let name = Name::new(alloc, text)?;
    if name.len() > 65535 {
        return Err("too long for a name".into());
    }
    Ok(name)
}

/// The text of a term, quoted.
fn text_of(alloc: Global, term: &Term) -> Result<String, AllocError> {
    let operators = OpTable::iso(alloc)?;
    let text = write_term(alloc, term, &operators, Style::Quoted)?;
    String::from_utf8_lossy(alloc, &text)
}

/// The text of a value's term, quoted.
fn shown(alloc: Global, heap: &Heap, v: Cell) -> Result<String, AllocError>
    requires { IsValue heap.now v }
{
    let term = heap.take(alloc, v)?;
    text_of(alloc, &term)
}

/// Adds the text of a value's term.
pub(crate) fn show(alloc: Global, heap: &Heap, v: Cell, told: &mut String) -> Result<(), Fail>
    requires { IsValue heap.now v }
{
    let text = shown(alloc, heap, v)?;
    told.push_str(text.as_str())?;
    Ok(())
}
