//! Built-in predicates on the parts of a term (ISO/IEC 13211-1 8.5).
ghost use Rattle.std.specs.Prelude.{◌≡◌, ℕ, suc, pos, ◌<◌, ◌≤◌, ◌∷◌, length, take, codes, IfOk, map};
ghost use Rattle.std.specs.List.{list_any};
ghost use Rattle.platoms.specs.Names.{IsTable, atom_at, functor_name};
ghost use Rattle.plterm.specs.Tree.{Tree, int, atom};
ghost use Rattle.plcells.specs.Store.{term, terms, value, IsBlock, IsValue, AreValues};
ghost use Rattle.plprogram.specs.declared.settings.Settings.{Settings};
ghost use Rattle.plerror.specs.Errors.{representation_error};
ghost use Rattle.plbuiltin.specs.Parts.{on_parts, arg as arg_of, functor as functor_of, make as make_of, made as made_of, univ as univ_of, from_list as from_list_of, with_name as named_of, copy as copy_of, term_variables as term_variables_of};
ghost use Rattle.plbuiltin.specs.Lists.{Empty, Other, elements_of as elements_in_term, is_variable as is_variable_of};
ghost use Rattle.planswers.specs.Answers.{IsThere, meant};
ghost use Rattle.planswers.specs.Lists.{tail_as};

use planswers::answer::Answer;
use planswers::build::compound_of_variables;
use planswers::equation::{are_values, is_list_of, solves};
use planswers::error::{outside, unbound, wrong_type};
use planswers::list::{Elements, Tail, elements_of, is_variable};
use plcells::cell::Cell;
use plcells::heap::Heap;
use plerror::error;
use plnames::kind::Parts;
use plorder::occurrences::variables_of;
use plorder::shape::{Block, Shape, shape_of};
use plterm::term::ARITY;
use std::alloc::{AllocError, Global};

/// What a call of one of them comes to.
pub(crate) fn parts_answer(
    alloc: Global,
    heap: &Heap,
    b: Parts,
    args: &[Cell],
) -> Result<Answer, AllocError>
    requires args { AreValues heap.now args.now }
    ensures is { IfOk result (λ answer. (s : Settings) (n : ℕ) → meant heap.now s n answer ≡ on_parts b (map (value heap.now) args.now) s n) }
    ensures there { IfOk result (IsThere heap.now) }
{
    match (b, args) {
        (Parts::Argument, [number, term, argument]) => arg(alloc, heap, *number, *term, *argument),
        (Parts::Functor, [term, name, arity]) => functor(alloc, heap, *term, *name, *arity),
        (Parts::Univ, [term, list]) => univ(alloc, heap, *term, *list),
        (Parts::Copy, [term, copy]) => copied(alloc, heap, *term, *copy),
        (Parts::Variables, [term, list]) => variables(alloc, heap, *term, *list),
        _ => Ok(Answer::Fails),
    }
}

/// arg/3 (8.5.2).
fn arg(
    alloc: Global,
    heap: &Heap,
    number: Cell,
    term: Cell,
    argument: Cell,
) -> Result<Answer, AllocError>
    requires number { IsValue heap.now number }
    requires term { IsValue heap.now term }
    requires argument { IsValue heap.now argument }
    ensures is { IfOk result (λ answer. (s : Settings) (n : ℕ) → meant heap.now s n answer ≡ arg_of (value heap.now number) (value heap.now term) (value heap.now argument) s) }
    ensures there { IfOk result (IsThere heap.now) }
{
    match (shape_of(heap, &number), shape_of(heap, &term)) {
        (Shape::Variable(_), _) | (_, Shape::Variable(_)) => unbound(alloc),
        (Shape::Integer(i), Shape::Compound(block)) => {
            if i < 0 {
                return outside(alloc, heap, "not_less_than_zero", number);
            }
            Ok(is_argument(heap, i as u64, block, argument))
        }
        (Shape::Integer(_), _) => wrong_type(alloc, heap, "compound", term),
        _ => wrong_type(alloc, heap, "integer", number),
    }
}

/// Whether a value is the argument of a compound with a number, of which the first one has 1.
fn is_argument(heap: &Heap, number: u64, block: Block, argument: Cell) -> Answer
    requires block { IsBlock heap.now block.place block.functor block.arity }
    requires argument { IsValue heap.now argument }
    ensures is { (s : Settings) (n : ℕ) → meant heap.now s n result ≡ arg_of (int (pos number)) (term heap.now block.place) (value heap.now argument) s }
    ensures there { IsThere heap.now result }
{
    if number == 0 || number > u64::from(block.arity) {
        return Answer::Fails;
    }
    Answer::Unifies(argument, heap.argument(block.place.arg(number as u32)))
}

/// functor/3 (8.5.1).
fn functor(
    alloc: Global,
    heap: &Heap,
    term: Cell,
    name: Cell,
    arity: Cell,
) -> Result<Answer, AllocError>
    requires term { IsValue heap.now term }
    requires name { IsValue heap.now name }
    requires arity { IsValue heap.now arity }
    ensures is { IfOk result (λ answer. (s : Settings) (n : ℕ) → meant heap.now s n answer ≡ functor_of (value heap.now term) (value heap.now name) (value heap.now arity) s n) }
    ensures there { IfOk result (IsThere heap.now) }
{
    match shape_of(heap, &term) {
        Shape::Variable(_) => make(alloc, heap, term, name, arity),
        Shape::Compound(block) => {
            let functor = heap.names().functor_of(block.functor);
            let right = (Cell::Atom(functor.name), Cell::Int(i32::from(block.arity)));
            are_values(alloc, (name, arity), right)
        }
        _ => are_values(alloc, (name, arity), (term, Cell::Int(0))),
    }
}

/// A term is made of a name and the number of its arguments, which are new variables.
fn make(
    alloc: Global,
    heap: &Heap,
    term: Cell,
    name: Cell,
    arity: Cell,
) -> Result<Answer, AllocError>
    requires term { IsValue heap.now term }
    requires name { IsValue heap.now name }
    requires arity { IsValue heap.now arity }
    ensures is { IfOk result (λ answer. (s : Settings) (n : ℕ) → meant heap.now s n answer ≡ make_of (value heap.now term) (value heap.now name) (value heap.now arity) s n) }
    ensures there { IfOk result (IsThere heap.now) }
{
    match (shape_of(heap, &name), shape_of(heap, &arity)) {
        (Shape::Variable(_), _) | (_, Shape::Variable(_)) => unbound(alloc),
        (Shape::Compound(_), _) => wrong_type(alloc, heap, "atomic", name),
        (_, Shape::Integer(count)) if count < 0 => {
            outside(alloc, heap, "not_less_than_zero", arity)
        }
        (_, Shape::Integer(count)) if count > ARITY as i64 => too_many(alloc),
        (_, Shape::Integer(count)) => made(alloc, heap, term, name, count as u16),
        _ => wrong_type(alloc, heap, "integer", arity),
    }
}

/// A compound has at most 1,024 arguments.
fn too_many(alloc: Global) -> Result<Answer, AllocError>
    ensures { IfOk result (λ answer. answer ≡ Answer.Raises (representation_error (codes "max_arity"))) }
{
    let error = error::representation_error(alloc, "max_arity")?;
    Ok(Answer::Raises(error))
}

/// A term is made of a name that is no variable and no compound, and at most 1,024 new variables.
fn made(
    alloc: Global,
    heap: &Heap,
    term: Cell,
    name: Cell,
    count: u16,
) -> Result<Answer, AllocError>
    requires term { IsValue heap.now term }
    requires name { IsValue heap.now name }
    requires few { count ≤ 1024 }
    ensures is { IfOk result (λ answer. (s : Settings) (n : ℕ) → meant heap.now s n answer ≡ made_of (value heap.now term) (value heap.now name) count s n) }
    ensures there { IfOk result (IsThere heap.now) }
{
    if count == 0 {
        return Ok(Answer::Unifies(term, name));
    }
    let Shape::Atom(a) = shape_of(heap, &name) else {
        return wrong_type(alloc, heap, "callable", name);
    };
    let functor = heap.names().atom_name(a).copied()?;
    let right = compound_of_variables(alloc, functor, 1, count)?;
    solves(alloc, term, right, &[], u32::from(count))
}

/// `=..`/2 (8.5.3).
fn univ(alloc: Global, heap: &Heap, term: Cell, list: Cell) -> Result<Answer, AllocError>
    requires term { IsValue heap.now term }
    requires list { IsValue heap.now list }
    ensures is { IfOk result (λ answer. (s : Settings) (n : ℕ) → meant heap.now s n answer ≡ univ_of (value heap.now term) (value heap.now list) s) }
    ensures there { IfOk result (IsThere heap.now) }
{
    match shape_of(heap, &term) {
        Shape::Variable(_) => from_list(alloc, heap, term, list),
        Shape::Compound(block) => {
            let items = elements(alloc, heap, &block)?;
            is_list_of(alloc, list, &items)
        }
        _ => is_list_of(alloc, list, &[term]),
    }
}

/// The name and the arguments of a compound.
fn elements(alloc: Global, heap: &Heap, block: &Block) -> Result<Vec<Cell>, AllocError>
    requires names { IsTable heap.now.names }
    requires block { IsBlock heap.now block.now.place block.now.functor block.now.arity }
    ensures are { IfOk result (λ vs. map (value heap.now) vs.items ≡ atom (functor_name heap.now.names block.now.functor) ∷ terms heap.now (suc block.now.place) block.now.arity) }
    ensures there { IfOk result (λ vs. AreValues heap.now vs.items) }
{
    let functor = heap.names().functor_of(block.functor);
    let mut items = Vec::new(alloc);
    items.push(Cell::Atom(functor.name))?;
    for k in 0..block.arity {
        items.push(heap.argument(block.place.arg(1 + u32::from(k))))?;
    }
    Ok(items)
}

/// The term whose name and arguments are the elements of a list: a variable as its head or its end is looked for first.
fn from_list(alloc: Global, heap: &Heap, term: Cell, list: Cell) -> Result<Answer, AllocError>
    requires term { IsValue heap.now term }
    requires list { IsValue heap.now list }
    ensures is { IfOk result (λ answer. (s : Settings) (n : ℕ) → let es = elements_in_term (value heap.now list) in meant heap.now s n answer ≡ from_list_of (value heap.now term) es.items es.tail (value heap.now list) s) }
    ensures there { IfOk result (IsThere heap.now) }
{
    let elements = elements_at(alloc, heap, &list)?;
    match elements.tail {
        Tail::Unbound => unbound(alloc),
        Tail::Other => no_list(alloc, heap, &elements.items, list),
        Tail::Empty => from_elements(alloc, heap, term, &elements.items, list),
    }
}

/// The elements of the term of a value, and what stands behind them.
fn elements_at(alloc: Global, heap: &Heap, list: &Cell) -> Result<Elements, AllocError>
    requires { IsValue heap.now list.now }
    ensures is { IfOk result (λ es. elements_in_term (value heap.now list.now) ≡ record { items = map (value heap.now) es.items.items; tail = tail_as es.tail }) }
    ensures there { IfOk result (λ es. AreValues heap.now es.items.items) }
{
    elements_of(alloc, heap, *list)
}

/// The error of a value that is no list, and ends in no variable, where the name and the arguments of a term are asked of it.
fn no_list(alloc: Global, heap: &Heap, items: &[Cell], list: Cell) -> Result<Answer, AllocError>
    requires items { AreValues heap.now items.now }
    requires list { IsValue heap.now list }
    ensures is { IfOk result (λ answer. (t : Tree) (s : Settings) (n : ℕ) → meant heap.now s n answer ≡ from_list_of t (map (value heap.now) items.now) Other (value heap.now list) s) }
    ensures there { IfOk result (IsThere heap.now) }
{
    if begins_unbound(heap, items) {
        return unbound(alloc);
    }
    wrong_type(alloc, heap, "list", list)
}

/// Whether the first one of some values is an unbound variable.
fn begins_unbound(heap: &Heap, items: &[Cell]) -> bool
    requires { AreValues heap.now items.now }
    ensures { result ≡ list_any is_variable_of (take 1 (map (value heap.now) items.now)) }
{
    match items.first() {
        Some(head) => is_variable(heap, head),
        None => false,
    }
}

/// The term whose name and arguments are the elements of a list, which are given.
fn from_elements(
    alloc: Global,
    heap: &Heap,
    term: Cell,
    items: &[Cell],
    list: Cell,
) -> Result<Answer, AllocError>
    requires term { IsValue heap.now term }
    requires items { AreValues heap.now items.now }
    requires list { IsValue heap.now list }
    ensures is { IfOk result (λ answer. (s : Settings) (n : ℕ) → meant heap.now s n answer ≡ from_list_of (value heap.now term) (map (value heap.now) items.now) Empty (value heap.now list) s) }
    ensures there { IfOk result (IsThere heap.now) }
{
    let Some((head, arguments)) = items.split_first() else {
        return outside(alloc, heap, "non_empty_list", list);
    };
    match shape_of(heap, head) {
        Shape::Variable(_) => unbound(alloc),
        Shape::Compound(_) => wrong_type(alloc, heap, "atomic", *head),
        _ if arguments.is_empty() => Ok(Answer::Unifies(term, *head)),
        Shape::Atom(name) => with_name(alloc, heap, term, name, arguments),
        Shape::Integer(_) => wrong_type(alloc, heap, "callable", *head),
    }
}

/// The compound of a name and some arguments, of which there may be too many.
fn with_name(
    alloc: Global,
    heap: &Heap,
    term: Cell,
    name: u32,
    arguments: &[Cell],
) -> Result<Answer, AllocError>
    requires term { IsValue heap.now term }
    requires name { name < length heap.now.names.atoms }
    requires some { 0 < length arguments.now }
    requires arguments { AreValues heap.now arguments.now }
    ensures is { IfOk result (λ answer. (s : Settings) (n : ℕ) → meant heap.now s n answer ≡ named_of (value heap.now term) (atom_at heap.now.names name) (map (value heap.now) arguments.now) s) }
    ensures there { IfOk result (IsThere heap.now) }
{
    if arguments.len() > ARITY {
        return too_many(alloc);
    }
    let functor = heap.names().atom_name(name).copied()?;
    let right = compound_of_variables(alloc, functor, 1, arguments.len() as u16)?;
    solves(alloc, term, right, arguments, 0)
}

/// copy_term/2 (8.5.4).
fn copied(alloc: Global, heap: &Heap, term: Cell, copy: Cell) -> Result<Answer, AllocError>
    requires term { IsValue heap.now term }
    requires copy { IsValue heap.now copy }
    ensures is { IfOk result (λ answer. (s : Settings) (n : ℕ) → meant heap.now s n answer ≡ copy_of (value heap.now term) (value heap.now copy) s n) }
    ensures there { IfOk result (IsThere heap.now) }
{
    let taken = heap.take(alloc, term)?;
    let variables = taken.variables(alloc)?;
    let Ok(new) = u32::try_from(variables.len()) else {
        return Err(AllocError);
    };
    let right = taken.copy(alloc, 1)?;
    solves(alloc, copy, right, &[], new)
}

/// term_variables/2 (Cor.2 8.5.5).
fn variables(alloc: Global, heap: &Heap, term: Cell, list: Cell) -> Result<Answer, AllocError>
    requires term { IsValue heap.now term }
    requires list { IsValue heap.now list }
    ensures is { IfOk result (λ answer. (s : Settings) (n : ℕ) → meant heap.now s n answer ≡ term_variables_of (value heap.now term) (value heap.now list) s) }
    ensures there { IfOk result (IsThere heap.now) }
{
    let items = variables_of(alloc, heap, term)?;
    is_list_of(alloc, list, &items)
}
