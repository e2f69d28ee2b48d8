//! Built-in predicates that ask what a term is (ISO/IEC 13211-1 8.3).
ghost use Rattle.std.specs.Prelude.{◌≡◌, ℕ, map};
ghost use Rattle.plcells.specs.Store.{value, IsValue, AreValues};
ghost use Rattle.plprogram.specs.declared.settings.Settings.{Settings};
ghost use Rattle.plbuiltin.specs.Tests.{on_tests, holds as holds_of, is_list as is_list_of};
ghost use Rattle.planswers.specs.Answers.{IsThere, meant};

use planswers::answer::Answer;
use planswers::list::{Tail, end_of};
use plcells::cell::Cell;
use plcells::heap::Heap;
use plnames::kind::Tests;
use plorder::shape::{Shape, shape_of};

/// What a call of one of them comes to.
pub(crate) fn tests_answer(heap: &Heap, b: Tests, args: &[Cell]) -> Answer
    requires args { AreValues heap.now args.now }
    ensures is { (s : Settings) (n : ℕ) → meant heap.now s n result ≡ on_tests b (map (value heap.now) args.now) s }
    ensures there { IsThere heap.now result }
{
    match args {
        [v] if holds(heap, b, *v) => Answer::Succeeds,
        _ => Answer::Fails,
    }
}

/// Whether the term of a value is what a test asks for.
fn holds(heap: &Heap, b: Tests, v: Cell) -> bool
    requires { IsValue heap.now v }
    ensures { result ≡ holds_of b (value heap.now v) }
{
    let shape = shape_of(heap, &v);
    match b {
        Tests::Variable => matches!(shape, Shape::Variable(_)),
        Tests::Bound => !matches!(shape, Shape::Variable(_)),
        Tests::Atom => matches!(shape, Shape::Atom(_)),
        Tests::Integer => matches!(shape, Shape::Integer(_)),
        Tests::Atomic => matches!(shape, Shape::Integer(_) | Shape::Atom(_)),
        Tests::Compound => matches!(shape, Shape::Compound(_)),
        Tests::Callable => matches!(shape, Shape::Atom(_) | Shape::Compound(_)),
        Tests::ProperList => is_list(heap, v),
    }
}

/// Whether the term of a value is a list.
fn is_list(heap: &Heap, v: Cell) -> bool
    requires { IsValue heap.now v }
    ensures { result ≡ is_list_of (value heap.now v) }
{
    matches!(end_of(heap, v), Tail::Empty)
}
