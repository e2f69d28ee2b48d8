//! Arithmetic (ISO/IEC 13211-1 8.6, 8.7).
ghost use Rattle.std.specs.Prelude.{◌≡◌, ℕ, IfOk, map};
ghost use Rattle.plcells.specs.Store.{Store, value, IsValue, AreValues};
ghost use Rattle.plarith.specs.Errors.{error_of};
ghost use Rattle.plarith.specs.Evaluation.{eval as eval_of};
ghost use Rattle.plprogram.specs.declared.settings.Settings.{Settings};
ghost use Rattle.plbuiltin.specs.Solution.{Raises};
ghost use Rattle.plbuiltin.specs.Arithmetic.{on_arithmetic, equals as equals_of, compared as compared_of, compares as compares_of};
ghost use Rattle.planswers.specs.Answers.{IsThere, meant};

use planswers::answer::Answer;
use plarith::error::{ArithError, Evaluated};
use plarith::value::eval;
use plcells::cell::Cell;
use plcells::heap::Heap;
use plnames::kind::{Arithmetic, Comparison};
use std::alloc::{AllocError, Global};

/// What a call of one of them comes to.
pub(crate) fn arithmetic_answer(
    alloc: Global,
    heap: &Heap,
    b: Arithmetic,
    args: &[Cell],
) -> Result<Answer, AllocError>
    requires args { AreValues heap.now args.now }
    ensures is { IfOk result (λ answer. (s : Settings) (n : ℕ) → meant heap.now s n answer ≡ on_arithmetic b (map (value heap.now) args.now) s) }
    ensures there { IfOk result (IsThere heap.now) }
{
    let [left, right] = args else {
        return Ok(Answer::Fails);
    };
    match b {
        Arithmetic::Is => equals(alloc, heap, *left, *right),
        Arithmetic::Compare(c) => {
            let left = eval(alloc, heap, *left)?;
            let right = eval(alloc, heap, *right)?;
            compared(alloc, c, left, right)
        }
    }
}

/// is/2 (8.6.1).
fn equals(alloc: Global, heap: &Heap, term: Cell, expression: Cell) -> Result<Answer, AllocError>
    requires term { IsValue heap.now term }
    requires expression { IsValue heap.now expression }
    ensures is { IfOk result (λ answer. (s : Settings) (n : ℕ) → meant heap.now s n answer ≡ equals_of (value heap.now term) (eval_of (value heap.now expression)) s) }
    ensures there { IfOk result (IsThere heap.now) }
{
    match eval(alloc, heap, expression)? {
        Ok(number) => Ok(Answer::Equals(term, number)),
        Err(error) => raises(alloc, &error),
    }
}

/// What `=:=`/2, `=\=`/2, `<`/2, `=<`/2, `>`/2 and `>=`/2 make of what their expressions come to; an error of the left one comes first (8.7.1).
fn compared(
    alloc: Global,
    c: Comparison,
    left: Evaluated,
    right: Evaluated,
) -> Result<Answer, AllocError>
    ensures is { IfOk result (λ answer. (h : Store) (s : Settings) (n : ℕ) → meant h s n answer ≡ compared_of c left right s) }
    ensures there { IfOk result (λ answer. (h : Store) → IsThere h answer) }
{
    let x = match left {
        Ok(x) => x,
        Err(error) => return raises(alloc, &error),
    };
    match right {
        Ok(y) if compares(c, x, y) => Ok(Answer::Succeeds),
        Ok(_) => Ok(Answer::Fails),
        Err(error) => raises(alloc, &error),
    }
}

/// An error of an expression is raised.
fn raises(alloc: Global, error: &ArithError) -> Result<Answer, AllocError>
    ensures is { IfOk result (λ answer. (h : Store) (s : Settings) (n : ℕ) → meant h s n answer ≡ Raises (error_of error.now)) }
    ensures there { IfOk result (λ answer. (h : Store) → IsThere h answer) }
{
    let term = error.term(alloc)?;
    Ok(Answer::Raises(term))
}

/// Whether two integers compare so.
pub fn compares(c: Comparison, x: i64, y: i64) -> bool
    ensures { result ≡ compares_of c x y }
{
    match c {
        Comparison::Equal => x == y,
        Comparison::Unequal => x != y,
        Comparison::Less => x < y,
        Comparison::AtMost => x <= y,
        Comparison::Greater => x > y,
        Comparison::AtLeast => x >= y,
    }
}
