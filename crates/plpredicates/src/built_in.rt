//! The built-in predicates, by topic.
ghost use Rattle.std.specs.Prelude.{◌≡◌, ℕ, IfOk, map};
ghost use Rattle.plcells.specs.Store.{value, AreValues};
ghost use Rattle.plbuiltin.specs.Solutions.{solutions};
ghost use Rattle.planswers.specs.Answers.{IsThere, meant};

use crate::arithmetic::arithmetic_answer;
use crate::order::order_answer;
use crate::parts::parts_answer;
use crate::sorting::sorting_answer;
use crate::terms::terms_answer;
use crate::tests::tests_answer;
use planswers::answer::Answer;
use plcells::cell::Cell;
use plcells::heap::Heap;
use plnames::kind::BuiltIn;
use plprogram::settings::Settings;
use pltexts::atoms::atoms_answer;
use pltexts::flags::flags_answer;
use pltexts::output::output_answer;
use std::alloc::{AllocError, Global};

/// What a call of a built-in predicate comes to, for the terms of the values of its arguments, under a thread's settings. The heap
/// and the settings stay as they are: the caller carries the answer out.
pub fn answers(
    alloc: Global,
    heap: &Heap,
    settings: &Settings,
    b: BuiltIn,
    args: &[Cell],
) -> Result<Answer, AllocError>
    requires args { AreValues heap.now args.now }
    ensures is { IfOk result (λ answer. (n : ℕ) → meant heap.now settings.now n answer ≡ solutions b (map (value heap.now) args.now) settings.now n) }
    ensures there { IfOk result (IsThere heap.now) }
{
    match b {
        BuiltIn::Terms(b) => Ok(terms_answer(b, args)),
        BuiltIn::Tests(b) => Ok(tests_answer(heap, b, args)),
        BuiltIn::Parts(b) => parts_answer(alloc, heap, b, args),
        BuiltIn::Arithmetic(b) => arithmetic_answer(alloc, heap, b, args),
        BuiltIn::Order(b) => order_answer(alloc, heap, b, args),
        BuiltIn::Sorting(b) => sorting_answer(alloc, heap, b, args),
        BuiltIn::Atoms(b) => atoms_answer(alloc, heap, b, args),
        BuiltIn::Output(b) => output_answer(alloc, heap, settings, b, args),
        BuiltIn::Flags(b) => flags_answer(alloc, heap, settings, b, args),
    }
}
