//! Goal lists that a row puts together.
ghost use Rattle.std.specs.Prelude.{◌≡◌, ◌++◌, IfOk};
ghost use Rattle.plstack.specs.State.{goals_of, IsList};
ghost use Rattle.plmachine.specs.Lists.{at_level, branch_at, elements_of, failing, Holds, IsPart, Lengthened};

use pllinks::item::{ClauseGoals, Portion};
use pllinks::level::Level;
use pllinks::link::Continuation;
use plstack::stack::Stack;
use std::alloc::AllocError;

/// Goals at another cut level.
pub fn at_level(item: Portion, level: Level) -> Portion
    ensures { result ≡ at_level level item }
{
    match item {
        Portion::Clause(run) => Portion::Clause(ClauseGoals { level, ..run }),
        Portion::Goal(_, v) => Portion::Goal(level, v),
        Portion::Marker(kind, of) => Portion::Marker(kind, of),
    }
}

/// The goal fail/0 of a cut level, by its place in each program's code.
pub fn failure(level: Level) -> Portion
    ensures { result ≡ failing level }
{
    Portion::Clause(ClauseGoals {
        position: 1,
        owed: 0,
        base: 0,
        end: 0,
        level,
    })
}

/// A branch of a goal of a clause's body, by the place where it begins.
pub fn branch(run: &ClauseGoals, place: u32) -> Portion
    ensures { result ≡ branch_at run.now place }
{
    Portion::Clause(ClauseGoals {
        position: place,
        owed: 0,
        ..*run
    })
}

/// A new list: an item before a list that is there.
pub fn before(
    stack: &mut Stack,
    item: Portion,
    rest: Continuation,
) -> Result<Continuation, AllocError>
    requires item { IsPart stack.old item }
    requires rest { IsList stack.old rest }
    ensures ok { IfOk result (λ l. Holds stack.new l (elements_of stack.old item ++ goals_of stack.old rest)) }
    ensures grows { Lengthened stack.old stack.new }
{
    if let Portion::Clause(run) = item {
        return stack.before(run, rest);
    }
    stack.link(item, rest)
}

/// A new list: two items before a list that is there.
pub fn two_in_turn(
    stack: &mut Stack,
    first: Portion,
    second: Portion,
    rest: Continuation,
) -> Result<Continuation, AllocError>
    requires first { IsPart stack.old first }
    requires second { IsPart stack.old second }
    requires rest { IsList stack.old rest }
    ensures ok { IfOk result (λ l. Holds stack.new l (elements_of stack.old first ++ (elements_of stack.old second ++ goals_of stack.old rest))) }
    ensures grows { Lengthened stack.old stack.new }
{
    let behind = before(stack, second, rest)?;
    before(stack, first, behind)
}

/// Two new lists: each of two items before a list that is there.
pub fn two_before(
    stack: &mut Stack,
    first: Portion,
    second: Portion,
    rest: Continuation,
) -> Result<(Continuation, Continuation), AllocError>
    requires first { IsPart stack.old first }
    requires second { IsPart stack.old second }
    requires rest { IsList stack.old rest }
    ensures first { IfOk result (λ r. Holds stack.new r.0 (elements_of stack.old first ++ goals_of stack.old rest)) }
    ensures second { IfOk result (λ r. Holds stack.new r.1 (elements_of stack.old second ++ goals_of stack.old rest)) }
    ensures grows { Lengthened stack.old stack.new }
{
    let shared = stack.number_of(&rest)?;
    let one = before(stack, first, Continuation::alone(shared))?;
    let other = before(stack, second, Continuation::alone(shared))?;
    Ok((one, other))
}
