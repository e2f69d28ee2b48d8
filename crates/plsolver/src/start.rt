//! Where a search starts.

ghost use Rattle.std.specs.Prelude.{◌≡◌, [], IfOk};
ghost use Rattle.plcode.specs.Steps.{goals_from};
ghost use Rattle.plsearch.specs.Search.{goals_for, once as once_of};
ghost use Rattle.plstack.specs.State.{IsList};
ghost use Rattle.plsolver.specs.Solver.{IsSharedOf, IsStart, IsEmpty, Starts, StartsGoal, start_given};

use crate::shared::Shared;
use crate::solver::Start;
use plcode::program::{ProgramCode, SharedCode};
use plcollect::collection::Collection;
use plenv::env::Environment;
use pllinks::item::Portion;
use pllinks::level::Level;
use pllinks::link::Continuation;
use pllinks::list::ListId;
use plmachine::machine::{Machine, Mode};
use plprogram::program::Program;
use plstack::stack::Stack;
use plterm::name::Name;
use plterm::term::Term;
use plviews::Layer;
use std::alloc::{AllocError, Global};

/// The machine of a search: the goals of its start in order, each once, in a choice with nothing left.
pub fn start(
    alloc: Global,
    shared: &Shared,
    program: &Program,
    given: Start,
) -> Result<Machine, AllocError>
    requires { IsSharedOf program.now shared.now }
    ensures { IfOk result (λ s. IsStart program.now (start_given program.now given) s) }
{
    let Start {
        thread,
        alias,
        goal,
    } = given;
    let mut stack = empty(alloc, shared.code())?;
    let list = first_goals(&mut stack, alloc, program, &goal)?;
    let settings = program.settings().copied(alloc)?;
    stack.open_plain()?;
    stack.visit(list);
    Ok(Machine {
        alloc,
        thread,
        alias,
        stack,
        layer: Layer::new(alloc),
        mode: Mode::Visit,
        out: Vec::new(alloc),
        settings,
        kept: Collection::new(alloc),
        args: Vec::new(alloc),
    })
}

/// An environment with nothing in it, of the names of a program's code.
fn environment_of(alloc: Global, code: &ProgramCode) -> Result<Environment, AllocError>
    ensures names { IfOk result (λ env. env.heap.names ≡ code.now.text.names) }
    ensures count { IfOk result (λ env. env.count ≡ 0) }
{
    let names = code.names().copied(alloc)?;
    Ok(Environment::new(alloc, names))
}

/// A stack with nothing on it, of a program's code.
fn empty(alloc: Global, code: &SharedCode) -> Result<Stack, AllocError>
    requires { goals_from code.now.text 0 0 ≡ [] }
    ensures empty { IfOk result (λ s. IsEmpty s) }
    ensures code { IfOk result (λ s. s.basis.code ≡ code.now) }
{
    let env = environment_of(alloc, code.code())?;
    let code = code.copied()?;
    Stack::new(alloc, code, env)
}

/// The list of a thread's goal, or of the program's goals where it has none of its own.
fn first_goals(
    stack: &mut Stack,
    alloc: Global,
    program: &Program,
    goal: &Option<Term>,
) -> Result<Continuation, AllocError>
    requires { IsEmpty stack.old }
    ensures starts { IfOk result (λ list. Starts stack.new list (goals_for program.now goal.now)) }
    ensures basis { stack.new.basis ≡ stack.old.basis }
    ensures frames { stack.new.frames ≡ stack.old.frames }
{
    match goal {
        None => start_goals(stack, alloc, program.goals()),
        Some(goal) => {
            let none = Continuation::alone(ListId::EMPTY);
            start_goal(stack, alloc, goal, none)
        }
    }
}

/// The list of goals, each once.
fn start_goals(stack: &mut Stack, alloc: Global, goals: &[Term]) -> Result<Continuation, AllocError>
    requires { IsEmpty stack.old }
    ensures starts { IfOk result (λ list. Starts stack.new list goals.now) }
    ensures basis { stack.new.basis ≡ stack.old.basis }
    ensures frames { stack.new.frames ≡ stack.old.frames }
{
    let mut list = Continuation::alone(ListId::EMPTY);
    let mut i = goals.len();
    while i > 0 {
        i -= 1;
        list = start_goal(stack, alloc, &goals[i], list)?;
    }
    Ok(list)
}

/// A goal, once, before a list.
fn start_goal(
    stack: &mut Stack,
    alloc: Global,
    goal: &Term,
    list: Continuation,
) -> Result<Continuation, AllocError>
    requires { IsList stack.old list }
    ensures starts { IfOk result (λ made. StartsGoal stack.old stack.new list made goal.now) }
    ensures basis { stack.new.basis ≡ stack.old.basis }
    ensures frames { stack.new.frames ≡ stack.old.frames }
{
    let copy = goal.copied(alloc)?;
    let once = once(alloc, copy)?;
    let v = stack.put_copy(alloc, &once)?;
    stack.link(Portion::Goal(Level::BOTTOM, v), list)
}

/// A goal, once.
fn once(alloc: Global, goal: Term) -> Result<Term, AllocError>
    ensures { IfOk result (λ t. t ≡ once_of goal) }
{
    let name = Name::new(alloc, "once")?;
    let mut args = Vec::new(alloc);
    args.push(goal)?;
    match Term::compound(alloc, name, args) {
        Ok(term) => Ok(term),
        Err(_) => Err(AllocError),
    }
}
