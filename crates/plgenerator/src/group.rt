//! The groups of terms that the arguments of a call are unified with, one at a time.
ghost use Rattle.std.specs.Prelude.{◌≡◌, ℕ, ◌+◌, ◌<◌, ◌≤◌, [], length, map, IfOk, IfSome, IfNone};
ghost use Rattle.plcells.specs.Store.{Store, value, IsValue, AreValues};
ghost use Rattle.plcells.specs.Equations.{IsEquation};
ghost use Rattle.plbuiltin.specs.Parts.{variables_from};
ghost use Rattle.plbuiltin.specs.Solution.{against};
ghost use Rattle.plgenerator.specs.Fitting.{fitting};
ghost use Rattle.plgenerator.specs.Answers.{solution_of, left, Finds};

use crate::equation::together;
use crate::generator::{Found, Sides};
use crate::turn::{Groups, Remaining};
use plcells::cell::Cell;
use plcells::equation::Equation;
use plterm::term::Term;
use std::alloc::{AllocError, Global};

/// So many variables, with the numbers from 1 on.
fn variables(alloc: Global, count: usize) -> Result<Vec<Term>, AllocError>
    ensures { IfOk result (λ ts. ts.items ≡ variables_from 1 count) }
{
    let mut terms = Vec::new(alloc);
    for i in 0..count {
        terms.push(Term::var(alloc, i as u64 + 1)?)?;
    }
    Ok(terms)
}

/// The answer that a group is.
fn group_equation(alloc: Global, args: &[Cell], group: Cell) -> Result<Equation, AllocError>
    requires some { 0 < length args.now }
    requires few { length args.now ≤ 1024 }
    ensures is { (h : Store) (n : ℕ) → IfOk result (λ e. solution_of h n e ≡ against (map (value h) args.now) (value h group)) }
    ensures there { (h : Store) → AreValues h args.now → IsValue h group → IfOk result (IsEquation h) }
{
    let left = together(alloc, variables(alloc, args.len())?)?;
    let right = Term::var(alloc, 0)?;
    let mut values = Vec::with_capacity(alloc, args.len() + 1)?;
    values.push(group)?;
    values.extend_from_slice(args)?;
    Ok(Equation {
        left,
        right,
        values,
        new: 0,
    })
}

/// The next answer of a call whose arguments are unified with one group of terms after another.
pub(crate) fn next_group(
    alloc: Global,
    values: &[Cell],
    groups: Groups,
) -> Result<Option<Found>, AllocError>
    requires some { 0 < groups.arguments }
    requires few { groups.arguments ≤ 1023 }
    requires within { groups.arguments + groups.passed ≤ length values.now }
    ensures some { (h : Store) → AreValues h values.now → IfOk result (λ o. IfSome o (Finds h values.now (Remaining.Groups groups))) }
    ensures none { (h : Store) → IfOk result (λ o. IfNone o (fitting (left h values.now (Remaining.Groups groups)) ≡ [])) }
{
    let arguments = groups.arguments as usize;
    let place = arguments + groups.passed as usize;
    if place >= values.len() {
        return Ok(None);
    }
    let Some(passed) = groups.passed.checked_add(1) else {
        return Err(AllocError);
    };
    let equation = group_equation(alloc, &values[..arguments], values[place])?;
    let rest = Some(Remaining::Groups(Groups {
        arguments: groups.arguments,
        passed,
    }));
    let sides = Sides::Terms(equation);
    Ok(Some(Found { sides, rest }))
}
