//! Answers that are equations.
ghost use Rattle.std.specs.Prelude.{◌≡◌, ℕ, suc, ◌<◌, ◌≤◌, [], ◌∷◌, length, map, IfOk};
ghost use Rattle.plterm.specs.Tree.{var};
ghost use Rattle.plterm.specs.Variables.{AllBelow};
ghost use Rattle.plsubst.specs.Subst.{bind};
ghost use Rattle.plcells.specs.Equations.{IsEquation, filled, left_of, right_of};
ghost use Rattle.plcells.specs.Store.{Store, value, IsValue, AreValues};
ghost use Rattle.plprogram.specs.declared.settings.Settings.{Settings};
ghost use Rattle.plread.specs.Texts.{listed};
ghost use Rattle.plbuiltin.specs.Solution.{Gives, unifies, against};
ghost use Rattle.plbuiltin.specs.Parts.{both};
ghost use Rattle.planswers.specs.Answers.{IsThere, meant};
ghost use Rattle.planswers.specs.Building.{solved_by, width};

use crate::answer::Answer;
use crate::build::{compound_of_variables, list_of_variables};
use plcells::cell::Cell;
use plcells::equation::Equation;
use plgenerator::equation::together;
use plterm::name::Name;
use plterm::term::Term;
use std::alloc::{AllocError, Global};

/// The term of a value is unified with a term, whose variable 0 stands for that value, the next for the other values, and the rest are new.
pub fn solves(
    alloc: Global,
    v: Cell,
    right: Term,
    others: &[Cell],
    new: u32,
) -> Result<Answer, AllocError>
    requires below { AllBelow (width others.now new) right }
    ensures is { (h : Store) → IfOk result (λ answer. (s : Settings) (n : ℕ) → meant h s n answer ≡ solved_by h s n v others.now right new) }
    ensures there { (h : Store) → IsValue h v → AreValues h others.now → IfOk result (IsThere h) }
{
    let equation = equation_of(alloc, v, right, others, new)?;
    Ok(Answer::Solves(equation))
}

/// The term of a value beside a term, whose variable 0 stands for that value, the next for the other values, and the rest are new.
fn equation_of(
    alloc: Global,
    v: Cell,
    right: Term,
    others: &[Cell],
    new: u32,
) -> Result<Equation, AllocError>
    requires below { AllBelow (width others.now new) right }
    ensures left { (h : Store) (n : ℕ) → IfOk result (λ e. left_of h n e ≡ value h v) }
    ensures right { (h : Store) (n : ℕ) → IfOk result (λ e. right_of h n e ≡ bind (filled h (v ∷ others.now) n) right) }
    ensures new { IfOk result (λ e. e.new ≡ new) }
    ensures there { (h : Store) → IsValue h v → AreValues h others.now → IfOk result (IsEquation h) }
{
    let left = Term::var(alloc, 0)?;
    let mut values = Vec::with_capacity(alloc, others.len() + 1)?;
    values.push(v)?;
    values.extend_from_slice(others)?;
    Ok(Equation {
        left,
        right,
        values,
        new,
    })
}

/// The term of a value beside the list of the terms of others.
pub fn list_equation(alloc: Global, v: Cell, items: &[Cell]) -> Result<Equation, AllocError>
    ensures left { (h : Store) (n : ℕ) → IfOk result (λ e. left_of h n e ≡ value h v) }
    ensures right { (h : Store) (n : ℕ) → IfOk result (λ e. right_of h n e ≡ listed (map (value h) items.now)) }
    ensures new { IfOk result (λ e. e.new ≡ 0) }
    ensures there { (h : Store) → IsValue h v → AreValues h items.now → IfOk result (IsEquation h) }
{
    let right = list_of_variables(alloc, 1, items.len() as u64)?;
    equation_of(alloc, v, right, items, 0)
}

/// The term of a value is unified with a term without variables.
pub fn is_term(alloc: Global, v: Cell, term: Term) -> Result<Answer, AllocError>
    requires { AllBelow 0 term }
    ensures is { (h : Store) → IfOk result (λ answer. (s : Settings) (n : ℕ) → meant h s n answer ≡ unifies (value h v) term s) }
    ensures there { (h : Store) → IsValue h v → IfOk result (IsThere h) }
{
    solves(alloc, v, term, &[], 0)
}

/// Two terms without variables are unified.
pub fn are_terms(alloc: Global, left: Term, right: Term) -> Answer
    requires left { AllBelow 0 left }
    requires right { AllBelow 0 right }
    ensures is { (h : Store) (s : Settings) (n : ℕ) → meant h s n result ≡ unifies left right s }
    ensures there { (h : Store) → IsThere h result }
{
    Answer::Solves(Equation {
        left,
        right,
        values: Vec::new(alloc),
        new: 0,
    })
}

/// The terms of some values are unified, together, with a term without variables.
pub fn are_together(alloc: Global, values: Vec<Cell>, right: Term) -> Result<Answer, AllocError>
    requires some { 0 < length values.items }
    requires few { length values.items ≤ 1024 }
    requires right { AllBelow 0 right }
    ensures is { (h : Store) → IfOk result (λ answer. (s : Settings) (n : ℕ) → meant h s n answer ≡ Gives (against (map (value h) values.items) right ∷ []) [] s) }
    ensures there { (h : Store) → AreValues h values.items → IfOk result (IsThere h) }
{
    let name = Name::new(alloc, "-")?;
    let left = compound_of_variables(alloc, name, 0, values.len() as u16)?;
    Ok(Answer::Solves(Equation {
        left,
        right,
        values,
        new: 0,
    }))
}

/// The term of a value is unified with the list of the terms of others.
pub fn is_list_of(alloc: Global, v: Cell, items: &[Cell]) -> Result<Answer, AllocError>
    ensures is { (h : Store) → IfOk result (λ answer. (s : Settings) (n : ℕ) → meant h s n answer ≡ unifies (value h v) (listed (map (value h) items.now)) s) }
    ensures there { (h : Store) → IsValue h v → AreValues h items.now → IfOk result (IsThere h) }
{
    let equation = list_equation(alloc, v, items)?;
    Ok(Answer::Solves(equation))
}

/// The terms of two values are unified with those of two others.
pub fn are_values(
    alloc: Global,
    left: (Cell, Cell),
    right: (Cell, Cell),
) -> Result<Answer, AllocError>
    ensures is { (h : Store) → IfOk result (λ answer. (s : Settings) (n : ℕ) → meant h s n answer ≡ unifies (both (value h left.0) (value h left.1)) (both (value h right.0) (value h right.1)) s) }
    ensures there { (h : Store) → IsValue h left.0 → IsValue h left.1 → IsValue h right.0 → IsValue h right.1 → IfOk result (IsThere h) }
{
    let mut values = Vec::new(alloc);
    values.push(left.0)?;
    values.push(left.1)?;
    values.push(right.0)?;
    values.push(right.1)?;
    Ok(Answer::Solves(Equation {
        left: pair(alloc, 0)?,
        right: pair(alloc, 2)?,
        values,
        new: 0,
    }))
}

/// Two variables at once, with the numbers from one on.
fn pair(alloc: Global, from: u64) -> Result<Term, AllocError>
    requires { from < 3 }
    ensures { IfOk result (λ t. t ≡ both (var from) (var (suc from))) }
{
    let a = Term::var(alloc, from)?;
    let b = Term::var(alloc, from + 1)?;
    together(alloc, vec![in alloc; a, b]?)
}
