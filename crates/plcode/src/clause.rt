//! Compiled clauses.
ghost use Rattle.std.specs.Prelude.{◌≡◌, length, IfOk, OnOk};
ghost use Rattle.plclause.specs.Soundness.{IsCallable};
ghost use Rattle.plsearch.specs.Forms.{arguments};
ghost use Rattle.plsearch.specs.Moves.{is_true as is_true_of};
ghost use Rattle.plcode.specs.Steps.{text, Args, Extended};
ghost use Rattle.plcode.specs.Bodies.{IsCode};
ghost use Rattle.plcode.specs.Clauses.{IsCodeOf, IsProper};

use crate::body::compile_body;
use crate::draft::Draft;
use crate::key::{Key, head_key};
use crate::lay::lay;
use plclause::clause::Clause;
use plnames::table::NameTable;
use plterm::walk::{Shape, TermRef};
use std::alloc::{AllocError, Global};

/// A compiled clause: where the row of its head's arguments begins and how many they are, the key of the first of them, where the
/// sequence of its body begins, how many variables it has, and whether its body is the atom true, which is no goal.
#[derive(Clone, Copy)]
pub struct ClauseCode {
    pub head: u32,
    pub arity: u16,
    pub key: Key,
    pub body: u32,
    pub variables: u32,
    pub is_fact: bool,
}

/// Lays the arguments of a head, an atom or a compound, down in a row; says where it begins.
fn lay_arguments(alloc: Global, code: &mut Draft, head: &TermRef<'_>) -> Result<u32, AllocError>
    requires code { IsCode (text code.old) }
    requires callable { IsCallable head.now }
    ensures extended { OnOk result (Extended (text code.old) (text code.new)) }
    ensures code { OnOk result (IsCode (text code.new)) }
    ensures row { IfOk result (λ at. Args (text code.new) at (arguments head.now)) }
    ensures proper { OnOk result (IsProper head.now) }
{
    match head.shape() {
        Shape::Compound(_, mut args) => {
            let count = args.len() as u16;
            let at = lay(alloc, &mut code.nodes, &mut code.names, &mut args, count)?;
            Ok(at)
        }
        Shape::Atom(_) => Ok(0),
        Shape::Var(_) | Shape::Int(_) => unreachable!(),
    }
}

/// How many arguments a head has.
fn arity_of(head: &TermRef<'_>) -> u16
    ensures { result ≡ length (arguments head.now) }
{
    match head.shape() {
        Shape::Compound(_, args) => args.len() as u16,
        Shape::Var(_) | Shape::Int(_) | Shape::Atom(_) => 0,
    }
}

/// Whether a body is the atom true.
fn is_true(body: &TermRef<'_>) -> bool
    ensures { result ≡ is_true_of body.now }
{
    match body.shape() {
        Shape::Atom(name) => name.as_str() == "true",
        Shape::Var(_) | Shape::Int(_) | Shape::Compound(_, _) => false,
    }
}

/// Compiles a clause, in time linear in its nodes. After an `Err` what was put stays, and nothing leads to it.
pub fn compile_clause(
    alloc: Global,
    code: &mut Draft,
    kinds: &NameTable,
    clause: &Clause,
) -> Result<ClauseCode, AllocError>
    requires code { IsCode (text code.old) }
    ensures extended { OnOk result (Extended (text code.old) (text code.new)) }
    ensures code { OnOk result (IsCode (text code.new)) }
    ensures clause { IfOk result (λ c. IsCodeOf (text code.new) c clause.now) }
{
    let Ok(variables) = u32::try_from(clause.variables()) else {
        return Err(AllocError);
    };
    let given = clause.head().root();
    let key = head_key(code, &given)?;
    let head = lay_arguments(alloc, code, &given)?;
    let arity = arity_of(&given);
    let root = clause.body().root();
    let body = compile_body(alloc, code, kinds, &root)?;
    let is_fact = is_true(&root);
    Ok(ClauseCode {
        head,
        arity,
        key,
        body,
        variables,
        is_fact,
    })
}
