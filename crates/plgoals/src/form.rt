//! What a goal is (ISO/IEC 13211-1 7.8), by what is called by its number.

ghost use Rattle.std.specs.Prelude.{◌≡◌, ℕ, ◌<◌, [], ◌∷◌, List, length, map, true, false, IfSome, IfNone};
ghost use Rattle.plsearch.specs.Forms.{form as form_by_term, construct as construct_of, either as either_of};
ghost use Rattle.plcells.specs.declared.cell.Cell.{Cell as OfCell};
ghost use Rattle.plcells.specs.Store.{Store, value, IsValue, AreValues};
ghost use Rattle.plcode.specs.Bodies.{IsNoArrow};
ghost use Rattle.plnames.specs.declared.kind.Control.TheVariants as controls;
ghost use Rattle.plcode.specs.declared.callee.Callee.TheVariants as callees;
ghost use Rattle.plcode.specs.Callees.{callee_at};
ghost use Rattle.plgoals.specs.declared.form.Form.TheVariants as forms;
ghost use Rattle.plgoals.specs.declared.form.Procedure.{Procedure as OfProcedure};
ghost use Rattle.plgoals.specs.Callables.{called, procedure_of, HasKinds, IsCallable};
ghost use Rattle.plterm.specs.declared.indicator.Indicator.{Indicator as OfIndicator};
ghost use Rattle.plgoals.specs.Forms.{callee_of, shown_form, IsArrow, IsInside};

use plcells::cell::Cell;
use plcells::heap::Heap;
use plcells::id::CellId;
use plcode::callee::{Callee, Number};
use plcode::program::ProgramCode;
use plnames::kind::{BuiltIn, Control, Side};
use pltx::level::Isolation;

/// A procedure that is no control construct and no built-in predicate.
#[derive(Clone, Copy, Debug, PartialEq, Eq)]
pub enum Procedure {
    /// One of the program's text, by its place.
    Static(u32),
    /// One that is not in the text. It may be dynamic.
    Unknown,
}

/// A goal, by the values of its arguments.
#[derive(Clone, Copy)]
pub enum Form {
    True,
    /// fail/0 and false/0.
    False,
    /// A conjunction.
    Both(Cell, Cell),
    /// A disjunction.
    Either(Cell, Cell),
    /// A condition and what follows it; nothing else.
    IfThen(Cell, Cell),
    /// A condition, what follows it, and what is done where it fails.
    IfThenElse(Cell, Cell, Cell),
    /// Not provable.
    Not(Cell),
    Once(Cell),
    /// catch/3: a goal, a catcher and a recovery.
    Catching(Cell, Cell, Cell),
    /// findall/3: a template, a goal, and what is to be the list.
    FindAll(Cell, Cell, Cell),
    /// transaction/1 or snapshot/1 of a goal.
    Within(Isolation, Cell),
    /// throw/1 of a ball.
    Throwing(Cell),
    /// call/N: the goal is the first of the arguments, and its further arguments stand behind it.
    CallWith,
    Cut,
    /// halt/0
    Halt,
    /// halt/1 of a number.
    HaltWith(Cell),
    /// asserta/1, assertz/1 or assert/1 of a term.
    Adding(Side, Cell),
    /// clause/2 of a head and a body.
    Retrieving(Cell, Cell),
    /// retract/1 of a term.
    Retracting(Cell),
    /// retractall/1 of a head.
    RetractingAll(Cell),
    /// dynamic/1 of what names procedures.
    Declaring(Cell),
    /// A built-in predicate, of all the arguments.
    BuiltIn(BuiltIn),
    /// A call of a procedure, of all the arguments.
    Call(Procedure),
    /// A control construct of other arguments than it takes.
    NoGoal,
}

/// What is called by a number.
#[inline(always)]
fn callee_by(code: &ProgramCode, number: Number) -> Callee
    ensures { result ≡ callee_at code.now.callees number }
{
    match number {
        Number::Atom(atom) => code.callee_of_atom(atom),
        Number::Functor(functor) => code.callee_of_functor(functor),
    }
}

/// The place of the procedure of the program's text that is called by a number, if it is one.
#[inline(always)]
pub fn static_of(code: &ProgramCode, number: Number) -> Option<u32>
    ensures { IfSome result (λ place. callee_at code.now.callees number ≡ callees.Static place) }
{
    match callee_by(code, number) {
        Callee::Static(place) => Some(place),
        Callee::Control(_) | Callee::BuiltIn(_) | Callee::Unknown => None,
    }
}

/// What a goal of this number and these arguments is.
#[inline(always)]
pub fn form_of(heap: &Heap, code: &ProgramCode, number: Number, args: &[Cell]) -> Form
    requires args { AreValues heap.now args.now }
    requires callable { IsCallable heap.now.names number (length args.now) }
    requires kinds { HasKinds heap.now.names code.now.callees }
    ensures is { shown_form heap.now (procedure_of heap.now.names number (length args.now)) args.now result ≡ form_by_term (called heap.now.names number (map (value heap.now) args.now)) }
    ensures inside { IsInside heap.now args.now result }
    ensures procedure { (p : OfProcedure) → result ≡ forms.Call p → callee_at code.now.callees number ≡ callee_of p }
{
    match callee_by(code, number) {
        Callee::Control(control) => construct(heap, code, control, args),
        Callee::BuiltIn(b) => Form::BuiltIn(b),
        Callee::Static(place) => Form::Call(Procedure::Static(place)),
        Callee::Unknown => Form::Call(Procedure::Unknown),
    }
}

/// A control construct with its arguments.
#[inline(never)]
fn construct(heap: &Heap, code: &ProgramCode, control: Control, args: &[Cell]) -> Form
    requires args { AreValues heap.now args.now }
    requires kinds { HasKinds heap.now.names code.now.callees }
    ensures is { (p : OfIndicator) → shown_form heap.now p args.now result ≡ construct_of control (map (value heap.now) args.now) }
    ensures inside { IsInside heap.now args.now result }
    ensures no_call { (p : OfProcedure) → result ≡ forms.Call p → ⊥ }
{
    match args {
        [] => nullary(control),
        [a] => unary(control, *a),
        [a, b] => binary(heap, code, control, *a, *b),
        [a, b, c] => ternary(control, *a, *b, *c),
        [_, _, _, _, ..] => many(control),
    }
}

fn nullary(control: Control) -> Form
    ensures is { (h : Store) (p : OfIndicator) → shown_form h p [] result ≡ construct_of control [] }
    ensures inside { (h : Store) → IsInside h [] result }
    ensures no_call { (p : OfProcedure) → result ≡ forms.Call p → ⊥ }
{
    match control {
        Control::True => Form::True,
        Control::Fail => Form::False,
        Control::Cut => Form::Cut,
        Control::Halt => Form::Halt,
        Control::And
        | Control::Or
        | Control::IfThen
        | Control::Not
        | Control::Once
        | Control::Call
        | Control::Catch
        | Control::FindAll
        | Control::Transaction
        | Control::Snapshot
        | Control::Throw
        | Control::Add(_)
        | Control::Retrieve
        | Control::Retract
        | Control::RetractAll
        | Control::Declare => Form::NoGoal,
    }
}

fn unary(control: Control, a: Cell) -> Form
    ensures is { (h : Store) (p : OfIndicator) → shown_form h p (a ∷ []) result ≡ construct_of control (value h a ∷ []) }
    ensures inside { (h : Store) → IsValue h a → IsInside h (a ∷ []) result }
    ensures no_call { (p : OfProcedure) → result ≡ forms.Call p → ⊥ }
{
    match control {
        Control::Not => Form::Not(a),
        Control::Once => Form::Once(a),
        Control::Call => Form::CallWith,
        Control::Transaction => Form::Within(Isolation::Transaction, a),
        Control::Snapshot => Form::Within(Isolation::Snapshot, a),
        Control::Throw => Form::Throwing(a),
        Control::Add(side) => Form::Adding(side, a),
        Control::Retract => Form::Retracting(a),
        Control::RetractAll => Form::RetractingAll(a),
        Control::Declare => Form::Declaring(a),
        Control::Halt => Form::HaltWith(a),
        Control::True
        | Control::Fail
        | Control::Cut
        | Control::And
        | Control::Or
        | Control::IfThen
        | Control::Catch
        | Control::FindAll
        | Control::Retrieve => Form::NoGoal,
    }
}

fn binary(heap: &Heap, code: &ProgramCode, control: Control, a: Cell, b: Cell) -> Form
    requires first { IsValue heap.now a }
    requires second { IsValue heap.now b }
    requires kinds { HasKinds heap.now.names code.now.callees }
    ensures is { (p : OfIndicator) → shown_form heap.now p (a ∷ b ∷ []) result ≡ construct_of control (value heap.now a ∷ value heap.now b ∷ []) }
    ensures inside { IsInside heap.now (a ∷ b ∷ []) result }
    ensures no_call { (p : OfProcedure) → result ≡ forms.Call p → ⊥ }
{
    match control {
        Control::And => Form::Both(a, b),
        Control::Or => either(heap, code, a, b),
        Control::IfThen => Form::IfThen(a, b),
        Control::Call => Form::CallWith,
        Control::Retrieve => Form::Retrieving(a, b),
        Control::True
        | Control::Fail
        | Control::Cut
        | Control::Not
        | Control::Once
        | Control::Catch
        | Control::FindAll
        | Control::Transaction
        | Control::Snapshot
        | Control::Throw
        | Control::Add(_)
        | Control::Retract
        | Control::RetractAll
        | Control::Declare
        | Control::Halt => Form::NoGoal,
    }
}

fn ternary(control: Control, a: Cell, b: Cell, c: Cell) -> Form
    ensures is { (h : Store) (p : OfIndicator) → shown_form h p (a ∷ b ∷ c ∷ []) result ≡ construct_of control (value h a ∷ value h b ∷ value h c ∷ []) }
    ensures inside { (h : Store) → IsValue h a → IsValue h b → IsValue h c → IsInside h (a ∷ b ∷ c ∷ []) result }
    ensures no_call { (p : OfProcedure) → result ≡ forms.Call p → ⊥ }
{
    match control {
        Control::Catch => Form::Catching(a, b, c),
        Control::FindAll => Form::FindAll(a, b, c),
        Control::Call => Form::CallWith,
        Control::True
        | Control::Fail
        | Control::Cut
        | Control::And
        | Control::Or
        | Control::IfThen
        | Control::Not
        | Control::Once
        | Control::Transaction
        | Control::Snapshot
        | Control::Throw
        | Control::Add(_)
        | Control::Retrieve
        | Control::Retract
        | Control::RetractAll
        | Control::Declare
        | Control::Halt => Form::NoGoal,
    }
}

/// A construct of four arguments or more.
fn many(control: Control) -> Form
    ensures is { (h : Store) (p : OfIndicator) (args : List OfCell) → 3 < length args → shown_form h p args result ≡ construct_of control (map (value h) args) }
    ensures inside { (h : Store) (args : List OfCell) → 3 < length args → IsInside h args result }
    ensures no_call { (p : OfProcedure) → result ≡ forms.Call p → ⊥ }
{
    if let Control::Call = control {
        return Form::CallWith;
    }
    Form::NoGoal
}

/// `;`/2: with `->`/2 on its left side the two are one construct.
fn either(heap: &Heap, code: &ProgramCode, a: Cell, b: Cell) -> Form
    requires first { IsValue heap.now a }
    requires second { IsValue heap.now b }
    requires kinds { HasKinds heap.now.names code.now.callees }
    ensures is { (p : OfIndicator) → shown_form heap.now p (a ∷ b ∷ []) result ≡ either_of (value heap.now a) (value heap.now b) }
    ensures inside { IsInside heap.now (a ∷ b ∷ []) result }
    ensures no_call { (p : OfProcedure) → result ≡ forms.Call p → ⊥ }
{
    match arrow(heap, code, &a) {
        Some(p) => {
            let condition = heap.argument(p.arg(1));
            Form::IfThenElse(condition, heap.argument(p.arg(2)), b)
        }
        None => Form::Either(a, b),
    }
}

/// Whether what is called is `->`/2.
fn is_arrow(callee: Callee) -> bool
    ensures yes { result ≡ true → callee ≡ callees.Control controls.IfThen }
    ensures no { result ≡ false → callee ≡ callees.Control controls.IfThen → ⊥ }
{
    match callee {
        Callee::Control(Control::IfThen) => true,
        Callee::Control(_) | Callee::BuiltIn(_) | Callee::Static(_) | Callee::Unknown => false,
    }
}

/// The block of a value that is a compound of `->`/2.
fn arrow(heap: &Heap, code: &ProgramCode, v: &Cell) -> Option<CellId>
    requires value { IsValue heap.now v.now }
    requires kinds { HasKinds heap.now.names code.now.callees }
    ensures some { IfSome result (IsArrow heap.now v.now) }
    ensures none { IfNone result (IsNoArrow (value heap.now v.now)) }
{
    let Cell::Str(p) = heap.root(*v) else {
        return None;
    };
    let (f, _) = heap.block(p);
    if is_arrow(code.callee_of_functor(f)) {
        return Some(p);
    }
    None
}
