//! Bodies as sequences of steps, without recursion: a body's goals are met in prefix order, and their steps are made from the last to the first.
ghost use Rattle.std.specs.Prelude.{◌≡◌, ◌≤◌, [], ◌∷◌, ◌+◌, ◌++◌, List, codes, length, take, drop, reverse, IfOk, OnOk, Some};
ghost use Rattle.plterm.specs.Tree.{Tree};
ghost use Rattle.plcode.specs.declared.op.Op.TheVariants as ops;
ghost use Rattle.plcode.specs.Steps.{text, Extended};
ghost use Rattle.plcode.specs.Bodies.{arrow_of, charged, AreForTwo, merged, step, Begins, Branches, HasTwo, Holds, IsCode, IsNext, Leads, Made, Ready, Splits};

use crate::draft::Draft;
use crate::goal::piece_of;
use crate::op::{Op, Step};
use plnames::table::NameTable;
use plterm::walk::TermRef;
use std::alloc::{AllocError, Global};

/// What a goal comes to: a control construct whose two goals follow, or a goal alone, by the node where it was laid.
#[derive(Clone, Copy)]
pub enum Piece {
    And,
    Or,
    IfThen,
    Single(u32),
}

/// Where the condition of an `->` begins, and what follows it.
#[derive(Clone, Copy)]
pub struct Arrow {
    pub condition: u32,
    pub then: u32,
}

/// So many of the steps that are made. They are the one step of an `->` where that may still get an else.
#[derive(Clone, Copy)]
pub struct Part {
    pub len: usize,
    pub arrow: Option<Arrow>,
}

/// Ends a sequence behind the steps of the code, and moves the topmost steps there, so many as are asked for, as they stand; says where
/// the sequence begins.
fn put_sequence(code: &mut Vec<Step>, made: &mut Vec<Step>, count: usize) -> Result<u32, AllocError>
    requires { count ≤ length made.old.items }
    ensures place { IfOk result (λ at. at ≡ length code.old.items + count) }
    ensures code { OnOk result (code.new.items ≡ code.old.items ++ (step ops.Proceed 0 ++ reverse (take count (reverse made.old.items)))) }
    ensures made { OnOk result (reverse made.new.items ≡ drop count (reverse made.old.items)) }
{
    let from = made.len() - count;
    code.push(Step {
        op: Op::Proceed,
        conjunctions: 0,
        goal: 0,
    })?;
    for place in from..made.len() {
        code.push(made[place])?;
    }
    made.truncate(from);
    let Ok(at) = u32::try_from(code.len() - 1) else {
        return Err(AllocError);
    };
    Ok(at)
}

/// Makes a part of one step.
fn push_part(
    parts: &mut Vec<Part>,
    made: &mut Vec<Step>,
    op: Op,
    goal: u32,
    arrow: Option<Arrow>,
) -> Result<(), AllocError>
    ensures parts { OnOk result (reverse parts.new.items ≡ record { len = 1; arrow = arrow } ∷ reverse parts.old.items) }
    ensures made { OnOk result (reverse made.new.items ≡ record { op = op; conjunctions = 0; goal = goal } ∷ reverse made.old.items) }
{
    made.push(Step {
        op,
        conjunctions: 0,
        goal,
    })?;
    parts.push(Part { len: 1, arrow })?;
    Ok(())
}

/// Takes the two topmost parts off, and makes a sequence of each; says where they begin.
fn put_branches(
    code: &mut Draft,
    parts: &mut Vec<Part>,
    made: &mut Vec<Step>,
) -> Result<(u32, u32), AllocError>
    requires two { HasTwo (reverse parts.old.items) (length made.old.items) }
    requires made { AreForTwo (text code.old) (reverse parts.old.items) (reverse made.old.items) }
    requires code { IsCode (text code.old) }
    ensures extended { OnOk result (Extended (text code.old) (text code.new)) }
    ensures code { OnOk result (IsCode (text code.new)) }
    ensures branches { IfOk result (λ at. (a b : Tree) → (gs : List Tree) → Made (text code.old) (reverse parts.old.items) (reverse made.old.items) (a ∷ b ∷ gs) → Branches a b gs (text code.new) at.0 at.1 (reverse parts.new.items) (reverse made.new.items)) }
{
    let Some(left) = parts.pop() else {
        unreachable!()
    };
    let Some(right) = parts.pop() else {
        unreachable!()
    };
    let left = put_sequence(&mut code.steps, made, left.len)?;
    let right = put_sequence(&mut code.steps, made, right.len)?;
    Ok((left, right))
}

/// Makes one part of the two topmost, for a conjunction, which is counted on its first step.
fn join(parts: &mut Vec<Part>, made: &mut Vec<Step>) -> Result<(), AllocError>
    requires { HasTwo (reverse parts.old.items) (length made.old.items) }
    ensures parts { OnOk result (reverse parts.new.items ≡ merged (reverse parts.old.items)) }
    ensures made { OnOk result (reverse made.new.items ≡ charged 1 (reverse made.old.items)) }
{
    let Some(first) = parts.pop() else {
        unreachable!()
    };
    let Some(second) = parts.pop() else {
        unreachable!()
    };
    let Some(step) = made.pop() else {
        unreachable!()
    };
    let Some(conjunctions) = step.conjunctions.checked_add(1) else {
        return Err(AllocError);
    };
    made.push(Step {
        op: step.op,
        conjunctions,
        goal: step.goal,
    })?;
    parts.push(Part {
        len: first.len + second.len,
        arrow: None,
    })?;
    Ok(())
}

/// The `->` that is the topmost part, if it is one.
fn top_arrow(parts: &[Part]) -> Option<Arrow>
    ensures { result ≡ arrow_of (reverse parts.now) }
{
    match parts {
        [.., part] => part.arrow,
        [] => None,
    }
}

/// Gives the `->` of the topmost part the sequence of the next one as its else.
fn put_else(
    code: &mut Draft,
    parts: &mut Vec<Part>,
    made: &mut Vec<Step>,
    arrow: Arrow,
) -> Result<(), AllocError>
    requires two { HasTwo (reverse parts.old.items) (length made.old.items) }
    requires made { AreForTwo (text code.old) (reverse parts.old.items) (reverse made.old.items) }
    requires top { arrow_of (reverse parts.old.items) ≡ Some arrow }
    requires code { IsCode (text code.old) }
    ensures extended { OnOk result (Extended (text code.old) (text code.new)) }
    ensures code { OnOk result (IsCode (text code.new)) }
    ensures goal { OnOk result ((g : Tree) → (rest gs : List Tree) → Holds (codes ";") g rest gs → Made (text code.old) (reverse parts.old.items) (reverse made.old.items) gs → Made (text code.new) (reverse parts.new.items) (reverse made.new.items) (g ∷ rest)) }
{
    let Some(_) = parts.pop() else { unreachable!() };
    let Some(right) = parts.pop() else {
        unreachable!()
    };
    let Some(_) = made.pop() else { unreachable!() };
    let otherwise = put_sequence(&mut code.steps, made, right.len)?;
    let op = Op::IfThenElse(arrow.condition, arrow.then, otherwise);
    push_part(parts, made, op, 0, None)?;
    Ok(())
}

/// Makes one part of the two topmost, for `;`.
fn put_either(
    code: &mut Draft,
    parts: &mut Vec<Part>,
    made: &mut Vec<Step>,
) -> Result<(), AllocError>
    requires two { HasTwo (reverse parts.old.items) (length made.old.items) }
    requires made { AreForTwo (text code.old) (reverse parts.old.items) (reverse made.old.items) }
    requires code { IsCode (text code.old) }
    ensures extended { OnOk result (Extended (text code.old) (text code.new)) }
    ensures code { OnOk result (IsCode (text code.new)) }
    ensures goal { OnOk result ((g : Tree) → (rest gs : List Tree) → Holds (codes ";") g rest gs → Made (text code.old) (reverse parts.old.items) (reverse made.old.items) gs → Made (text code.new) (reverse parts.new.items) (reverse made.new.items) (g ∷ rest)) }
{
    match top_arrow(parts) {
        Some(arrow) => put_else(code, parts, made, arrow),
        None => {
            let (left, right) = put_branches(code, parts, made)?;
            push_part(parts, made, Op::Or(left, right), 0, None)?;
            Ok(())
        }
    }
}

/// Makes one part of the two topmost, for an `->` to which `;` may give an else.
fn put_arrow(
    code: &mut Draft,
    parts: &mut Vec<Part>,
    made: &mut Vec<Step>,
) -> Result<(), AllocError>
    requires two { HasTwo (reverse parts.old.items) (length made.old.items) }
    requires made { AreForTwo (text code.old) (reverse parts.old.items) (reverse made.old.items) }
    requires code { IsCode (text code.old) }
    ensures extended { OnOk result (Extended (text code.old) (text code.new)) }
    ensures code { OnOk result (IsCode (text code.new)) }
    ensures goal { OnOk result ((g : Tree) → (rest gs : List Tree) → Holds (codes "->") g rest gs → Made (text code.old) (reverse parts.old.items) (reverse made.old.items) gs → Made (text code.new) (reverse parts.new.items) (reverse made.new.items) (g ∷ rest)) }
{
    let (condition, then) = put_branches(code, parts, made)?;
    let arrow = Arrow { condition, then };
    push_part(parts, made, Op::IfThen(condition, then), 0, Some(arrow))?;
    Ok(())
}

/// Makes the part of the goal that a piece is for.
fn put_piece(
    code: &mut Draft,
    parts: &mut Vec<Part>,
    made: &mut Vec<Step>,
    piece: Piece,
) -> Result<(), AllocError>
    requires ready { Ready piece (reverse parts.old.items) (length made.old.items) }
    requires next { IsNext (text code.old) piece (reverse parts.old.items) (reverse made.old.items) }
    requires code { IsCode (text code.old) }
    ensures extended { OnOk result (Extended (text code.old) (text code.new)) }
    ensures code { OnOk result (IsCode (text code.new)) }
    ensures goal { OnOk result ((gs hs : List Tree) → Splits (text code.old) piece gs hs → Made (text code.old) (reverse parts.old.items) (reverse made.old.items) hs → Made (text code.new) (reverse parts.new.items) (reverse made.new.items) gs) }
{
    match piece {
        Piece::And => {
            join(parts, made)?;
            Ok(())
        }
        Piece::Or => put_either(code, parts, made),
        Piece::IfThen => put_arrow(code, parts, made),
        Piece::Single(node) => {
            push_part(parts, made, Op::Goal, node, None)?;
            Ok(())
        }
    }
}

/// Makes the sequence of a body of its pieces; says where it begins.
fn put_body(alloc: Global, code: &mut Draft, pieces: Vec<Piece>) -> Result<u32, AllocError>
    requires code { IsCode (text code.old) }
    requires spelled { (g : Tree) × Leads (text code.old) pieces.items (g ∷ []) [] }
    ensures extended { OnOk result (Extended (text code.old) (text code.new)) }
    ensures code { OnOk result (IsCode (text code.new)) }
    ensures begins { IfOk result (λ at. (g : Tree) → Leads (text code.old) pieces.items (g ∷ []) [] → Begins (text code.new) at g) }
{
    let mut pieces = pieces;
    let mut parts = Vec::new(alloc);
    let mut made = Vec::new(alloc);
    'pieces: while let Some(piece) = pieces.pop() {
        put_piece(code, &mut parts, &mut made, piece)?;
    }
    let Some(whole) = parts.pop() else {
        unreachable!()
    };
    let at = put_sequence(&mut code.steps, &mut made, whole.len)?;
    Ok(at)
}

/// The pieces of a body, in prefix order.
fn pieces_of(
    alloc: Global,
    code: &mut Draft,
    kinds: &NameTable,
    body: &TermRef<'_>,
) -> Result<Vec<Piece>, AllocError>
    requires code { IsCode (text code.old) }
    ensures extended { OnOk result (Extended (text code.old) (text code.new)) }
    ensures code { OnOk result (IsCode (text code.new)) }
    ensures leads { IfOk result (λ pieces. Leads (text code.new) pieces.items (body.now ∷ []) []) }
{
    let mut pieces = Vec::new(alloc);
    let mut goals = body.alone();
    'goals: while let Some(node) = goals.enter() {
        let piece = piece_of(alloc, code, kinds, node, &mut goals)?;
        pieces.push(piece)?;
    }
    Ok(pieces)
}

/// Compiles a body, in time linear in its nodes; says where its sequence begins. After an `Err` what was put stays, and nothing leads to it.
pub fn compile_body(
    alloc: Global,
    code: &mut Draft,
    kinds: &NameTable,
    body: &TermRef<'_>,
) -> Result<u32, AllocError>
    requires code { IsCode (text code.old) }
    ensures extended { OnOk result (Extended (text code.old) (text code.new)) }
    ensures code { OnOk result (IsCode (text code.new)) }
    ensures begins { IfOk result (λ at. Begins (text code.new) at body.now) }
{
    let pieces = pieces_of(alloc, code, kinds, body)?;
    put_body(alloc, code, pieces)
}
