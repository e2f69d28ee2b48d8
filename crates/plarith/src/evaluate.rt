//! Evaluation without recursion: operations wait on a stack.
ghost use Rattle.std.specs.Prelude.{◌≡◌, IfOk, All};
ghost use Rattle.plterm.specs.Tree.{Tree};
ghost use Rattle.plarith.specs.declared.operand.Operand.{Operand};
ghost use Rattle.plarith.specs.declared.evaluate.Step.TheVariants.{Into, Back};
ghost use Rattle.plarith.specs.Evaluation.{eval};
ghost use Rattle.plarith.specs.Frames.{ahead, follows, waiting, Goes};

use crate::error::Evaluated;
use crate::operand::{Opened, Operand, Operands};
use crate::{binary, unary};
use platoms::evaluable::{Binary, Unary};
use std::alloc::{AllocError, Global};

/// An operation that waits.
#[derive(Clone, Copy)]
enum Frame {
    /// For its argument.
    One(Unary),
    /// For its first argument; the second one stands there.
    Left(Binary, Operand),
    /// For its second argument; the first one is this.
    Right(Binary, i64),
}

/// What an evaluation is about to do.
#[derive(Drop)]
enum Step {
    /// To look at an operand.
    Into(Operand),
    /// To go back to what waits, with a value.
    Back(i64),
    /// Nothing: it has ended.
    Ends(Evaluated),
}

/// What follows once an operand comes to this.
fn after(found: Evaluated) -> Step
    ensures { result ≡ follows found }
{
    match found {
        Ok(x) => Step::Back(x),
        Err(error) => Step::Ends(Err(error)),
    }
}

/// Looks at an operand.
fn go_in<S: Operands>(
    source: &S,
    frames: &mut Vec<Frame>,
    operand: Operand,
) -> Result<Step, AllocError>
    requires operand { S.is_operand source.now operand }
    requires waiting { All (S.is_operand source.now) (waiting frames.old.items) }
    ensures goes { IfOk result (λ s. Goes (S.tree source.now) frames.old.items frames.new.items (Into operand) s) }
    ensures there { IfOk result (λ s. All (S.is_operand source.now) (ahead frames.new.items s)) }
{
    match source.open(operand)? {
        Opened::Known(found) => Ok(after(found)),
        Opened::One(f, argument) => {
            frames.push(Frame::One(f))?;
            Ok(Step::Into(argument))
        }
        Opened::Two(f, left, right) => {
            frames.push(Frame::Left(f, right))?;
            Ok(Step::Into(left))
        }
    }
}

/// Goes back to the innermost operation that waits.
fn go_back(frames: &mut Vec<Frame>, x: i64) -> Result<Step, AllocError>
    ensures goes { IfOk result (λ s. (w : Operand → Tree) → Goes w frames.old.items frames.new.items (Back x) s) }
    ensures there { IfOk result (λ s. ahead frames.new.items s ≡ waiting frames.old.items) }
{
    match frames.pop() {
        None => Ok(Step::Ends(Ok(x))),
        Some(Frame::One(f)) => Ok(after(unary::apply(f, x))),
        Some(Frame::Left(f, right)) => {
            frames.push(Frame::Right(f, x))?;
            Ok(Step::Into(right))
        }
        Some(Frame::Right(f, left)) => Ok(after(binary::apply(f, left, x))),
    }
}

/// What an expression comes to. It makes no cell.
pub fn evaluate<S: Operands>(
    alloc: Global,
    source: &S,
    operand: Operand,
) -> Result<Evaluated, AllocError>
    requires { S.is_operand source.now operand }
    ensures { IfOk result (λ found. found ≡ eval (S.tree source.now operand)) }
{
    let mut frames = Vec::new(alloc);
    let mut step = Step::Into(operand);
    loop {
        step = match step {
            Step::Into(operand) => go_in(source, &mut frames, operand)?,
            Step::Back(x) => go_back(&mut frames, x)?,
            Step::Ends(found) => return Ok(found),
        };
    }
}
