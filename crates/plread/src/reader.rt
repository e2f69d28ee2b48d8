//! The machine: a stack of open levels, and the terms of complete operands.
ghost use Rattle.std.specs.Prelude.{◌+◌, ◌<◌, ◌^◌, vec_len};

use crate::frame::Frame;
use crate::lists::{close, join, push_chars, push_codes};
use crate::looks::{Follower, Leaf, Opening, next_of, start_of};
use crate::token::Token;
use crate::words::Words;
use plops::table::OpTable;
use plterm::builder::Builder;
use plterm::node::Node;
use std::alloc::{AllocError, Global};

/// Whether the reading goes on, is done, or fails since the tokens spell no term.
#[derive(Clone, Copy, Debug, PartialEq, Eq)]
pub enum ReadStep {
    Goes,
    Done,
    Fails,
}

/// How far a reading has come: how many more levels may be opened, those that are open, the complete operands, the
/// priority of the latest unless an operand is wanted, and the tokens that are left.
#[derive(Drop)]
pub struct Reader<'a> {
    pub alloc: Global,
    pub room: u64,
    pub stack: Vec<Frame>,
    pub terms: Builder,
    pub given: Option<u16>,
    pub left: &'a [Token],
    ghost in_range: { room + vec_len stack < 2 ^ 64 },
}

impl<'a> Reader<'a> {
    ghost use Rattle.std.specs.Prelude.{◌≡◌, ◌≤◌, ◌<◌, ◌+◌, ◌^◌, ◌∷◌, length, vec_len};
    ghost use Rattle.plterm.specs.Reading.{arity};
    ghost use Rattle.plterm.specs.Building.{with_node, IsWithinLimits};
    ghost use Rattle.plread.specs.Looks.{view};
    ghost use Rattle.plread.specs.Machine.{max_of, opened, complete, goes_in};
    ghost use Rattle.plread.specs.Views.{level_view, stack_view, state_view, Turned, Gives};

    fn max(&self, words: &Words) -> u16
        ensures { result ≡ max_of (stack_view words.now self.now.stack.items) }
    {
        match self.stack.last() {
            None => 1200,
            Some(Frame::Bracket) => 1200,
            Some(Frame::Curly) => 1200,
            Some(Frame::Elements(_)) => 999,
            Some(Frame::Tail(_)) => 999,
            Some(Frame::Call(_, _)) => 999,
            Some(Frame::Before(_, op)) => op.right,
            Some(Frame::Between(_, op)) => op.right,
        }
    }

    fn open(
        &mut self,
        words: &Words,
        frame: Frame,
        rest: &'a [Token],
    ) -> Result<ReadStep, AllocError>
        ensures { Gives words.now result self.old self.new
            (λ room stack trees _. opened room (level_view words.now frame ∷ stack) trees (view words.now rest.now)) }
    {
        if self.room == 0 {
            return Ok(ReadStep::Fails);
        }
        self.room -= 1;
        self.stack.push(frame)?;
        self.given = None;
        self.left = rest;
        Ok(ReadStep::Goes)
    }

    fn complete(
        &mut self,
        words: &Words,
        node: Node,
        given: u16,
        rest: &'a [Token],
    ) -> Result<ReadStep, AllocError>
        requires limits { IsWithinLimits node }
        requires operands { arity node ≤ length self.old.terms }
        ensures { Gives words.now result self.old self.new
            (λ room stack trees _. complete room stack (with_node node trees) given (view words.now rest.now)) }
    {
        self.terms.push(node)?;
        Ok(self.give(words, given, rest))
    }

    /// An operand is complete, before the rest.
    fn give(&mut self, words: &Words, priority: u16, rest: &'a [Token]) -> ReadStep
        ensures { Turned result (state_view words.now self.new)
            (complete self.old.room (stack_view words.now self.old.stack.items) self.old.terms priority (view words.now rest.now)) }
    {
        self.given = Some(priority);
        self.left = rest;
        ReadStep::Goes
    }

    /// An operand is wanted inside a level that takes the place of one that was open.
    fn go_in(
        &mut self,
        words: &Words,
        frame: Frame,
        rest: &'a [Token],
    ) -> Result<ReadStep, AllocError>
        requires { self.old.room + 1 + vec_len self.old.stack < 2 ^ 64 }
        ensures { Gives words.now result self.old self.new
            (λ room stack trees _. goes_in room (level_view words.now frame ∷ stack) trees (view words.now rest.now)) }
    {
        self.stack.push(frame)?;
        self.given = None;
        self.left = rest;
        Ok(ReadStep::Goes)
    }
}

impl<'a> Reader<'a> {
    ghost use Rattle.std.specs.Prelude.{◌≡◌, ◌≤◌, ◌+◌, ◌<◌, ◌^◌, ◌∷◌, length, vec_len};
    ghost use Rattle.plterm.specs.Building.{with_node};
    ghost use Rattle.plread.specs.Words.{name_at};
    ghost use Rattle.plread.specs.Looks.{view, leaf_tree};
    ghost use Rattle.plread.specs.Machine.{max_of, complete, wants, goes_on, stops, closes, curls, lists, tails, argues, step, held, one_if};
    ghost use Rattle.plread.specs.Reading.{start_of, next_of};
    ghost use Rattle.plread.specs.Views.{stack_view, Stepped, state_view, Gives};

    fn stand(
        &mut self,
        words: &Words,
        leaf: Leaf,
        rest: &'a [Token],
    ) -> Result<ReadStep, AllocError>
        ensures { Gives words.now result self.old self.new
            (λ room stack trees _. complete room stack (leaf_tree words.now leaf ∷ trees) 0 (view words.now rest.now)) }
    {
        match leaf {
            Leaf::Variable(number) => self.complete(words, Node::Var(number), 0, rest),
            Leaf::Integer(value) => self.complete(words, Node::Int(value), 0, rest),
            Leaf::Atom(place) => {
                let name = words.name(self.alloc, place)?;
                self.complete(words, Node::Atom(name), 0, rest)
            }
            Leaf::Codes(place) => {
                push_codes(self.alloc, words, &mut self.terms, words.quoted(place))?;
                Ok(self.give(words, 0, rest))
            }
            Leaf::Chars(place) => {
                push_chars(self.alloc, words, &mut self.terms, words.quoted(place))?;
                Ok(self.give(words, 0, rest))
            }
        }
    }

    /// A compound of the latest operands is complete.
    fn build(
        &mut self,
        words: &Words,
        name: usize,
        arity: u16,
        given: u16,
        rest: &'a [Token],
    ) -> Result<ReadStep, AllocError>
        requires some { 0 < arity }
        requires few { arity ≤ 1024 }
        requires operands { arity ≤ length self.old.terms }
        ensures { let node = Node.Compound (name_at words.now name) arity in
            Gives words.now result self.old self.new
            (λ room stack trees _. complete room stack (with_node node trees) given (view words.now rest.now)) }
    {
        let name = words.name(self.alloc, name)?;
        self.complete(words, Node::Compound(name, arity), given, rest)
    }

    fn want(&mut self, words: &Words, ops: &OpTable) -> Result<ReadStep, AllocError>
        ensures { Gives words.now result self.old self.new
            (λ room stack trees left. wants room stack trees (start_of ops.now (max_of stack) left)) }
    {
        match start_of(ops, words, self.max(words), self.left) {
            Opening::Stands(leaf, rest) => self.stand(words, leaf, rest),
            Opening::Opens(rest) => self.open(words, Frame::Bracket, rest),
            Opening::OpensList(rest) => self.open(words, Frame::Elements(0), rest),
            Opening::OpensCurly(rest) => self.open(words, Frame::Curly, rest),
            Opening::Calls(name, rest) => self.open(words, Frame::Call(name, 0), rest),
            Opening::Before(name, op, rest) => self.open(words, Frame::Before(name, op), rest),
            Opening::Nothing => Ok(ReadStep::Fails),
        }
    }

    fn close(&mut self, words: &Words) -> Result<ReadStep, AllocError>
        requires { self.old.room + 1 + vec_len self.old.stack < 2 ^ 64 }
        ensures { Gives words.now result self.old self.new closes }
    {
        match self.left {
            [Token::Close, rest @ ..] => {
                self.room += 1;
                Ok(self.give(words, 0, rest))
            }
            _ => Ok(ReadStep::Fails),
        }
    }

    fn close_curly(&mut self, words: &Words) -> Result<ReadStep, AllocError>
        requires room { self.old.room + 1 + vec_len self.old.stack < 2 ^ 64 }
        requires operands { 1 ≤ length self.old.terms }
        ensures { Gives words.now result self.old self.new curls }
    {
        match self.left {
            [Token::CloseCurly, rest @ ..] => {
                self.room += 1;
                self.build(words, words.curly(), 1, 0, rest)
            }
            _ => Ok(ReadStep::Fails),
        }
    }

    /// An element of a list is complete, behind so many others. A list of 2^64 elements fits in no memory.
    fn list(&mut self, words: &Words, complete: u64) -> Result<ReadStep, AllocError>
        requires room { self.old.room + 1 + vec_len self.old.stack < 2 ^ 64 }
        requires operands { complete + 1 ≤ length self.old.terms }
        ensures { Gives words.now result self.old self.new (lists complete) }
    {
        let complete = complete.checked_add(1).ok_or(AllocError)?;
        match self.left {
            [Token::CloseSquare, rest @ ..] => {
                self.room += 1;
                close(self.alloc, words, &mut self.terms, complete)?;
                Ok(self.give(words, 0, rest))
            }
            [Token::Comma, rest @ ..] => self.go_in(words, Frame::Elements(complete), rest),
            [Token::Bar, rest @ ..] => self.go_in(words, Frame::Tail(complete), rest),
            _ => Ok(ReadStep::Fails),
        }
    }

    /// The tail of a list is complete, behind so many elements.
    fn close_tail(&mut self, words: &Words, elements: u64) -> Result<ReadStep, AllocError>
        requires room { self.old.room + 1 + vec_len self.old.stack < 2 ^ 64 }
        requires operands { elements + 1 ≤ length self.old.terms }
        ensures { Gives words.now result self.old self.new (tails elements) }
    {
        match self.left {
            [Token::CloseSquare, rest @ ..] => {
                self.room += 1;
                join(self.alloc, words, &mut self.terms, elements)?;
                Ok(self.give(words, 0, rest))
            }
            _ => Ok(ReadStep::Fails),
        }
    }

    /// An argument is complete, behind so many others.
    fn argue(&mut self, words: &Words, name: usize, complete: u16) -> Result<ReadStep, AllocError>
        requires room { self.old.room + 1 + vec_len self.old.stack < 2 ^ 64 }
        requires operands { complete + 1 ≤ length self.old.terms }
        ensures { Gives words.now result self.old self.new (argues (name_at words.now name) complete) }
    {
        match self.left {
            [Token::Close, rest @ ..] => {
                if complete < 1024 {
                    self.room += 1;
                    self.build(words, name, complete + 1, 0, rest)
                } else {
                    Ok(ReadStep::Fails)
                }
            }
            [Token::Comma, rest @ ..] => {
                if complete < 1023 {
                    self.go_in(words, Frame::Call(name, complete + 1), rest)
                } else {
                    Ok(ReadStep::Fails)
                }
            }
            _ => Ok(ReadStep::Fails),
        }
    }

    /// No operator extends the latest operand: the innermost level takes it.
    fn stop(&mut self, words: &Words) -> Result<ReadStep, AllocError>
        requires { length self.old.terms ≡ held (stack_view words.now self.old.stack.items) + 1 }
        ensures { Gives words.now result self.old self.new stops }
    {
        match self.stack.pop() {
            None => match self.left {
                [Token::End] => Ok(ReadStep::Done),
                _ => Ok(ReadStep::Fails),
            },
            Some(Frame::Bracket) => self.close(words),
            Some(Frame::Curly) => self.close_curly(words),
            Some(Frame::Elements(complete)) => self.list(words, complete),
            Some(Frame::Tail(elements)) => self.close_tail(words, elements),
            Some(Frame::Call(name, complete)) => self.argue(words, name, complete),
            Some(Frame::Before(name, op)) => {
                self.room += 1;
                self.build(words, name, 1, op.priority, self.left)
            }
            Some(Frame::Between(name, op)) => {
                self.room += 1;
                self.build(words, name, 2, op.priority, self.left)
            }
        }
    }

    fn extend(&mut self, words: &Words, ops: &OpTable, given: u16) -> Result<ReadStep, AllocError>
        requires { length self.old.terms ≡ held (stack_view words.now self.old.stack.items) + 1 }
        ensures { Gives words.now result self.old self.new
            (λ room stack trees left. goes_on room stack trees left (next_of ops.now (max_of stack) given left)) }
    {
        match next_of(ops, words, self.max(words), given, self.left) {
            Follower::Between(name, op, rest) => self.open(words, Frame::Between(name, op), rest),
            Follower::Behind(name, op, rest) => self.build(words, name, 1, op.priority, rest),
            Follower::Stop => self.stop(words),
        }
    }

    /// One step. Want of memory leaves it at the step's beginning or within it, and it is not to go on then.
    pub fn step(&mut self, words: &Words, ops: &OpTable) -> Result<ReadStep, AllocError>
        requires { length self.old.terms ≡ held (stack_view words.now self.old.stack.items) + one_if self.old.given }
        ensures { Stepped result (state_view words.now self.new) (step ops.now (state_view words.now self.old)) }
    {
        match self.given {
            None => self.want(words, ops),
            Some(given) => self.extend(words, ops, given),
        }
    }
}
