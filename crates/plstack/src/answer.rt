//! Calls of predicates of several answers, which are taken one at a time: no list of them is made.
ghost use Rattle.std.specs.Prelude.{◌≡◌, ◌<◌, ◌^◌, [], ◌∷◌, length, true, false, None, IfOk, IfSome, IfNone, IsSome, OnErr, vec_capacity, vec_len};
ghost use Rattle.plterm.specs.Reading.{IsName};
ghost use Rattle.plsubst.specs.Unify.{unify};
ghost use Rattle.plcells.specs.Store.{AreValues};
ghost use Rattle.plbuiltin.specs.Solution.{together};
ghost use Rattle.plsearch.specs.Types.{Choice};
ghost use Rattle.plgenerator.specs.Answers.{piece_terms, sought_terms, told_by, AreSides, IsRemaining};
ghost use Rattle.plgenerator.specs.Fitting.{Misses};
ghost use Rattle.plenv.specs.Changes.{Keeps, Stays};
ghost use Rattle.plenv.specs.Env.{cut, IsEnv, IsMark};
ghost use Rattle.plenv.specs.Solving.{Solves};
ghost use Rattle.plstack.specs.Places.{Database};
ghost use Rattle.plstack.specs.State.{cases_of, walks_in, HasAnswers, IsFit, IsList, Retries};
ghost use Rattle.plstack.specs.Calls.{StaysAt};
ghost use Rattle.plstack.specs.Trials.{IsMarked, IsOpened};
ghost use Rattle.plstack.specs.Answering.{Answered, IsSolved, PushesAnswers, TakesAnswer, TakesNone, Unanswered};

use crate::call::keep_values;
use crate::frame::{Answers, Frame, Point, Resume};
use crate::open::{count_up, deeper, push_within};
use crate::stack::Stack;
use crate::walk::Opened;
use plcells::cell::Cell;
use plcode::node::Node;
use plenv::env::Environment;
use plenv::slot::{Mark, Row};
use plgenerator::generator::{Piece, Sides, next};
use plgenerator::turn::Remaining;
use plgenerator::wanted::Sought;
use plhead::head::{Head, Matcher};
use pllinks::link::Continuation;
use pllinks::list::ListId;
use std::alloc::{AllocError, Global};

/// An answer that was taken: those behind it, if there may be one.
#[derive(Clone, Copy)]
pub struct Taken {
    pub rest: Option<Remaining>,
}

/// A call of a predicate of several answers: the values of its arguments, those of its answers that are left, and the mark of the environment at the
/// call.
#[derive(Clone, Copy)]
struct AnswerCall<'a> {
    values: &'a [Cell],
    turn: Remaining,
    mark: Mark,
}

/// Unifies what is sought of a part with its numbers and its text, in a choice: whether they have a unifier. They are met as the arguments of a
/// head are, so nothing is put.
fn fit_piece(
    env: &mut Environment,
    matcher: &mut Matcher,
    sought: &Sought,
    piece: &Piece,
) -> Result<bool, AllocError>
    requires values { AreValues env.old.heap (sought.now.before ∷ sought.now.length ∷ sought.now.after ∷ sought.now.text ∷ []) }
    requires text { IsName piece.now.text }
    ensures yes { IfOk result (λ fits. fits ≡ true → Solves env.old env.new (together (sought_terms env.old.heap sought.now)) (together (piece_terms piece.now)) 0) }
    ensures no { IfOk result (λ fits. fits ≡ false → unify (together (sought_terms env.old.heap sought.now)) (together (piece_terms piece.now)) ≡ None) }
    ensures keeps { Keeps env.old env.new }
{
    let text = env.atom(&piece.text)?;
    let _ = env.heap();
    let part = piece.part;
    let nodes = [
        Node::Int(i64::from(part.offset.characters)),
        Node::Int(i64::from(part.length)),
        Node::Int(i64::from(part.after)),
        Node::Atom(text),
    ];
    let values = [sought.before, sought.length, sought.after, sought.text];
    let row = Row { at: 0, count: 4 };
    matcher.fit(env, &nodes, Head { row, base: 0 }, &values)
}

/// Unifies the sides of an answer, in a choice: whether they have a unifier. Where they have none, or memory gives out, an undo to a mark in use
/// gives back what was changed.
fn solve_sides(
    env: &mut Environment,
    matcher: &mut Matcher,
    alloc: Global,
    sides: Sides,
) -> Result<bool, AllocError>
    requires { AreSides env.old.heap sides }
    ensures yes { IfOk result (λ fits. fits ≡ true → IsSolved env.old env.new (told_by env.old.heap env.old.count sides)) }
    ensures no { IfOk result (λ fits. fits ≡ false → Misses (told_by env.old.heap env.old.count sides)) }
    ensures keeps { Keeps env.old env.new }
{
    match sides {
        Sides::Terms(equation) => env.solve_in_choice(alloc, equation),
        Sides::Part(sought, piece) => fit_piece(env, matcher, &sought, &piece),
    }
}

/// The first of the answers of a call that are left which fits: its two sides are unified. Where there is none all stands for what it did; where
/// memory gives out, an undo to the call's mark gives back what was changed.
fn first_answer(
    env: &mut Environment,
    matcher: &mut Matcher,
    alloc: Global,
    call: &AnswerCall<'_>,
) -> Result<Option<Taken>, AllocError>
    requires values { AreValues env.old.heap call.now.values.now }
    requires turn { IsRemaining env.old.heap call.now.values.now call.now.turn }
    requires mark { IsMark call.now.mark env.old }
    requires now { cut call.now.mark env.old ≡ env.old }
    ensures some { IfOk result (λ o. IfSome o (λ taken. TakesAnswer env.old env.new call.now.values.now call.now.turn taken.rest)) }
    ensures none { IfOk result (λ o. IfNone o (TakesNone env.old env.new call.now.values.now call.now.turn)) }
    ensures keeps { Keeps env.old env.new }
{
    let mut left = call.turn;
    let _ = env.heap();
    'answers: loop {
        let Some(found) = next(alloc, env.heap(), call.values, left)? else {
            return Ok(None);
        };
        if solve_sides(env, matcher, alloc, found.sides)? {
            return Ok(Some(Taken { rest: found.rest }));
        }
        let _ = env.heap();
        env.undo(call.mark);
        let Some(rest) = found.rest else {
            return Ok(None);
        };
        left = rest;
    }
}

/// The same, in an environment that is sound whatever comes of it. After an `Err` all stands for what it did.
fn take_answer(
    env: &mut Environment,
    matcher: &mut Matcher,
    alloc: Global,
    call: &AnswerCall<'_>,
) -> Result<Option<Taken>, AllocError>
    requires values { AreValues env.old.heap call.now.values.now }
    requires turn { IsRemaining env.old.heap call.now.values.now call.now.turn }
    requires mark { IsMark call.now.mark env.old }
    requires now { cut call.now.mark env.old ≡ env.old }
    ensures some { IfOk result (λ o. IfSome o (λ taken. TakesAnswer env.old env.new call.now.values.now call.now.turn taken.rest)) }
    ensures none { IfOk result (λ o. IfNone o (TakesNone env.old env.new call.now.values.now call.now.turn)) }
    ensures err { OnErr result (Stays env.old env.new) }
    ensures env { IsEnv env.new }
{
    let _ = env.heap();
    match first_answer(env, matcher, alloc, call) {
        Ok(taken) => {
            let _ = env.heap();
            Ok(taken)
        }
        Err(e) => {
            let _ = env.heap();
            env.undo(call.mark);
            let _ = env.heap();
            Err(e)
        }
    }
}

/// Opens the case of the answers of a turn that are left, or a choice with nothing left: whether nothing is.
fn push_answers(frames: &mut Vec<Frame>, point: Point, count: u32, rest: Option<Remaining>) -> bool
    requires room { vec_len frames.old < vec_capacity frames.old }
    ensures pushes { PushesAnswers point count rest frames.old.items frames.new.items }
    ensures last { result ≡ true → rest ≡ None }
{
    match rest {
        Some(turn) => {
            let answers = Answers { count, turn };
            push_within(frames, Frame::Open(point, Resume::Answers(answers)));
            false
        }
        None => {
            count_up(frames, 1);
            true
        }
    }
}

impl Stack {
    /// Calls a predicate by the answers of a turn over the values of its arguments, before a list: whether an answer fits. The list is visited
    /// with the first that does, in a choice of those behind it.
    pub fn call_answers(
        &mut self,
        alloc: Global,
        values: &[Cell],
        turn: Remaining,
        rest: Continuation,
    ) -> Result<bool, AllocError>
        requires values { AreValues self.old.env.heap values.now }
        requires few { length values.now < 2 ^ 32 }
        requires turn { IsRemaining self.old.env.heap values.now turn }
        requires rest { IsList self.old rest }
        requires fits { IsFit self.old rest }
        ensures yes { IfOk result (λ yes. yes ≡ true → (db : Database) → Answered db self.old self.new values.now rest turn) }
        ensures no { IfOk result (λ yes. yes ≡ false → (db : Database) → Unanswered db self.old self.new values.now rest turn) }
        ensures basis { self.new.basis ≡ self.old.basis }
        ensures walks { walks_in self.new ≡ walks_in self.old }
        ensures err { OnErr result (StaysAt self.old self.new) }
    {
        let marks = self.marks();
        let point = Point { marks, list: rest };
        match self.open_answers(alloc, point, values, turn)? {
            Some(opened) => {
                self.settle_opened(opened);
                Ok(true)
            }
            None => Ok(false),
        }
    }

    /// Opens the case of a call, and visits its list with its first answer, if it has one that fits.
    fn open_answers(
        &mut self,
        alloc: Global,
        point: Point,
        values: &[Cell],
        turn: Remaining,
    ) -> Result<Option<Opened>, AllocError>
        requires marks { IsMarked self.old point.marks }
        requires values { AreValues self.old.env.heap values.now }
        requires few { length values.now < 2 ^ 32 }
        requires turn { IsRemaining self.old.env.heap values.now turn }
        requires list { IsList self.old point.list }
        requires fits { IsFit self.old point.list }
        ensures some { IfOk result (λ o. IsSome o → (db : Database) → Answered db self.old self.new values.now point.list turn) }
        ensures none { IfOk result (λ o. IfNone o ((db : Database) → Unanswered db self.old self.new values.now point.list turn)) }
        ensures opened { IfOk result (λ o. IfSome o (λ opened. opened.is_last ≡ true → IsOpened self.new opened)) }
        ensures basis { self.new.basis ≡ self.old.basis }
        ensures walks { walks_in self.new ≡ walks_in self.old }
        ensures err { OnErr result (StaysAt self.old self.new) }
    {
        let depth = deeper(self.depth, 1)?;
        self.frames.reserve(1)?;
        self.saved.reserve(values.len())?;
        let marks = point.marks;
        let call = AnswerCall {
            values,
            turn,
            mark: marks.env,
        };
        let Some(taken) = take_answer(&mut self.env, &mut self.matcher, alloc, &call)? else {
            return Ok(None);
        };
        keep_values(&mut self.saved, values);
        let count = values.len() as u32;
        self.goals = point.list;
        let is_last = push_answers(&mut self.frames, point, count, taken.rest);
        self.depth = depth;
        Ok(Some(Opened { marks, is_last }))
    }

    /// Goes back to where the innermost case was opened, a call of a predicate of several answers, and visits its list with the next answer:
    /// whether one fits. Where none does the case is closed; after an `Err` it stays.
    pub fn retry_answers(&mut self, alloc: Global) -> Result<bool, AllocError>
        requires { HasAnswers self.old }
        ensures yes { IfOk result (λ yes. yes ≡ true → (db : Database) → Retries db self.old self.new) }
        ensures no { IfOk result (λ yes. yes ≡ false → (db : Database) → cases_of db self.old ≡ Choice [] ∷ cases_of db self.new) }
        ensures err { OnErr result ((db : Database) → cases_of db self.new ≡ cases_of db self.old) }
        ensures basis { self.new.basis ≡ self.old.basis }
        ensures walks { walks_in self.new ≡ walks_in self.old }
    {
        match self.reopen_answers(alloc)? {
            Some(opened) => {
                self.settle_opened(opened);
                Ok(true)
            }
            None => Ok(false),
        }
    }

    /// The same, where less could be old if no answer is left.
    fn reopen_answers(&mut self, alloc: Global) -> Result<Option<Opened>, AllocError>
        requires { HasAnswers self.old }
        ensures some { IfOk result (λ o. IsSome o → (db : Database) → Retries db self.old self.new) }
        ensures none { IfOk result (λ o. IfNone o ((db : Database) → cases_of db self.old ≡ Choice [] ∷ cases_of db self.new)) }
        ensures opened { IfOk result (λ o. IfSome o (λ opened. opened.is_last ≡ true → IsOpened self.new opened)) }
        ensures err { OnErr result ((db : Database) → cases_of db self.new ≡ cases_of db self.old) }
        ensures basis { self.new.basis ≡ self.old.basis }
        ensures walks { walks_in self.new ≡ walks_in self.old }
    {
        let Some(Frame::Open(point, Resume::Answers(answers))) = self.frames.pop() else {
            unreachable!()
        };
        self.env.undo(point.marks.env);
        self.links.truncate(point.marks.links);
        self.saved
            .truncate(point.marks.saved + answers.count as usize);
        self.goals = Continuation::alone(ListId::EMPTY);
        let first = point.marks.saved;
        let call = AnswerCall {
            values: &self.saved[first..first + answers.count as usize],
            turn: answers.turn,
            mark: point.marks.env,
        };
        match take_answer(&mut self.env, &mut self.matcher, alloc, &call) {
            Ok(Some(taken)) => {
                self.goals = point.list;
                let marks = point.marks;
                let is_last = push_answers(&mut self.frames, point, answers.count, taken.rest);
                Ok(Some(Opened { marks, is_last }))
            }
            Ok(None) => {
                self.depth = self.depth.down(1);
                Ok(None)
            }
            Err(e) => {
                let frame = Frame::Open(point, Resume::Answers(answers));
                push_within(&mut self.frames, frame);
                Err(e)
            }
        }
    }
}
