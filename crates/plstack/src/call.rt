//! Calls of static procedures.
ghost use Rattle.std.specs.Prelude.{◌≡◌, ℕ, ◌+◌, ◌<◌, ◌≤◌, ◌^◌, List, [], ◌∷◌, ◌++◌, length, drop, reverse, true, false, None, Some, IfOk, IfSome, IfNone, OnErr, vec_capacity, vec_len};
ghost use Rattle.plsubst.specs.Subst.{bind};
ghost use Rattle.plclause.specs.Clause.{Clause};
ghost use Rattle.plcells.specs.Store.{AreValues};
ghost use Rattle.plsearch.specs.Types.{Case, Choice};
ghost use Rattle.plsearch.specs.Moves.{before_rest, is_true};
ghost use Rattle.plcode.specs.Clauses.{IsCodeOf};
ghost use Rattle.plcode.specs.Steps.{Text};
ghost use Rattle.platoms.specs.Names.{Extends as ExtendsNames};
ghost use Rattle.plenv.specs.Env.{cut, over, renamed, IsEnv, IsMark, IsWithin};
ghost use Rattle.plenv.specs.Changes.{Keeps};
ghost use Rattle.pllinks.specs.Links.{alone};
ghost use Rattle.plstack.specs.Places.{Database, called};
ghost use Rattle.plstack.specs.Levels.{FitsIn};
ghost use Rattle.plstack.specs.Frames.{AreOlder};
ghost use Rattle.plstack.specs.Fits.{FindsNone};
ghost use Rattle.plstack.specs.Attempts.{IsAttempt};
ghost use Rattle.plstack.specs.State.{cases_of, goals_of, kinds_in, place_of, walks_in, HasClauses, IsFit, IsList, Retries};
ghost use Rattle.plstack.specs.Calls.{Calls, CallsNone, StaysAt};
ghost use Rattle.plstack.specs.StaticCalls.{body_at, further, AreStatics, AtCall, Binds, Enters, FindsHit, FitsFirst, GoesOn, Hits, IsCalling, PushesCall};
ghost use Rattle.plstack.specs.Trials.{IsMarked};
ghost use Rattle.plstack.specs.declared.frame.Clauses.{Clauses as OfClauses};
ghost use Rattle.plstack.specs.declared.frame.Point.{Point as OfPoint};

use crate::fit::{Attempt, Hit, first_fit};
use crate::frame::{Clauses, Frame, Point, Resume};
use crate::key::first_key;
use crate::open::{count_up, deeper, push_within};
use crate::stack::Stack;
use plcells::cell::Cell;
use plcode::program::SharedCode;
use plenv::env::Environment;
use plenv::slot::Mark;
use plhead::head::Matcher;
use pllinks::item::ClauseGoals;
use pllinks::level::Level;
use pllinks::link::Continuation;
use pllinks::list::ListId;
use std::alloc::AllocError;

/// A goal that calls a static procedure, by its place, with the values of its arguments.
#[derive(Clone, Copy)]
struct Goal<'a> {
    procedure: u32,
    values: &'a [Cell],
}

/// The innermost case, a call: what it comes back to, and what is left of it.
#[derive(Clone, Copy)]
pub struct Calling {
    pub point: Point,
    pub call: Clauses,
}

/// The first clause from a number on that fits the goal, and the next one that may. Where there is none all is as it was at the call; where
/// memory gives out, an undo to its mark gives back what was changed.
#[inline(always)]
fn first_hit(
    env: &mut Environment,
    matcher: &mut Matcher,
    call: &Attempt<'_>,
    from: usize,
) -> Result<Option<Hit>, AllocError>
    requires attempt { (c : Text) × (n : List ℕ) × (xs : List Clause) × IsAttempt c env.old n call.now.values.now call.now.key call.now.nodes.now call.now.procedure.now xs }
    requires within { from ≤ length call.now.procedure.now }
    requires mark { IsMark call.now.mark env.old }
    requires now { cut call.now.mark env.old ≡ env.old }
    ensures some { IfOk result (λ o. IfSome o (λ hit. (c : Text) (n : List ℕ) (xs : List Clause) → IsAttempt c env.old n call.now.values.now call.now.key call.now.nodes.now call.now.procedure.now xs → FindsHit env.old env.new (called env.old.heap n call.now.values.now) call.now.key call.now.procedure.now xs from hit)) }
    ensures none { IfOk result (λ o. IfNone o ((c : Text) (n : List ℕ) (xs : List Clause) → IsAttempt c env.old n call.now.values.now call.now.key call.now.nodes.now call.now.procedure.now xs → FindsNone env.old (called env.old.heap n call.now.values.now) xs from)) }
    ensures same { IfOk result (λ o. IfNone o (env.new ≡ renamed env.old env.new.heap.names)) }
    ensures keeps { Keeps env.old env.new }
{
    let Some(found) = first_fit(env, matcher, call, from)? else {
        return Ok(None);
    };
    Ok(Some(Hit {
        clause: call.procedure.clauses()[found.place],
        base: found.base,
        next: call.procedure.next(call.key, found.place + 1),
    }))
}

/// The first clause of a static procedure that fits a goal, and the next one that may. Where there is none, or memory gives out, all is as it was
/// at the mark but for more names.
#[inline(always)]
fn fit_first(
    env: &mut Environment,
    matcher: &mut Matcher,
    code: &SharedCode,
    goal: &Goal<'_>,
    mark: Mark,
) -> Result<Option<Hit>, AllocError>
    requires names { ExtendsNames code.now.text.names env.old.heap.names }
    requires statics { (db : Database) × AreStatics code.now db }
    requires values { AreValues env.old.heap goal.now.values.now }
    requires mark { IsMark mark env.old }
    requires now { cut mark env.old ≡ env.old }
    ensures some { IfOk result (λ o. IfSome o (λ hit. (db : Database) → AreStatics code.now db → FitsFirst code.now db goal.now.procedure goal.now.values.now env.old env.new hit)) }
    ensures none { IfOk result (λ o. IfNone o ((db : Database) → AreStatics code.now db → FindsNone env.old (called env.old.heap (db.statics goal.now.procedure).name goal.now.values.now) (db.statics goal.now.procedure).clauses 0)) }
    ensures back { IfOk result (λ o. IfNone o (env.new ≡ renamed env.old env.new.heap.names)) }
    ensures err { OnErr result (env.new ≡ renamed env.old env.new.heap.names) }
    ensures keeps { Keeps env.old env.new }
    ensures env { IsEnv env.new }
{
    let _ = env.heap();
    let code = code.code();
    let Some(procedure) = code.procedure(goal.procedure) else {
        return Ok(None);
    };
    let attempt = Attempt {
        procedure,
        nodes: code.nodes(),
        key: first_key(env.heap(), goal.values),
        values: goal.values,
        mark,
    };
    match first_hit(env, matcher, &attempt, 0) {
        Ok(hit) => {
            let _ = env.heap();
            Ok(hit)
        }
        Err(e) => {
            let _ = env.heap();
            env.undo(mark);
            let _ = env.heap();
            Err(e)
        }
    }
}

/// The body of a clause that fits, at a level, before a list by its number; of a fact that list alone.
fn body_of(hit: Hit, behind: ListId, level: Level) -> Continuation
    requires { hit.base + hit.clause.variables < 2 ^ 32 }
    ensures { result ≡ body_at hit behind level }
{
    if hit.clause.is_fact {
        return Continuation::alone(behind);
    }
    let run = ClauseGoals {
        position: hit.clause.body,
        owed: 0,
        base: hit.base,
        end: hit.base + hit.clause.variables,
        level,
    };
    Continuation { run, rest: behind }
}

/// Opens the case of the clauses of a call from a number on, or where none is left a choice with nothing left.
#[inline(always)]
fn push_call(frames: &mut Vec<Frame>, point: &Point, call: Clauses, next: Option<usize>)
    requires room { vec_len frames.old < vec_capacity frames.old }
    ensures { PushesCall point.now call next frames.old.items frames.new.items }
{
    match next {
        Some(next) => {
            let left = Clauses { next, ..call };
            push_within(frames, Frame::Open(*point, Resume::Clauses(left)));
        }
        None => count_up(frames, 1),
    }
}

/// Keeps values behind the others, where there is room for them.
pub(crate) fn keep_values(saved: &mut Vec<Cell>, values: &[Cell])
    requires room { vec_len saved.old + length values.now ≤ vec_capacity saved.old }
    ensures { saved.new.items ≡ saved.old.items ++ values.now }
{
    match saved.extend_from_slice(values) {
        Ok(()) => {}
        Err(_) => unreachable!(),
    }
}

/// Of the call of a frame the clauses from a number on are left.
fn leave_from(frame: &mut Frame, next: usize)
    requires { (p : OfPoint) × (c : OfClauses) × (frame.old ≡ Frame.Open p (Resume.Clauses c)) }
    ensures { (p : OfPoint) (c : OfClauses) → frame.old ≡ Frame.Open p (Resume.Clauses c) → frame.new ≡ Frame.Open p (Resume.Clauses (record c { next = next })) }
{
    if let Frame::Open(_, Resume::Clauses(call)) = frame {
        call.next = next;
    }
}

impl Stack {
    /// Calls a static procedure before a list: whether a clause fits. The body of the first that does is visited, in a choice of those behind it.
    #[inline(always)]
    pub fn call(
        &mut self,
        procedure: u32,
        values: &[Cell],
        rest: Continuation,
    ) -> Result<bool, AllocError>
        requires statics { (db : Database) × AreStatics self.old.basis.code db }
        requires values { AreValues self.old.env.heap values.now }
        requires few { length values.now < 2 ^ 16 }
        requires rest { IsList self.old rest }
        requires fits { IsFit self.old rest }
        ensures yes { IfOk result (λ yes. yes ≡ true → (db : Database) → AreStatics self.old.basis.code db → Calls db self.old self.new (called self.old.env.heap (db.statics procedure).name values.now) rest (db.statics procedure).clauses) }
        ensures no { IfOk result (λ yes. yes ≡ false → (db : Database) → AreStatics self.old.basis.code db → CallsNone db self.old self.new (called self.old.env.heap (db.statics procedure).name values.now) rest (db.statics procedure).clauses) }
        ensures basis { self.new.basis ≡ self.old.basis }
        ensures walks { walks_in self.new ≡ walks_in self.old }
        ensures err { OnErr result (StaysAt self.old self.new) }
    {
        let behind = self.number_of(&rest)?;
        let point = Point {
            marks: self.marks(),
            list: Continuation::alone(behind),
        };
        self.open_call(procedure, values, &point)
    }

    /// Tries the further clauses of the innermost case, a call of a static procedure: whether one fits. The body of the first that does is visited
    /// before the list behind the goal, and the case has what is left behind it. Where none fits the case is closed.
    /// After an `Err` the cases are as they were.
    pub fn retry(&mut self) -> Result<bool, AllocError>
        requires call { HasClauses self.old }
        requires statics { (db : Database) × AreStatics self.old.basis.code db }
        ensures yes { IfOk result (λ yes. yes ≡ true → (db : Database) → AreStatics self.old.basis.code db → Retries db self.old self.new) }
        ensures no { IfOk result (λ yes. yes ≡ false → (db : Database) → AreStatics self.old.basis.code db → cases_of db self.old ≡ Choice [] ∷ cases_of db self.new) }
        ensures basis { self.new.basis ≡ self.old.basis }
        ensures walks { walks_in self.new ≡ walks_in self.old }
        ensures err { OnErr result ((db : Database) → cases_of db self.new ≡ cases_of db self.old) }
    {
        let at = self.rewind_call();
        self.try_next(at)
    }

    /// Visits the body of the first clause of a static procedure that fits a goal's values, before a list, and opens the case of the clauses
    /// behind it: whether one fits.
    #[inline(always)]
    fn open_call(
        &mut self,
        procedure: u32,
        values: &[Cell],
        point: &Point,
    ) -> Result<bool, AllocError>
        requires marks { IsMarked self.old point.now.marks }
        requires statics { (db : Database) × AreStatics self.old.basis.code db }
        requires values { AreValues self.old.env.heap values.now }
        requires few { length values.now < 2 ^ 16 }
        requires alone { point.now.list ≡ alone point.now.list.rest }
        requires list { IsList self.old point.now.list }
        requires fits { IsFit self.old point.now.list }
        ensures yes { IfOk result (λ yes. yes ≡ true → (db : Database) → AreStatics self.old.basis.code db → Calls db self.old self.new (called self.old.env.heap (db.statics procedure).name values.now) point.now.list (db.statics procedure).clauses) }
        ensures no { IfOk result (λ yes. yes ≡ false → (db : Database) → AreStatics self.old.basis.code db → CallsNone db self.old self.new (called self.old.env.heap (db.statics procedure).name values.now) point.now.list (db.statics procedure).clauses) }
        ensures basis { self.new.basis ≡ self.old.basis }
        ensures walks { walks_in self.new ≡ walks_in self.old }
        ensures err { OnErr result (StaysAt self.old self.new) }
    {
        let depth = deeper(self.depth, 1)?;
        self.frames.reserve(1)?;
        self.saved.reserve(values.len())?;
        let goal = Goal { procedure, values };
        let mark = point.marks.env;
        let Some(hit) = fit_first(
            &mut self.env,
            &mut self.matcher,
            &self.basis.code,
            &goal,
            mark,
        )?
        else {
            return Ok(false);
        };
        let call = Clauses {
            procedure,
            count: values.len() as u16,
            next: 0,
        };
        push_call(&mut self.frames, point, call, hit.next);
        self.goals = body_of(hit, point.list.rest, self.depth);
        self.depth = depth;
        match hit.next {
            Some(_) => keep_values(&mut self.saved, values),
            None => self.settle(point.marks),
        }
        Ok(true)
    }

    /// The innermost case, if it is a call of a static procedure.
    fn calling(&self) -> Option<Calling>
        ensures some { IfSome result (λ at. IsCalling self.now at.point at.call) }
        ensures none { IfNone result (HasClauses self.now → ⊥) }
    {
        match self.frames.last() {
            Some(Frame::Open(point, Resume::Clauses(call))) => Some(Calling {
                point: *point,
                call: *call,
            }),
            _ => None,
        }
    }

    /// Goes back to where the innermost case was opened, which is a call of a static procedure and stays open.
    fn rewind_call(&mut self) -> Calling
        requires { HasClauses self.old }
        ensures cases { (db : Database) → cases_of db self.new ≡ cases_of db self.old }
        ensures at { AtCall self.new result.point result.call }
        ensures basis { self.new.basis ≡ self.old.basis }
        ensures walks { walks_in self.new ≡ walks_in self.old }
    {
        let Some(at) = self.calling() else {
            unreachable!()
        };
        let marks = at.point.marks;
        self.env.undo(marks.env);
        self.links.truncate(marks.links);
        self.saved.truncate(marks.saved + at.call.count as usize);
        self.goals = Continuation::alone(ListId::EMPTY);
        at
    }

    /// Tries the further clauses of the innermost call, where all is as it was at its opening.
    fn try_next(&mut self, at: Calling) -> Result<bool, AllocError>
        requires at { AtCall self.old at.point at.call }
        requires statics { (db : Database) × AreStatics self.old.basis.code db }
        ensures yes { IfOk result (λ yes. yes ≡ true → (db : Database) → AreStatics self.old.basis.code db → Retries db self.old self.new) }
        ensures no { IfOk result (λ yes. yes ≡ false → (db : Database) → AreStatics self.old.basis.code db → cases_of db self.old ≡ Choice [] ∷ cases_of db self.new) }
        ensures basis { self.new.basis ≡ self.old.basis }
        ensures walks { walks_in self.new ≡ walks_in self.old }
        ensures err { OnErr result (StaysAt self.old self.new) }
        ensures has { OnErr result (HasClauses self.new) }
    {
        let behind = self.number_of(&at.point.list)?;
        match self.find(&at)? {
            Some(hit) => {
                self.enter(at, hit, behind);
                Ok(true)
            }
            None => {
                self.leave_call();
                Ok(false)
            }
        }
    }

    /// The first clause that is left of the innermost call and fits: it has slots of its own, and the unifier is put into all.
    fn find(&mut self, at: &Calling) -> Result<Option<Hit>, AllocError>
        requires at { AtCall self.old at.now.point at.now.call }
        requires statics { (db : Database) × AreStatics self.old.basis.code db }
        ensures some { IfOk result (λ o. IfSome o (λ hit. (db : Database) → AreStatics self.old.basis.code db → Hits db self.old self.new at.now.point at.now.call hit)) }
        ensures binds { IfOk result (λ o. IfSome o (λ hit. Binds self.old self.new)) }
        ensures none { IfOk result (λ o. IfNone o ((db : Database) → AreStatics self.old.basis.code db → (d : ℕ) → further db self.new d at.now.point at.now.call (drop at.now.call.next (db.statics at.now.call.procedure).clauses) ≡ [])) }
        ensures cases { (db : Database) → cases_of db self.new ≡ cases_of db self.old }
        ensures place { OnErr result (place_of self.new ≡ place_of self.old) }
        ensures same { self.new ≡ record self.old { env = self.new.env } }
    {
        let Calling { point, call } = *at;
        let Some(procedure) = self.basis.code.code().procedure(call.procedure) else {
            return Ok(None);
        };
        if call.next > procedure.clauses().len() {
            return Ok(None);
        }
        let first = point.marks.saved;
        let values = &self.saved[first..first + call.count as usize];
        let attempt = Attempt {
            procedure,
            nodes: self.basis.code.code().nodes(),
            key: first_key(self.env.heap(), values),
            values,
            mark: point.marks.env,
        };
        match first_hit(&mut self.env, &mut self.matcher, &attempt, call.next) {
            Ok(hit) => {
                let _ = self.env.heap();
                Ok(hit)
            }
            Err(e) => {
                let _ = self.env.heap();
                self.env.undo(point.marks.env);
                let _ = self.env.heap();
                Err(e)
            }
        }
    }

    /// Enters a clause that fits: visits its body before a list, and puts what is left behind it in the place of the innermost case, a call.
    fn enter(&mut self, at: Calling, hit: Hit, behind: ListId)
        requires calling { IsCalling self.old at.point at.call }
        requires hit { (x : Clause) × IsCodeOf self.old.basis.code.text hit.clause x × (hit.base + hit.clause.variables ≤ length self.old.env.slots) }
        requires behind { IsList self.old (alone behind) }
        requires fits { FitsIn (drop 1 (kinds_in self.old)) (goals_of self.old (alone behind)) }
        ensures enters { (db : Database) → Enters db self.old self.new at.point at.call hit behind }
        ensures basis { self.new.basis ≡ self.old.basis }
        ensures walks { walks_in self.new ≡ walks_in self.old }
    {
        let level = self.depth.down(1);
        let list = self.body_list(hit, behind, level);
        self.visit(list);
        self.go_on(at, hit.next);
    }

    /// The body of a clause whose slots are there, at a level, before a list by its number.
    fn body_list(&self, hit: Hit, behind: ListId, level: Level) -> Continuation
        requires hit { (x : Clause) × IsCodeOf self.now.basis.code.text hit.clause x × (hit.base + hit.clause.variables ≤ length self.now.env.slots) }
        requires behind { IsList self.now (alone behind) }
        ensures there { IsList self.now result }
        ensures is { (x : Clause) → IsCodeOf self.now.basis.code.text hit.clause x → goals_of self.now result ≡ before_rest (is_true x.body) level (bind (over self.now.env hit.base) x.body) (goals_of self.now (alone behind)) }
    {
        let _ = self.env.heap();
        body_of(hit, behind, level)
    }

    /// Of the innermost call the clauses from a number on are left, or none.
    fn go_on(&mut self, at: Calling, next: Option<usize>)
        requires { IsCalling self.old at.point at.call }
        ensures goes { (db : Database) → GoesOn db self.old self.new at.point at.call next }
        ensures place { place_of self.new ≡ place_of self.old }
        ensures basis { self.new.basis ≡ self.old.basis }
        ensures walks { walks_in self.new ≡ walks_in self.old }
    {
        match next {
            Some(next) => self.replace_call(next),
            None => {
                let marks = at.point.marks;
                self.empty_call(at);
                self.settle(marks);
            }
        }
    }

    /// Of the innermost call the clauses from a number on are left.
    fn replace_call(&mut self, next: usize)
        requires { (p : OfPoint) × (c : OfClauses) × IsCalling self.old p c }
        ensures goes { (p : OfPoint) (c : OfClauses) → IsCalling self.old p c → (db : Database) → GoesOn db self.old self.new p c (Some next) }
        ensures place { place_of self.new ≡ place_of self.old }
        ensures basis { self.new.basis ≡ self.old.basis }
        ensures walks { walks_in self.new ≡ walks_in self.old }
    {
        let last = self.frames.len() - 1;
        leave_from(&mut self.frames[last], next);
    }

    /// Of the innermost call nothing is left.
    fn empty_call(&mut self, at: Calling)
        requires { IsCalling self.old at.point at.call }
        ensures goes { (db : Database) → GoesOn db self.old self.new at.point at.call None }
        ensures walks { walks_in self.new ≡ walks_in self.old }
        ensures same { self.new ≡ record self.old { frames = self.new.frames } }
        ensures within { IsWithin at.point.marks.env self.new.env }
        ensures older { AreOlder at.point.marks (reverse self.new.frames) }
    {
        let Some(_) = self.frames.pop() else {
            unreachable!()
        };
        count_up(&mut self.frames, 1);
    }

    /// Closes the innermost case, a call, and visits no goals.
    fn leave_call(&mut self)
        requires { HasClauses self.old }
        ensures cases { (db : Database) (c : Case) (below : List Case) → cases_of db self.old ≡ c ∷ below → cases_of db self.new ≡ below }
        ensures walks { walks_in self.new ≡ walks_in self.old }
        ensures same { self.new ≡ record self.old { frames = self.new.frames; goals = alone 0 } }
    {
        let Some(_) = self.frames.pop() else {
            unreachable!()
        };
        self.depth = self.depth.down(1);
        self.goals = Continuation::alone(ListId::EMPTY);
    }
}
