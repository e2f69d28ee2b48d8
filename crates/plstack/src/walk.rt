//! Walks over the clauses of a procedure: each is copied and tried in its turn (ISO/IEC 13211-1 7.7.7), and one that is to be erased (8.9.3)
//! is named.
ghost use Rattle.std.specs.Prelude.{◌≡◌, ◌+◌, ◌≤◌, length, reverse, true, false, None, Some, Option, IfOk, IfSome, IfNone, OnErr, OnOk};
ghost use Rattle.plterm.specs.Variables.{AllBelow};
ghost use Rattle.plsubst.specs.Subst.{bind, shift};
ghost use Rattle.plsubst.specs.Unify.{unify};
ghost use Rattle.plcells.specs.Putting.{standing};
ghost use Rattle.plcells.specs.Store.{value, AreValues, IsValue};
ghost use Rattle.plsearch.specs.Moves.{is_true as is_true_of, resolve};
ghost use Rattle.plsearch.specs.Lookups.{as_fact};
ghost use Rattle.plenv.specs.Env.{cut, IsEnv, IsMark, IsWithin};
ghost use Rattle.plenv.specs.Changes.{Keeps, Puts, Stays};
ghost use Rattle.plstack.specs.Places.{clause_by, Database};
ghost use Rattle.plstack.specs.Frames.{AreOlder, IsLeftSeen, IsSpotSeen};
ghost use Rattle.plstack.specs.State.{cases_of, depth_in, goals_of, place_of, walks_in, Extends, HasWalk, IsFit, IsList, IsState, RetriesBy, State};
ghost use Rattle.plstack.specs.Cutting.{Settles};
ghost use Rattle.plstack.specs.Trials.{ComesBack, IsMarked, IsOpened, ListsBody, PutsBody, PutsHead, Resolved};
ghost use Rattle.plstack.specs.Walks.{AtWalk, EndsPlain, Finds, FitsCall, GoesOn, IsWalking, LeftSame, Moves, OpensWalk};
ghost use Rattle.plstack.specs.declared.frame.Point.{Point as OfPoint};
ghost use Rattle.plstack.specs.declared.frame.Walk.{Walk as OfWalk};

use crate::copier::Copier;
use crate::frame::{Frame, Marks, Point, Resume, Spot, Use, Walk};
use crate::head::misses_head;
use crate::list::link_before;
use crate::open::count_up;
use crate::stack::Stack;
use plcells::cell::Cell;
use plclause::clause::Clause;
use plenv::env::Environment;
use plenv::slot::Mark;
use plevent::ClauseName;
use pllinks::item::Portion;
use pllinks::level::Level;
use pllinks::link::{Continuation, Link};
use pllinks::list::ListId;
use plterm::term::Term;
use plterm::walk::Shape;
use std::alloc::AllocError;

/// A clause that a goal is tried with: the clause, what is done with it, and its name if it is to be erased before the list goes on.
#[derive(Drop)]
pub struct Candidate {
    pub clause: Clause,
    pub uses: Use,
    pub erased: Option<ClauseName>,
}

/// The innermost case, a walk: what it comes back to, and the walk.
#[derive(Clone, Copy)]
pub struct Walking {
    pub point: Point,
    pub walk: Walk,
}

/// A goal that is resolved: its value, the mark of the environment at its call, the level of a clause's body, and the list behind the goal.
#[derive(Clone, Copy)]
pub struct Trial {
    pub goal: Cell,
    pub mark: Mark,
    pub level: Level,
    pub rest: Continuation,
}

/// A clause's head, and the values of the clause's variables.
#[derive(Drop)]
pub struct Head {
    pub values: Vec<Cell>,
    pub value: Cell,
}

/// A case of a call that was opened: the marks of the call, and whether no clause is left to try.
#[derive(Clone, Copy)]
pub struct Opened {
    pub marks: Marks,
    pub is_last: bool,
}

/// A place of a call that is visited: the name of its clause, if this is to be erased before the visited list goes on.
#[derive(Clone, Copy)]
pub struct Entered {
    pub erased: Option<ClauseName>,
}

/// Puts a clause's head, its variables new.
pub(crate) fn put_head(
    env: &mut Environment,
    copier: &mut Copier,
    clause: &Clause,
) -> Result<Head, AllocError>
    ensures ok { IfOk result (λ h. PutsHead env.old env.new clause.now h.values.items h.value) }
    ensures keeps { Keeps env.old env.new }
{
    let Ok(count) = u32::try_from(clause.variables()) else {
        return Err(AllocError);
    };
    let values = env.new_values(copier.alloc, count)?;
    let value = copier.put(env, clause.head(), &values)?;
    Ok(Head { values, value })
}

/// Puts a clause's body over the values of its variables: its value. Mostly it is the atom true.
fn put_told(
    env: &mut Environment,
    copier: &mut Copier,
    body: &Term,
    values: &[Cell],
) -> Result<Cell, AllocError>
    requires below { AllBelow (length values.now) body.now }
    requires values { AreValues env.old.heap values.now }
    ensures ok { IfOk result (λ v. Puts env.old env.new v (bind (standing env.old.heap values.now) body.now)) }
    ensures err { OnErr result (Stays env.old env.new) }
{
    if is_true(body) {
        copier.put_true(env)
    } else {
        copier.put(env, body, values)
    }
}

/// Puts the term `Head :- Body` of a clause, its variables new.
fn put_fact(env: &mut Environment, copier: &mut Copier, clause: &Clause) -> Result<Head, AllocError>
    ensures ok { IfOk result (λ h. PutsHead env.old env.new (as_fact clause.now) h.values.items h.value) }
    ensures keeps { Keeps env.old env.new }
{
    let head = put_head(env, copier, clause)?;
    let body = put_told(env, copier, clause.body(), &head.values)?;
    let value = copier.put_clause(env, head.value, body)?;
    Ok(Head {
        values: head.values,
        value,
    })
}

/// Puts what a goal is unified with to try a clause: for a call the clause's head, else the term `Head :- Body`.
fn put_tried(
    env: &mut Environment,
    copier: &mut Copier,
    next: &Candidate,
) -> Result<Head, AllocError>
    ensures ok { IfOk result (λ h. PutsHead env.old env.new (clause_by next.now.uses next.now.clause) h.values.items h.value) }
    ensures keeps { Keeps env.old env.new }
{
    match next.uses {
        Use::Call => put_head(env, copier, &next.clause),
        Use::Tell | Use::Erase => put_fact(env, copier, &next.clause),
    }
}

/// Puts a clause's body over the values of its variables, unless it is the atom true, which is no goal.
fn put_called(
    env: &mut Environment,
    copier: &mut Copier,
    clause: &Clause,
    values: &[Cell],
) -> Result<Option<Cell>, AllocError>
    requires many { length values.now ≡ clause.now.variables }
    requires fit { AreValues env.old.heap values.now }
    ensures ok { IfOk result (λ o. PutsBody env.old env.new (standing env.old.heap values.now) clause.now o) }
    ensures keeps { Keeps env.old env.new }
{
    if is_true(clause.body()) {
        return Ok(None);
    }
    let body = copier.put(env, clause.body(), values)?;
    Ok(Some(body))
}

/// Puts what is left to do where a clause fits, over the values of its variables: for a call its body, else nothing.
fn put_body(
    env: &mut Environment,
    copier: &mut Copier,
    next: &Candidate,
    values: &[Cell],
) -> Result<Option<Cell>, AllocError>
    requires many { length values.now ≡ next.now.clause.variables }
    requires fit { AreValues env.old.heap values.now }
    ensures ok { IfOk result (λ o. PutsBody env.old env.new (standing env.old.heap values.now) (clause_by next.now.uses next.now.clause) o) }
    ensures keeps { Keeps env.old env.new }
{
    match next.uses {
        Use::Call => put_called(env, copier, &next.clause, values),
        Use::Tell | Use::Erase => Ok(None),
    }
}

/// Whether a goal is seen to have no unifier with the head of a clause that it calls, without putting that.
fn is_apart(env: &Environment, goal: Cell, next: &Candidate) -> bool
    requires { IsValue env.now.heap goal }
    ensures { result ≡ true → unify (value env.now.heap goal) (shift env.now.count (clause_by next.now.uses next.now.clause).head) ≡ None }
{
    match next.uses {
        Use::Call => misses_head(env, &goal, &next.clause),
        Use::Tell | Use::Erase => false,
    }
}

/// Resolves a goal against a clause, its variables new: what is left to do, if they fit. Where they do not, or memory gives out,
/// an undo to a mark in use gives back what was changed.
fn try_copy(
    env: &mut Environment,
    copier: &mut Copier,
    goal: Cell,
    next: &Candidate,
) -> Result<Option<Option<Cell>>, AllocError>
    requires { IsValue env.old.heap goal }
    ensures some { IfOk result (λ o. IfSome o (λ body. Resolved env.old env.new (value env.old.heap goal) (clause_by next.now.uses next.now.clause) body)) }
    ensures none { IfOk result (λ o. IfNone o (unify (value env.old.heap goal) (shift env.old.count (clause_by next.now.uses next.now.clause).head) ≡ None)) }
    ensures keeps { Keeps env.old env.new }
{
    let head = put_tried(env, copier, next)?;
    if !env.unify_in_choice(goal, head.value)? {
        return Ok(None);
    }
    let body = put_body(env, copier, next, &head.values)?;
    Ok(Some(body))
}

/// Whether a body is the atom true, which is no goal.
fn is_true(body: &Term) -> bool
    ensures { result ≡ is_true_of body.now }
{
    match body.root().shape() {
        Shape::Atom(name) => name.as_str() == "true",
        Shape::Var(_) | Shape::Int(_) | Shape::Compound(_, _) => false,
    }
}

/// The list of a body's value before the list of a call; where there is no body that list alone.
fn list_body(
    links: &mut Vec<Link>,
    call: &Trial,
    body: Option<Cell>,
) -> Result<Continuation, AllocError>
    requires { call.now.rest.rest ≤ length links.old.items }
    ensures ok { IfOk result (λ list. ListsBody links.old.items links.new.items call.now.level body call.now.rest list) }
    ensures err { OnErr result (links.new.items ≡ links.old.items) }
{
    let Some(body) = body else {
        return Ok(call.rest);
    };
    let list = link_before(links, Portion::Goal(call.level, body), call.rest)?;
    Ok(list)
}

/// Resolves a goal against a clause, its variables new, and puts the body before the list behind the goal. Where they do not fit, all is as it was
/// but for more names; where memory gives out, an undo to the call's mark gives back what was changed.
fn first_step(
    env: &mut Environment,
    links: &mut Vec<Link>,
    copier: &mut Copier,
    call: &Trial,
    next: &Candidate,
) -> Result<Option<Continuation>, AllocError>
    requires goal { IsValue env.old.heap call.now.goal }
    requires mark { IsMark call.now.mark env.old }
    requires now { cut call.now.mark env.old ≡ env.old }
    requires rest { call.now.rest.rest ≤ length links.old.items }
    ensures some { IfOk result (λ o. IfSome o (λ list. (s : State) → IsState s → s.env ≡ env.old → s.links ≡ links.old.items → IsList s call.now.rest → FitsCall s (record s { env = env.new; links = links.new.items; goals = list }) call.now.level call.now.goal call.now.rest (clause_by next.now.uses next.now.clause))) }
    ensures none { IfOk result (λ o. IfNone o (unify (value env.old.heap call.now.goal) (shift env.old.count (clause_by next.now.uses next.now.clause).head) ≡ None)) }
    ensures back { IfOk result (λ o. IfNone o (ComesBack env.old env.new links.old.items links.new.items)) }
    ensures env { IfOk result (λ o. IfNone o (IsEnv env.new)) }
    ensures err { OnErr result (links.new.items ≡ links.old.items) }
    ensures keeps { Keeps env.old env.new }
{
    let Some(body) = try_copy(env, copier, call.goal, next)? else {
        let _ = env.heap();
        env.undo(call.mark);
        let _ = env.heap();
        return Ok(None);
    };
    let _ = env.heap();
    let list = list_body(links, call, body)?;
    Ok(Some(list))
}

/// The same, where all is as it was but for more names also where memory gives out.
fn resolve_clause(
    env: &mut Environment,
    links: &mut Vec<Link>,
    copier: &mut Copier,
    call: &Trial,
    next: &Candidate,
) -> Result<Option<Continuation>, AllocError>
    requires goal { IsValue env.old.heap call.now.goal }
    requires mark { IsMark call.now.mark env.old }
    requires now { cut call.now.mark env.old ≡ env.old }
    requires rest { call.now.rest.rest ≤ length links.old.items }
    ensures some { IfOk result (λ o. IfSome o (λ list. (s : State) → IsState s → s.env ≡ env.old → s.links ≡ links.old.items → IsList s call.now.rest → FitsCall s (record s { env = env.new; links = links.new.items; goals = list }) call.now.level call.now.goal call.now.rest (clause_by next.now.uses next.now.clause))) }
    ensures none { IfOk result (λ o. IfNone o (unify (value env.old.heap call.now.goal) (shift env.old.count (clause_by next.now.uses next.now.clause).head) ≡ None)) }
    ensures back { IfOk result (λ o. IfNone o (ComesBack env.old env.new links.old.items links.new.items)) }
    ensures env { IsEnv env.new }
    ensures err { OnErr result (ComesBack env.old env.new links.old.items links.new.items) }
{
    match first_step(env, links, copier, call, next) {
        Ok(list) => {
            let _ = env.heap();
            Ok(list)
        }
        Err(e) => {
            let _ = env.heap();
            env.undo(call.mark);
            Err(e)
        }
    }
}

impl Stack {
    /// Opens the case of a walk before a list.
    #[tactic(auto, using(crate::proofs::Walking::opens_walk))]
    pub fn open_walk(&mut self, walk: Walk, rest: Continuation) -> Result<(), AllocError>
        requires goal { IsValue self.old.env.heap walk.goal }
        requires seen { IsSpotSeen self.old.basis.latest walk.spot }
        requires rest { IsList self.old rest }
        requires fits { IsFit self.old rest }
        ensures ok { OnOk result (OpensWalk self.old self.new walk rest) }
        ensures err { OnErr result (self.new ≡ self.old) }
    {
        self.open_frame(rest, Resume::Walk(walk))
    }

    /// The innermost case, if it is a walk.
    pub fn walking(&self) -> Option<Walking>
        ensures some { IfSome result (λ at. IsWalking self.now at.point at.walk) }
        ensures none { IfNone result (HasWalk self.now → ⊥) }
        ensures seen { IfSome result (λ at. IsSpotSeen self.now.basis.latest at.walk.spot) }
    {
        match self.frames.last() {
            Some(Frame::Open(point, Resume::Walk(walk))) => Some(Walking {
                point: *point,
                walk: *walk,
            }),
            _ => None,
        }
    }

    /// Goes back to where the innermost case was opened, which is a walk and stays open.
    pub fn rewind_walk(&mut self) -> Walking
        requires { HasWalk self.old }
        ensures cases { (db : Database) → cases_of db self.new ≡ cases_of db self.old }
        ensures at { AtWalk self.new result.point result.walk }
        ensures seen { IsSpotSeen self.new.basis.latest result.walk.spot }
        ensures walks { walks_in self.new ≡ walks_in self.old }
        ensures basis { self.new.basis ≡ self.old.basis }
    {
        let Some(at) = self.walking() else {
            unreachable!()
        };
        let marks = at.point.marks;
        self.env.undo(marks.env);
        self.links.truncate(marks.links);
        self.saved.truncate(marks.saved);
        self.goals = Continuation::alone(ListId::EMPTY);
        at
    }

    /// Tries the next clause of the innermost case, a walk where all is as it was at its opening: what is to be erased before the visited list goes
    /// on, if it fits. The walk stands then behind it, or nothing is left of it. After an `Err` the cases are as they were.
    pub fn try_walk(
        &mut self,
        next: &Candidate,
        rest: Option<Spot>,
    ) -> Result<Option<Entered>, AllocError>
        requires at { (p : OfPoint) × (w : OfWalk) × AtWalk self.old p w }
        requires seen { IsLeftSeen self.old.basis.latest rest }
        ensures some { IfOk result (λ o. IfSome o (λ entered. (p : OfPoint) (w : OfWalk) → AtWalk self.old p w → (db : Database) → Finds db w (value self.old.env.heap w.goal) next.now rest → RetriesBy db self.old self.new entered.erased)) }
        ensures none { IfOk result (λ o. IfNone o ((p : OfPoint) (w : OfWalk) → AtWalk self.old p w → (db : Database) → Finds db w (value self.old.env.heap w.goal) next.now rest → cases_of db self.new ≡ cases_of db self.old)) }
        ensures last { IfOk result (λ o. IfNone o (rest ≡ None → (db : Database) → EndsPlain db self.new)) }
        ensures at_next { IfOk result (λ o. IfNone o ((p : OfPoint) (w : OfWalk) → AtWalk self.old p w → (spot : Spot) → rest ≡ Some spot → AtWalk self.new p (record w { spot = spot }))) }
        ensures values { IfOk result (λ o. IfNone o ((p : OfPoint) (w : OfWalk) → AtWalk self.old p w → (spot : Spot) → rest ≡ Some spot → value self.new.env.heap w.goal ≡ value self.old.env.heap w.goal)) }
        ensures moves { OnOk result ((p : OfPoint) (w : OfWalk) → AtWalk self.old p w → Moves self.old self.new w rest) }
        ensures err { OnErr result ((db : Database) → cases_of db self.new ≡ cases_of db self.old) }
        ensures err_walks { OnErr result (walks_in self.new ≡ walks_in self.old) }
        ensures basis { self.new.basis ≡ self.old.basis }
    {
        let Some(at) = self.walking() else {
            unreachable!()
        };
        if is_apart(&self.env, at.walk.goal, next) {
            self.go_on_walk(rest);
            return Ok(None);
        }
        let level = self.depth.down(1);
        let fits = self.fit_walk(level, next)?;
        self.go_on_walk(rest);
        if !fits {
            return Ok(None);
        }
        let erased = next.erased;
        Ok(Some(Entered { erased }))
    }

    /// Resolves the goal of the innermost case, a walk, against a clause: whether they fit. The clause's body is visited then before the list
    /// behind the goal, and the unifier is put into all. Else all stands for what it did.
    fn fit_walk(&mut self, level: Level, next: &Candidate) -> Result<bool, AllocError>
        requires at { (p : OfPoint) × (w : OfWalk) × AtWalk self.old p w }
        requires level { depth_in self.old ≡ level + 1 }
        ensures yes { IfOk result (λ fits. fits ≡ true → (p : OfPoint) (w : OfWalk) → AtWalk self.old p w → resolve level self.old.env.count (value self.old.env.heap w.goal) (goals_of self.old p.list) (clause_by next.now.uses next.now.clause) ≡ Some (place_of self.new)) }
        ensures no { IfOk result (λ fits. fits ≡ false → (p : OfPoint) (w : OfWalk) → AtWalk self.old p w → unify (value self.old.env.heap w.goal) (shift self.old.env.count (clause_by next.now.uses next.now.clause).head) ≡ None) }
        ensures left { OnOk result ((p : OfPoint) (w : OfWalk) → AtWalk self.old p w → LeftSame self.old self.new p w) }
        ensures at { IfOk result (λ fits. fits ≡ false → (p : OfPoint) (w : OfWalk) → AtWalk self.old p w → AtWalk self.new p w) }
        ensures value { IfOk result (λ fits. fits ≡ false → (p : OfPoint) (w : OfWalk) → AtWalk self.old p w → value self.new.env.heap w.goal ≡ value self.old.env.heap w.goal) }
        ensures cases { (db : Database) → cases_of db self.new ≡ cases_of db self.old }
        ensures frames { self.new.frames ≡ self.old.frames }
        ensures basis { self.new.basis ≡ self.old.basis }
    {
        let Some(at) = self.walking() else {
            unreachable!()
        };
        let call = Trial {
            goal: at.walk.goal,
            mark: at.point.marks.env,
            level,
            rest: at.point.list,
        };
        match resolve_clause(
            &mut self.env,
            &mut self.links,
            &mut self.copier,
            &call,
            next,
        )? {
            Some(list) => {
                self.goals = list;
                Ok(true)
            }
            None => Ok(false),
        }
    }

    /// The innermost case, a walk, stands at another spot, or nothing is left of it.
    pub fn go_on_walk(&mut self, next: Option<Spot>)
        requires walking { (p : OfPoint) × (w : OfWalk) × IsWalking self.old p w }
        requires seen { IsLeftSeen self.old.basis.latest next }
        ensures goes { (p : OfPoint) (w : OfWalk) → IsWalking self.old p w → (db : Database) → GoesOn db self.old self.new p w next }
        ensures moves { (p : OfPoint) (w : OfWalk) → IsWalking self.old p w → Moves self.old self.new w next }
        ensures place { place_of self.new ≡ place_of self.old }
        ensures same { (spot : Spot) → next ≡ Some spot → self.new ≡ record self.old { frames = self.new.frames } }
        ensures walking { (p : OfPoint) (w : OfWalk) → IsWalking self.old p w → (spot : Spot) → next ≡ Some spot → IsWalking self.new p (record w { spot = spot }) }
        ensures basis { self.new.basis ≡ self.old.basis }
    {
        match next {
            Some(spot) => self.replace_walk(spot),
            None => self.end_walk(),
        }
    }

    /// Of the innermost case, a walk, nothing is left, and no more is old any more than what is held.
    fn end_walk(&mut self)
        requires { (p : OfPoint) × (w : OfWalk) × IsWalking self.old p w }
        ensures goes { (p : OfPoint) (w : OfWalk) → IsWalking self.old p w → (db : Database) → GoesOn db self.old self.new p w None }
        ensures moves { (p : OfPoint) (w : OfWalk) → IsWalking self.old p w → Moves self.old self.new w None }
        ensures place { place_of self.new ≡ place_of self.old }
        ensures basis { self.new.basis ≡ self.old.basis }
    {
        let Some(at) = self.walking() else {
            unreachable!()
        };
        self.empty_walk();
        self.settle(at.point.marks);
    }

    /// The innermost case, a walk, stands at another spot.
    fn replace_walk(&mut self, spot: Spot)
        requires walking { (p : OfPoint) × (w : OfWalk) × IsWalking self.old p w }
        requires seen { IsSpotSeen self.old.basis.latest spot }
        ensures goes { (p : OfPoint) (w : OfWalk) → IsWalking self.old p w → (db : Database) → GoesOn db self.old self.new p w (Some spot) }
        ensures moves { (p : OfPoint) (w : OfWalk) → IsWalking self.old p w → Moves self.old self.new w (Some spot) }
        ensures walking { (p : OfPoint) (w : OfWalk) → IsWalking self.old p w → IsWalking self.new p (record w { spot = spot }) }
        ensures same { self.new ≡ record self.old { frames = self.new.frames } }
    {
        let last = self.frames.len() - 1;
        stand_at(&mut self.frames[last], spot);
    }

    /// Of the innermost case, a walk, nothing is left.
    fn empty_walk(&mut self)
        requires { (p : OfPoint) × (w : OfWalk) × IsWalking self.old p w }
        ensures goes { (p : OfPoint) (w : OfWalk) → IsWalking self.old p w → (db : Database) → GoesOn db self.old self.new p w None }
        ensures moves { (p : OfPoint) (w : OfWalk) → IsWalking self.old p w → Moves self.old self.new w None }
        ensures same { self.new ≡ record self.old { frames = self.new.frames } }
        ensures within { (p : OfPoint) (w : OfWalk) → IsWalking self.old p w → IsWithin p.marks.env self.new.env }
        ensures older { (p : OfPoint) (w : OfWalk) → IsWalking self.old p w → AreOlder p.marks (reverse self.new.frames) }
    {
        let Some(_) = self.frames.pop() else {
            unreachable!()
        };
        count_up(&mut self.frames, 1);
    }

    /// How much there is, as marks in use.
    pub(crate) fn marks(&mut self) -> Marks
        ensures marked { IsMarked self.new result }
        ensures stays { Extends self.old self.new }
        ensures count { self.new.env.count ≡ self.old.env.count }
    {
        let env = self.env.mark();
        Marks {
            env,
            links: self.links.len(),
            saved: self.saved.len(),
        }
    }

    /// No more is old any more than what is held, where a call has no clause left to try.
    pub(crate) fn settle_opened(&mut self, opened: Opened)
        requires { opened.is_last ≡ true → IsOpened self.old opened }
        ensures { Settles self.old self.new }
    {
        if opened.is_last {
            self.settle(opened.marks);
        }
    }
}

/// The walk of a frame stands at another spot.
fn stand_at(frame: &mut Frame, spot: Spot)
    requires { (p : OfPoint) × (w : OfWalk) × (frame.old ≡ Frame.Open p (Resume.Walk w)) }
    ensures { (p : OfPoint) (w : OfWalk) → frame.old ≡ Frame.Open p (Resume.Walk w) → frame.new ≡ Frame.Open p (Resume.Walk (record w { spot = spot })) }
{
    if let Frame::Open(_, Resume::Walk(walk)) = frame {
        walk.spot = spot;
    }
}
