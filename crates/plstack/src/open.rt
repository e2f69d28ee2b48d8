//! Cases that are opened and closed.
ghost use Rattle.std.specs.Prelude.{◌≡◌, ◌+◌, ◌<◌, ◌≤◌, ◌^◌, ℕ, [], ◌∷◌, ◌++◌, List, reverse, IfNone, IfOk, IfSome, OnErr, OnOk, vec_capacity, vec_len};
ghost use Rattle.plsearch.specs.Types.{Choice};
ghost use Rattle.plevent.specs.declared.update.Update.{Update};
ghost use Rattle.plstack.specs.Places.{kept, Database, IsOwnSoFar};
ghost use Rattle.plstack.specs.Basis.{BasisBehind, IsShown};
ghost use Rattle.plstack.specs.Frames.{IsResume, IsSeen};
ghost use Rattle.plstack.specs.Levels.{sort_of, Undoing};
ghost use Rattle.plstack.specs.declared.frame.Frame.{Frame};
ghost use Rattle.plstack.specs.State.{beginning, cases_of, walks_in, CountsUp, EndsWalks, HasPlain, HasUndo, IsFit, IsList, Opens};
ghost use Rattle.plstack.specs.Opening.{around_cases, branch_of, closing, undo_of, ClosedAs, ClosesPlain, IsAround, OpensFrame, OpensIn};
ghost use Rattle.plstack.specs.declared.frame.Closed.TheVariants.{Transaction};

use crate::frame::{Around, Closed, Frame, Handler, Marks, Point, Resume};
use crate::stack::Stack;
use pllinks::level::Level;
use pllinks::link::Continuation;
use pllinks::list::ListId;
use plviews::View;
use std::alloc::AllocError;

impl Stack {
    /// Opens a choice with nothing left to try, in place if the newest case is such a one.
    pub fn open_plain(&mut self) -> Result<(), AllocError>
        ensures ok { OnOk result (Opens self.old self.new (Choice [] ∷ [])) }
        ensures err { OnErr result (self.new ≡ self.old) }
    {
        let depth = deeper(self.depth, 1)?;
        self.frames.reserve(1)?;
        count_up(&mut self.frames, 1);
        self.depth = depth;
        Ok(())
    }

    /// Opens a choice of one list.
    #[tactic(auto, using(crate::proofs::Opening::opens_branch))]
    pub fn open_branch(&mut self, list: Continuation) -> Result<(), AllocError>
        requires list { IsList self.old list }
        requires fits { IsFit self.old list }
        ensures ok { OnOk result (Opens self.old self.new (branch_of self.old list ∷ [])) }
        ensures err { OnErr result (self.new ≡ self.old) }
    {
        self.open_frame(list, Resume::List)
    }

    /// Opens a choice with nothing left to try, for the cut level of a goal, in other cases.
    #[tactic(auto, using(crate::proofs::Opening::opens_in_branch, crate::proofs::Opening::opens_in_handler, crate::proofs::Undoing::guards_stays))]
    pub fn open_run(&mut self, around: Around) -> Result<(), AllocError>
        requires { IsAround self.old around }
        ensures ok { OnOk result (Opens self.old self.new (Choice [] ∷ around_cases self.old around)) }
        ensures err { OnErr result (self.new ≡ self.old) }
    {
        match around {
            Around::Nothing => self.open_plain(),
            Around::Branch(list) => self.open_plain_in(list, Resume::List),
            Around::Handle(handling) => {
                self.open_plain_in(handling.list, Resume::Handle(handling.handler))
            }
        }
    }

    /// Opens a case that comes back to a list.
    pub(crate) fn open_frame(
        &mut self,
        list: Continuation,
        resume: Resume,
    ) -> Result<(), AllocError>
        requires list { IsList self.old list }
        requires fits { IsFit self.old list }
        requires resume { IsResume self.old.env.heap [] resume }
        requires none { kept resume ≡ 0 }
        requires stays { sort_of resume ≡ Undoing → ⊥ }
        requires seen { IsSeen self.old.basis.latest resume }
        ensures ok { OnOk result (OpensFrame self.old self.new list resume) }
        ensures err { OnErr result (self.new ≡ self.old) }
    {
        let depth = deeper(self.depth, 1)?;
        self.frames.reserve(1)?;
        let marks = Marks {
            env: self.env.mark(),
            links: self.links.len(),
            saved: self.saved.len(),
        };
        push_within(&mut self.frames, Frame::Open(Point { marks, list }, resume));
        self.depth = depth;
        Ok(())
    }

    /// Opens a case that comes back to a list, and in it a choice with nothing left to try.
    fn open_plain_in(&mut self, list: Continuation, resume: Resume) -> Result<(), AllocError>
        requires list { IsList self.old list }
        requires fits { IsFit self.old list }
        requires resume { IsResume self.old.env.heap [] resume }
        requires none { kept resume ≡ 0 }
        requires stays { sort_of resume ≡ Undoing → ⊥ }
        requires seen { IsSeen self.old.basis.latest resume }
        ensures ok { OnOk result (OpensIn self.old self.new list resume) }
        ensures err { OnErr result (self.new ≡ self.old) }
    {
        let depth = deeper(self.depth, 2)?;
        self.frames.reserve(2)?;
        let marks = Marks {
            env: self.env.mark(),
            links: self.links.len(),
            saved: self.saved.len(),
        };
        push_within(&mut self.frames, Frame::Open(Point { marks, list }, resume));
        count_up(&mut self.frames, 1);
        self.depth = depth;
        Ok(())
    }

    /// Opens the cases of a transaction or a snapshot that begins in a view, before a list, and visits no goals: a choice with nothing left to try,
    /// in it the case at which the transaction ends without success, and in that a choice for the cut level of its goal.
    pub fn open_transaction(&mut self, view: View, list: Continuation) -> Result<(), AllocError>
        requires view { IsShown self.old.basis.latest view }
        requires list { IsList self.old list }
        requires fits { IsFit self.old list }
        ensures ok { OnOk result (Opens (beginning view self.old) self.new (Choice [] ∷ undo_of self.old list ∷ Choice [] ∷ [])) }
        ensures err { OnErr result (self.new ≡ self.old) }
    {
        let depth = deeper(self.depth, 3)?;
        self.frames.reserve(3)?;
        self.basis.starts.reserve(1)?;
        let marks = Marks {
            env: self.env.mark(),
            links: self.links.len(),
            saved: self.saved.len(),
        };
        count_up(&mut self.frames, 1);
        let undo = Frame::Open(Point { marks, list }, Resume::Handle(Handler::Undo));
        push_within(&mut self.frames, undo);
        count_up(&mut self.frames, 1);
        push_start(&mut self.basis.starts, view.count);
        self.basis.latest = view;
        self.depth = depth;
        self.goals = Continuation::alone(ListId::EMPTY);
        Ok(())
    }

    /// Closes the innermost case, if one is open, and visits no goals. Where it ends a transaction, that is open no more.
    #[inline(always)]
    pub fn close(&mut self) -> Option<Closed>
        ensures some { IfSome result (λ c. (db : Database) → ClosedAs db self.old self.new c) }
        ensures none { IfNone result ((db : Database) → cases_of db self.old ≡ []) }
        ensures same { IfNone result (self.new ≡ self.old) }
        ensures walks { EndsWalks self.old self.new }
        ensures basis { IfSome result (λ c. BasisBehind c self.old.basis self.new.basis) }
        ensures undo { IfSome result (λ c. HasUndo self.old → c ≡ Transaction) }
        ensures own { IfSome result (λ c. (db : Database) (own : List Update) → IsOwnSoFar self.new.basis.latest db own → cases_of (record db { own = own }) self.new ≡ cases_of db self.new) }
    {
        let Some(frame) = self.frames.pop() else {
            return None;
        };
        self.depth = self.depth.down(1);
        self.goals = Continuation::alone(ListId::EMPTY);
        match frame {
            Frame::Open(_, resume) => {
                let closed = closed_as(resume);
                let Closed::Transaction = closed else {
                    return Some(closed);
                };
                let Some(start) = self.basis.starts.pop() else {
                    unreachable!()
                };
                self.basis.latest.count = start;
                Some(Closed::Transaction)
            }
            Frame::Plain(n) => {
                if n > 1 {
                    push_within(&mut self.frames, Frame::Plain(n - 1));
                    return Some(Closed::Choice);
                }
                Some(Closed::Choice)
            }
        }
    }

    /// Closes the innermost choices, which have nothing left to try, and visits no goals.
    pub fn close_plain(&mut self)
        requires { HasPlain self.old }
        ensures closes { ClosesPlain self.old self.new }
        ensures walks { walks_in self.new ≡ walks_in self.old }
        ensures basis { self.new.basis ≡ self.old.basis }
    {
        let Some(Frame::Plain(n)) = self.frames.pop() else {
            unreachable!()
        };
        self.depth = self.depth.down(n);
        self.goals = Continuation::alone(ListId::EMPTY);
    }
}

/// The level so many cases above a depth; an `Err` where there is none, as where memory gives out.
#[inline(always)]
pub(crate) fn deeper(depth: Level, cases: u64) -> Result<Level, AllocError>
    ensures ok { IfOk result (λ level. level ≡ depth + cases) }
    ensures err { OnErr result (2 ^ 64 ≤ depth + cases) }
{
    match depth.up(cases) {
        Some(level) => Ok(level),
        None => Err(AllocError),
    }
}

/// What is closed with a case that does this.
fn closed_as(resume: Resume) -> Closed
    ensures { result ≡ closing resume }
{
    match resume {
        Resume::Clauses(_) => Closed::Choice,
        Resume::Walk(_) => Closed::Choice,
        Resume::Answers(_) => Closed::Choice,
        Resume::List => Closed::Choice,
        Resume::Handle(Handler::Catch(_)) => Closed::Handler,
        Resume::Handle(Handler::Gather(_)) => Closed::Handler,
        Resume::Handle(Handler::Undo) => Closed::Transaction,
    }
}

/// One more item, where there is room for it.
pub(crate) fn push_within<T: Copy>(items: &mut Vec<T>, item: T)
    requires room { vec_len items.old < vec_capacity items.old }
    ensures is { items.new.items ≡ items.old.items ++ item ∷ [] }
    ensures len { vec_len items.new ≡ vec_len items.old + 1 }
    ensures capacity { vec_capacity items.old ≤ vec_capacity items.new }
{
    match items.push(item) {
        Ok(()) => {}
        Err(_) => unreachable!(),
    }
}

/// One more start, where there is room for it.
fn push_start(starts: &mut Vec<u64>, start: u64)
    requires room { vec_len starts.old < vec_capacity starts.old }
    ensures { starts.new.items ≡ starts.old.items ++ start ∷ [] }
{
    match starts.push(start) {
        Ok(()) => {}
        Err(_) => unreachable!(),
    }
}

/// So many more choices with nothing left, in place if the newest case is such a one.
#[inline(always)]
pub(crate) fn count_up(frames: &mut Vec<Frame>, n: u64)
    requires some { 0 < n }
    requires room { vec_len frames.old < vec_capacity frames.old }
    ensures counts { CountsUp n (reverse frames.old.items) (reverse frames.new.items) }
    ensures len { vec_len frames.new ≤ vec_len frames.old + 1 }
    ensures capacity { vec_capacity frames.old ≤ vec_capacity frames.new }
{
    match plain_in(frames) {
        Some(m) if m <= u64::MAX - n => {
            let last = frames.len() - 1;
            count_on(&mut frames[last], n);
        }
        _ => push_plain(frames, n),
    }
}

/// So many more in a frame of choices with nothing left.
fn count_on(frame: &mut Frame, n: u64)
    requires { (m : ℕ) × (frame.old ≡ Frame.Plain m) × (m + n < 2 ^ 64) }
    ensures { (m : ℕ) → frame.old ≡ Frame.Plain m → frame.new ≡ Frame.Plain (m + n) }
{
    if let Frame::Plain(m) = frame {
        *m += n;
    }
}

/// A new frame of so many choices with nothing left. A frame is wide, so that it is made apart.
#[inline(never)]
fn push_plain(frames: &mut Vec<Frame>, n: u64)
    requires some { 0 < n }
    requires room { vec_len frames.old < vec_capacity frames.old }
    ensures counts { CountsUp n (reverse frames.old.items) (reverse frames.new.items) }
    ensures len { vec_len frames.new ≡ vec_len frames.old + 1 }
    ensures capacity { vec_capacity frames.old ≤ vec_capacity frames.new }
{
    push_within(frames, Frame::Plain(n));
}

/// How many choices with nothing left the newest frame is, if it is such a one.
pub(crate) fn plain_in(frames: &[Frame]) -> Option<u64>
    ensures some { IfSome result (λ m. (rest : List Frame) × (frames.now ≡ rest ++ Frame.Plain m ∷ [])) }
    ensures none { IfNone result ((m : ℕ) (rest : List Frame) → frames.now ≡ rest ++ Frame.Plain m ∷ [] → ⊥) }
{
    match frames.last() {
        Some(Frame::Plain(m)) => Some(*m),
        Some(Frame::Open(_, _)) | None => None,
    }
}
