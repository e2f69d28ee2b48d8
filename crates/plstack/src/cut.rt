//! What a cut gives up, and what is given up where a list fails or a transaction ends with success.
ghost use Rattle.std.specs.Prelude.{◌≡◌, ◌+◌, ◌-◌, ◌<◌, ◌≤◌, ℕ, List, ◌∷◌, take, length, reverse, IfSome, OnErr, OnOk, vec_capacity, vec_len};
ghost use Rattle.plenv.specs.Env.{IsWithin};
ghost use Rattle.pllinks.specs.Links.{alone};
ghost use Rattle.pllinks.specs.declared.item.MarkerKind.TheVariants.{Never, Transact};
ghost use Rattle.plstack.specs.declared.first.First.TheVariants.{Marker};
ghost use Rattle.plstack.specs.Basis.{Ends};
ghost use Rattle.plevent.specs.declared.update.Update.{Update};
ghost use Rattle.plstack.specs.Places.{depth_of, size, Database, IsOwnSoFar};
ghost use Rattle.plstack.specs.Levels.{kinds_of, undoings, ChoiceIn, Precedes};
ghost use Rattle.plstack.specs.First.{IsFirst};
ghost use Rattle.plstack.specs.Frames.{AreOlder};
ghost use Rattle.plstack.specs.State.{cases_of, depth_in, goals_of, kinds_in, CountsUp, IsList};
ghost use Rattle.plstack.specs.Cutting.{ChoiceAt, Cuts, Drops, EmptiesFrom, GivesUp, IsGivenUp, NoneUndoes, Passes, Settles};

use crate::frame::{Frame, Marks};
use crate::hold::held_in;
use crate::open::{count_up, deeper};
use crate::stack::Stack;
use pllinks::level::Level;
use pllinks::link::Continuation;
use pllinks::list::ListId;
use std::alloc::AllocError;

/// The frame of a choice: its number, and the level below it.
#[derive(Clone, Copy)]
pub struct ChoiceFrame {
    pub at: usize,
    pub below: Level,
}

impl Stack {
    /// Gives up the choices down to a level, and visits a list.
    pub fn cut(&mut self, level: Level, list: Continuation) -> Result<(), AllocError>
        requires list { IsList self.old list }
        requires level { Precedes (kinds_in self.old) level (goals_of self.old list) }
        ensures ok { OnOk result (Cuts self.old self.new level list) }
        ensures err { OnErr result (self.new ≡ self.old) }
    {
        let frame = choice_at(&self.frames, self.depth, level);
        self.give_up(frame)?;
        self.visit(list);
        Ok(())
    }

    /// Gives up the choices down to the level of the marker that the visited list begins with, and visits no goals.
    pub fn give_up_to(&mut self, level: Level)
        requires { (rest : Continuation) × IsFirst self.old (Marker Never level rest) }
        ensures { Drops self.old self.new level }
    {
        let frame = choice_at(&self.frames, self.depth, level);
        let since = self.oldest_from(frame.at);
        self.drop_from(frame);
        self.settle_since(since);
    }

    /// Visits the list behind the marker of the innermost transaction or snapshot: that is open no more, and the choices down to the level that
    /// the marker names are given up.
    pub fn pass_transact(&mut self, level: Level, list: Continuation) -> Result<(), AllocError>
        requires { (own : ℕ) × IsFirst self.old (Marker (Transact level) own list) }
        ensures ok { OnOk result (Passes self.old self.new level list) }
        ensures own { OnOk result ((db : Database) (own : List Update) → IsOwnSoFar self.new.basis.latest db own → cases_of (record db { own = own }) self.new ≡ cases_of db self.new) }
        ensures err { OnErr result (self.new ≡ self.old) }
    {
        let frame = choice_at(&self.frames, self.depth, level);
        let since = self.oldest_from(frame.at);
        self.end_from(frame)?;
        self.settle_since(since);
        self.visit(list);
        Ok(())
    }

    /// Gives up the cases from a frame on: they are empty, and one more.
    #[tactic(auto, using(crate::proofs::Settling::gives_settled))]
    fn give_up(&mut self, frame: ChoiceFrame) -> Result<(), AllocError>
        requires at { frame.at < length self.old.frames }
        requires below { depth_of (reverse (take frame.at self.old.frames)) ≡ frame.below }
        requires none { NoneUndoes self.old.frames frame.at }
        ensures ok { OnOk result (GivesUp self.old self.new frame.at (depth_in self.old - frame.below + 1)) }
        ensures basis { self.new.basis ≡ self.old.basis }
        ensures goals { self.new.goals ≡ self.old.goals }
        ensures err { OnErr result (self.new ≡ self.old) }
    {
        let since = self.oldest_from(frame.at);
        self.empty_from(frame)?;
        self.settle_since(since);
        Ok(())
    }

    /// The marks of the first case from the frame of a number on that comes back to anything.
    fn oldest_from(&self, at: usize) -> Option<Marks>
        requires { at ≤ length self.now.frames }
        ensures { IfSome result (λ m. IsGivenUp self.now at m) }
    {
        let mut i = at;
        while i < self.frames.len() {
            if let Frame::Open(point, _) = &self.frames[i] {
                return Some(point.marks);
            }
            i += 1;
        }
        None
    }

    /// No more is old any more than what the newest case holds that comes back to anything, where cases from these marks on were given up.
    #[inline(always)]
    pub(crate) fn settle(&mut self, since: Marks)
        requires within { IsWithin since.env self.old.env }
        requires older { AreOlder since (reverse self.old.frames) }
        ensures { Settles self.old self.new }
    {
        let Some(left) = held_in(&self.frames) else {
            return;
        };
        let mark = left.marks.env;
        self.env.commit(since.env, mark.heap.cells, mark.slots);
        self.saved.truncate(left.marks.saved + left.kept as usize);
        let _ = self.env.heap();
    }

    /// The same, where none of them may have come back to anything.
    #[tactic(auto, using(crate::proofs::Settling::settles_refl))]
    fn settle_since(&mut self, since: Option<Marks>)
        requires within { IfSome since (λ m. IsWithin m.env self.old.env) }
        requires older { IfSome since (λ m. AreOlder m (reverse self.old.frames)) }
        ensures { Settles self.old self.new }
    {
        if let Some(since) = since {
            self.settle(since);
        }
    }

    /// Empties the cases from a frame on, and one case more.
    fn empty_from(&mut self, frame: ChoiceFrame) -> Result<(), AllocError>
        requires at { frame.at < length self.old.frames }
        requires below { depth_of (reverse (take frame.at self.old.frames)) ≡ frame.below }
        requires none { NoneUndoes self.old.frames frame.at }
        ensures ok { OnOk result (EmptiesFrom self.old self.new frame.at (depth_in self.old - frame.below + 1)) }
        ensures same { self.new ≡ record self.old { frames = self.new.frames } }
        ensures err { OnErr result (self.new ≡ self.old) }
    {
        let depth = deeper(self.depth, 1)?;
        empty_frames(&mut self.frames, frame.at, depth.cases_above(frame.below));
        self.depth = depth;
        Ok(())
    }

    /// Empties the cases from a frame on, and visits no goals.
    fn drop_from(&mut self, frame: ChoiceFrame)
        requires at { frame.at < length self.old.frames }
        requires below { depth_of (reverse (take frame.at self.old.frames)) ≡ frame.below }
        requires none { NoneUndoes self.old.frames frame.at }
        ensures empties { EmptiesFrom self.old self.new frame.at (depth_in self.old - frame.below) }
        ensures same { self.new ≡ record self.old { frames = self.new.frames; goals = alone 0 } }
    {
        let count = self.depth.cases_above(frame.below);
        empty_frames(&mut self.frames, frame.at, count);
        self.goals = Continuation::alone(ListId::EMPTY);
    }

    /// Empties the cases from a frame on, among which the innermost transaction is, and one case more, and visits no goals.
    fn end_from(&mut self, frame: ChoiceFrame) -> Result<(), AllocError>
        requires at { frame.at < length self.old.frames }
        requires below { depth_of (reverse (take frame.at self.old.frames)) ≡ frame.below }
        requires one { (k : ℕ) × (undoings (kinds_in self.old) ≡ k ∷ undoings (kinds_of (reverse (take frame.at self.old.frames)))) }
        ensures ok { OnOk result (EmptiesFrom self.old self.new frame.at (depth_in self.old - frame.below + 1)) }
        ensures basis { OnOk result (Ends self.old.basis self.new.basis) }
        ensures same { OnOk result (self.new ≡ record self.old { basis = self.new.basis; frames = self.new.frames; goals = alone 0 }) }
        ensures err { OnErr result (self.new ≡ self.old) }
    {
        let depth = deeper(self.depth, 1)?;
        empty_frames(&mut self.frames, frame.at, depth.cases_above(frame.below));
        self.depth = depth;
        let Some(start) = self.basis.starts.pop() else {
            unreachable!()
        };
        self.basis.latest.count = start;
        self.goals = Continuation::alone(ListId::EMPTY);
        Ok(())
    }
}

/// Puts so many choices with nothing left in the place of the frames from a number on.
fn empty_frames(frames: &mut Vec<Frame>, at: usize, count: u64)
    requires at { at < length frames.old.items }
    requires some { 0 < count }
    ensures { CountsUp count (reverse (take at frames.old.items)) (reverse frames.new.items) }
{
    frames.truncate(at);
    count_up(frames, count);
}

/// How many cases a frame is.
fn size_of(frame: &Frame) -> u64
    ensures { result ≡ size frame.now }
{
    match frame {
        Frame::Plain(n) => *n,
        Frame::Open(_, _) => 1,
    }
}

/// The frame of the case at a level, which is a choice.
/// This takes as many turns as there are frames above it.
fn choice_at(frames: &[Frame], depth: Level, level: Level) -> ChoiceFrame
    requires depth { depth ≡ depth_of (reverse frames.now) }
    requires choice { ChoiceIn (kinds_of (reverse frames.now)) level }
    ensures { ChoiceAt frames.now level result.at result.below }
{
    let mut at = frames.len();
    let mut below = depth;
    while below > level {
        at -= 1;
        below = below.down(size_of(&frames[at]));
    }
    ChoiceFrame { at, below }
}
