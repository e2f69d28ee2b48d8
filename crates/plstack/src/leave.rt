//! Catchers whose goal is done.
ghost use Rattle.std.specs.Prelude.{◌≡◌, ◌+◌, ◌<◌, ℕ, reverse, true, false, IfNone, IfSome};
ghost use Rattle.plenv.specs.Env.{IsWithin};
ghost use Rattle.pllinks.specs.declared.item.MarkerKind.TheVariants.{Until};
ghost use Rattle.plstack.specs.declared.first.First.TheVariants.{Marker};
ghost use Rattle.plstack.specs.declared.frame.Marks.{Marks};
ghost use Rattle.plstack.specs.First.{IsFirst};
ghost use Rattle.plstack.specs.Frames.{AreOlder};
ghost use Rattle.plstack.specs.Places.{depth_of};
ghost use Rattle.plstack.specs.State.{depth_in};
ghost use Rattle.plstack.specs.Cutting.{CatcherIn, HasCatcherAt, IsCatching, LeavesCatcher};

use crate::frame::{Frame, Handler, Marks, Resume};
use crate::open::{count_up, plain_in};
use crate::stack::Stack;
use pllinks::level::Level;
use pllinks::link::Continuation;

/// The frame of a catcher in which choices with nothing left stand alone: its number, its marks, and how many choices these are.
#[derive(Clone, Copy)]
pub struct CatcherFrame {
    pub at: usize,
    pub marks: Marks,
    pub inside: u64,
}

impl Stack {
    /// Visits the list behind the marker of a catcher, if choices with nothing left stand alone in it: whether they do. The catcher is one of these
    /// then.
    pub fn leave_catcher(&mut self, level: Level, list: Continuation) -> bool
        requires { IsFirst self.old (Marker Until level list) }
        ensures yes { result ≡ true → LeavesCatcher self.old self.new level list }
        ensures no { result ≡ false → self.new ≡ self.old }
        ensures only { result ≡ false → HasCatcherAt self.old level → ⊥ }
    {
        let Some(catcher) = catcher_in(&self.frames, self.depth, level) else {
            return false;
        };
        self.empty_catcher(catcher, list);
        self.settle(catcher.marks);
        true
    }

    /// Puts one more choice with nothing left in the place of a catcher and of those in it, and visits a list.
    fn empty_catcher(&mut self, catcher: CatcherFrame, list: Continuation)
        requires catcher { CatcherIn self.old.frames catcher.at catcher.marks catcher.inside }
        requires level { (level : ℕ) × IsFirst self.old (Marker Until level list) × (depth_in self.old ≡ catcher.inside + level + 1) }
        ensures leaves { (level : ℕ) → depth_in self.old ≡ catcher.inside + level + 1 → LeavesCatcher self.old self.new level list }
        ensures within { IsWithin catcher.marks.env self.new.env }
        ensures older { AreOlder catcher.marks (reverse self.new.frames) }
    {
        self.frames.truncate(catcher.at);
        count_up(&mut self.frames, catcher.inside + 1);
        self.goals = list;
    }
}

/// The marks of a catcher, if a frame is one.
fn marks_of(frame: &Frame) -> Option<Marks>
    ensures some { IfSome result (λ m. IsCatching frame.now m) }
    ensures none { IfNone result ((m : Marks) → IsCatching frame.now m → ⊥) }
{
    match frame {
        Frame::Open(point, Resume::Handle(Handler::Catch(_))) => Some(point.marks),
        _ => None,
    }
}

/// The frame of the catcher at a level, if choices with nothing left stand alone in it.
fn catcher_in(frames: &[Frame], depth: Level, level: Level) -> Option<CatcherFrame>
    requires depth { depth ≡ depth_of (reverse frames.now) }
    requires level { level < depth }
    ensures catcher { IfSome result (λ f. CatcherIn frames.now f.at f.marks f.inside) }
    ensures level { IfSome result (λ f. depth ≡ f.inside + level + 1) }
    ensures none { IfNone result ((i : ℕ) (m : Marks) (inside : ℕ) → CatcherIn frames.now i m inside → depth ≡ inside + level + 1 → ⊥) }
{
    let inside = plain_in(frames)?;
    if frames.len() < 2 || depth.cases_above(level) - 1 != inside {
        return None;
    }
    let at = frames.len() - 2;
    let marks = marks_of(&frames[at])?;
    Some(CatcherFrame { at, marks, inside })
}
