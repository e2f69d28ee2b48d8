//! Coming back to open cases.
ghost use Rattle.std.specs.Prelude.{◌≡◌, ◌∷◌, drop, reverse};
ghost use Rattle.plenv.specs.Env.{IsWithin};
ghost use Rattle.plstack.specs.Places.{Database};
ghost use Rattle.plstack.specs.Frames.{AreOlder};
ghost use Rattle.plstack.specs.Levels.{Choosing, FitsIn};
ghost use Rattle.plstack.specs.State.{cases_of, goals_of, kinds_in, walks_in, AtHandler, Catches, Gathers, HasBranch, HasCatcher, HasGatherer, HasHandler, IsList, Leaves, Recovers, Retries};

use crate::frame::{Frame, Handling, Marks, Resume};
use crate::open::{count_up, push_within};
use crate::stack::Stack;
use pllinks::link::Continuation;
use pllinks::list::ListId;

impl Stack {
    /// Comes back to the innermost choice, which has one list to be tried: visits it.
    pub fn take_branch(&mut self)
        requires { HasBranch self.old }
        ensures retries { (db : Database) → Retries db self.old self.new }
        ensures basis { self.new.basis ≡ self.old.basis }
        ensures walks { walks_in self.new ≡ walks_in self.old }
    {
        let marks = self.come_back();
        self.settle(marks);
    }

    /// Visits the list of the innermost choice: its marks.
    fn come_back(&mut self) -> Marks
        requires { HasBranch self.old }
        ensures retries { (db : Database) → Retries db self.old self.new }
        ensures basis { self.new.basis ≡ self.old.basis }
        ensures walks { walks_in self.new ≡ walks_in self.old }
        ensures within { IsWithin result.env self.new.env }
        ensures older { AreOlder result (reverse self.new.frames) }
    {
        let Some(Frame::Open(point, resume)) = self.frames.pop() else {
            unreachable!()
        };
        let Resume::List = resume else { unreachable!() };
        self.env.undo(point.marks.env);
        self.links.truncate(point.marks.links);
        self.saved.truncate(point.marks.saved);
        count_up(&mut self.frames, 1);
        self.goals = point.list;
        point.marks
    }

    /// Goes back to where the innermost case was opened, which is a handler of a ball or of what was kept and stays open: the handler, and the
    /// list behind its goal.
    pub fn rewind(&mut self) -> Handling
        requires { HasHandler self.old }
        ensures cases { (db : Database) → cases_of db self.new ≡ cases_of db self.old }
        ensures at { AtHandler self.new result.handler result.list }
        ensures catches { HasCatcher self.old → Catches result.handler }
        ensures gathers { HasGatherer self.old → Gathers result.handler }
        ensures basis { self.new.basis ≡ self.old.basis }
        ensures walks { walks_in self.new ≡ walks_in self.old }
    {
        let Some(Frame::Open(point, resume)) = self.frames.pop() else {
            unreachable!()
        };
        let Resume::Handle(handler) = resume else {
            unreachable!()
        };
        self.env.undo(point.marks.env);
        self.links.truncate(point.marks.links);
        self.saved.truncate(point.marks.saved);
        self.goals = Continuation::alone(ListId::EMPTY);
        let list = point.list;
        let kept = handler;
        push_within(&mut self.frames, Frame::Open(point, Resume::Handle(kept)));
        Handling { handler, list }
    }

    /// Visits a list in a choice with nothing left, in place of the innermost case, which is a handler of a ball or of what was kept.
    #[tactic(auto, using(crate::proofs::Returning::recovers_settled))]
    pub fn recover(&mut self, list: Continuation)
        requires handler { HasHandler self.old }
        requires list { IsList self.old list }
        requires fits { FitsIn (Choosing ∷ drop 1 (kinds_in self.old)) (goals_of self.old list) }
        ensures recovers { Recovers self.old self.new list }
        ensures basis { self.new.basis ≡ self.old.basis }
        ensures walks { walks_in self.new ≡ walks_in self.old }
    {
        let marks = self.leave_handler(list);
        self.settle(marks);
    }

    /// Closes the innermost case, which is a handler of a ball or of what was kept, and visits a list.
    #[tactic(auto, using(crate::proofs::Returning::leaves_settled))]
    pub fn leave(&mut self, list: Continuation)
        requires handler { HasHandler self.old }
        requires list { IsList self.old list }
        requires fits { FitsIn (drop 1 (kinds_in self.old)) (goals_of self.old list) }
        ensures leaves { Leaves self.old self.new list }
        ensures basis { self.new.basis ≡ self.old.basis }
        ensures walks { walks_in self.new ≡ walks_in self.old }
    {
        let marks = self.close_handler(list);
        self.settle(marks);
    }

    /// Takes off the innermost case, which is a handler of a ball or of what was kept, and visits a list: the handler's marks.
    fn close_handler(&mut self, list: Continuation) -> Marks
        requires handler { HasHandler self.old }
        requires list { IsList self.old list }
        requires fits { FitsIn (drop 1 (kinds_in self.old)) (goals_of self.old list) }
        ensures leaves { Leaves self.old self.new list }
        ensures basis { self.new.basis ≡ self.old.basis }
        ensures walks { walks_in self.new ≡ walks_in self.old }
        ensures within { IsWithin result.env self.new.env }
        ensures older { AreOlder result (reverse self.new.frames) }
    {
        let Some(Frame::Open(point, resume)) = self.frames.pop() else {
            unreachable!()
        };
        let Resume::Handle(_) = resume else {
            unreachable!()
        };
        self.depth = self.depth.down(1);
        self.goals = list;
        point.marks
    }

    /// Puts a choice with nothing left in the place of the innermost case, which is a handler of a ball or of what was kept, and visits a list: the
    /// handler's marks.
    fn leave_handler(&mut self, list: Continuation) -> Marks
        requires handler { HasHandler self.old }
        requires list { IsList self.old list }
        requires fits { FitsIn (Choosing ∷ drop 1 (kinds_in self.old)) (goals_of self.old list) }
        ensures recovers { Recovers self.old self.new list }
        ensures basis { self.new.basis ≡ self.old.basis }
        ensures walks { walks_in self.new ≡ walks_in self.old }
        ensures within { IsWithin result.env self.new.env }
        ensures older { AreOlder result (reverse self.new.frames) }
    {
        let Some(Frame::Open(point, resume)) = self.frames.pop() else {
            unreachable!()
        };
        let Resume::Handle(_) = resume else {
            unreachable!()
        };
        count_up(&mut self.frames, 1);
        self.goals = list;
        point.marks
    }
}
