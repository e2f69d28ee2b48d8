//! Goal lists and slots that nothing holds.
ghost use Rattle.std.specs.Prelude.{◌≡◌, ◌↔◌, IsTrue, reverse};
ghost use Rattle.plstack.specs.Holding.{held};
ghost use Rattle.plstack.specs.State.{depth_in};
ghost use Rattle.plstack.specs.Giving.{GivesBack, IsLow, IsShort};

use crate::hold::links_held_in;
use crate::list::drop_below;
use crate::stack::Stack;
use pllinks::level::Level;
use pllinks::link::{Continuation, slots_of};

impl Stack {
    /// Whether the visited list goes on where a list does, in a clause whose slots end at a place, and the cases are open up to a level. Where a
    /// goal of that clause was selected before that list, in as many cases, what it left can wait for the clause's next call.
    #[inline(always)]
    pub fn goes_on(&self, list: &Continuation, end: u32, depth: Level) -> bool
        ensures { IsTrue result ↔ (self.now.goals.run.position ≡ list.now.run.position) × (self.now.goals.run.«end» ≡ end) × (depth_in self.now ≡ depth) }
    {
        let run = &self.goals.run;
        run.position == list.run.position && run.end == end && self.depth() == depth
    }

    /// Gives back lists and slots that neither the open cases nor the list that is visited hold.
    #[tactic(auto, using(crate::proofs::Giving::back_trans))]
    pub fn give_back(&mut self)
        ensures back { GivesBack self.old self.new }
        ensures low { IsLow self.new }
        ensures short { IsShort self.new }
    {
        self.give_back_lists();
        self.give_back_slots();
        self.lower_slots();
    }

    /// Gives back lists that neither the open cases nor the list that is visited hold, if the newest few frames say it. Where the visited list
    /// begins with the last link, and what is behind it with the link before, there are none.
    #[tactic(auto, using(crate::proofs::Giving::back_refl, crate::proofs::Giving::back_trans))]
    fn give_back_lists(&mut self)
        ensures { GivesBack self.old self.new }
    {
        let count = self.links.len();
        let is_last = self.goals.rest.extent() == count;
        if is_last && (count < 2 || self.links[count - 1].next.extent() > count - 2) {
            return;
        }
        let Some(floor) = links_held_in(&self.frames) else {
            return;
        };
        self.give_back_above(floor);
        self.give_back_below(floor);
    }

    /// Gives back the lists behind those that are held.
    fn give_back_above(&mut self, floor: usize)
        requires { floor ≡ (held (reverse self.old.frames)).marks.links }
        ensures { GivesBack self.old self.new }
    {
        let keep = self.goals.rest.extent().max(floor);
        if keep < self.links.len() {
            self.links.truncate(keep);
        }
    }

    /// Gives back the list below the last one, if the last one is visited and stands before an older list.
    fn give_back_below(&mut self, floor: usize)
        requires { floor ≡ (held (reverse self.old.frames)).marks.links }
        ensures { GivesBack self.old self.new }
    {
        let count = self.links.len();
        if count < 2 || self.goals.rest.extent() != count {
            return;
        }
        let below = count - 2;
        if floor > below || self.links[count - 1].next.extent() > below {
            return;
        }
        drop_below(&mut self.links);
        self.goals.rest = self.goals.rest.previous();
    }

    /// Gives back the slots that the visited list does not ask for.
    fn give_back_slots(&mut self)
        ensures back { GivesBack self.old self.new }
        ensures short { IsShort self.new }
    {
        let asked = slots_of(&self.links, self.goals.rest);
        self.env.release(self.goals.run.end.max(asked));
        let _ = self.env.heap();
    }

    /// Moves the slots of the visited goals down to where neither the rest of the list nor a mark in use asks for any.
    fn lower_slots(&mut self)
        requires { IsShort self.old }
        ensures back { GivesBack self.old self.new }
        ensures low { IsLow self.new }
        ensures short { IsShort self.new }
    {
        let asked = slots_of(&self.links, self.goals.rest);
        let run = self.goals.run;
        let base = self.env.lower(asked, run.base);
        self.goals.run.base = base;
        self.goals.run.end = run.end - (run.base - base);
        let _ = self.env.heap();
    }
}
