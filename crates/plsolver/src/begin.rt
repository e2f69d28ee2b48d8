//! Views that are taken: a look-up goes on in one, or a transaction or a snapshot begins on it.

ghost use Rattle.std.specs.Prelude.{◌≡◌, ◌≤◌, [], ◌∷◌, ◌++◌, OnErr, OnOk};
ghost use Rattle.plevent.specs.Search.{Seen};
ghost use Rattle.plsearch.specs.Solving.{TakesOne};
ghost use Rattle.plstack.specs.State.{walks_in};
ghost use Rattle.plstore.specs.Looking.{Views};
ghost use Rattle.plmachine.specs.Machine.{SeeksAnew};
ghost use Rattle.plmachine.specs.declared.machine.Question.TheVariants.{Look as LookOf};
ghost use Rattle.plsolver.specs.Solver.{Asks, IsOf, Stays, latest_view, rest_of, TakesView, WaitsForView};
ghost use Rattle.plprogram.specs.Program.{Program as Given};

use crate::progress::Progress;
use plcells::cell::Cell;
use plevent::JournalPlace;
use plmachine::machine::{Lookup, Mode, Question};
use pltx::Isolation;
use plviews::View;
use std::alloc::AllocError;

impl Progress {
    /// The place of the view that is waited for.
    pub fn refreshed(&mut self, g: JournalPlace) -> Result<(), AllocError>
        requires of { (P : Given) × IsOf P self.old.machine }
        requires waits { WaitsForView self.old }
        requires latest { latest_view self.old ≤ g }
        ensures ok { (P : Given) → IsOf P self.old.machine → OnOk result ((v : Views) → TakesOne (Seen g (v g)) (rest_of P v self.old) self.old.used (rest_of P v self.new) self.new.used) }
        ensures of { (P : Given) → IsOf P self.old.machine → IsOf P self.new.machine }
        ensures latest { OnOk result (latest_view self.new ≡ g) }
        ensures places { OnOk result (self.new.places.items ≡ self.old.places.items ++ g ∷ []) }
        ensures limit { self.new.limit ≡ self.old.limit }
        ensures err { (P : Given) → IsOf P self.old.machine → OnErr result (Stays P self.old self.new) }
        ensures walks { walks_in self.new.machine.stack ≡ walks_in self.old.machine.stack }
        ensures seeks { OnOk result (SeeksAnew self.new.machine.mode) }
    {
        self.places.reserve(1)?;
        self.take_view(g)?;
        match self.places.push(g) {
            Ok(()) => Ok(()),
            Err(_) => unreachable!(),
        }
    }

    /// What waited for a view goes on with that of a place.
    fn take_view(&mut self, g: JournalPlace) -> Result<(), AllocError>
        requires of { (P : Given) × IsOf P self.old.machine }
        requires waits { WaitsForView self.old }
        requires latest { latest_view self.old ≤ g }
        ensures ok { (P : Given) → IsOf P self.old.machine → OnOk result (TakesView P self.old self.new g) }
        ensures of { (P : Given) → IsOf P self.old.machine → IsOf P self.new.machine }
        ensures frame { self.new ≡ record self.old { machine = self.new.machine } }
        ensures err { (P : Given) → IsOf P self.old.machine → OnErr result (Stays P self.old self.new) }
        ensures walks { walks_in self.new.machine.stack ≡ walks_in self.old.machine.stack }
        ensures seeks { OnOk result (SeeksAnew self.new.machine.mode) }
    {
        let Mode::Ask(question) = &self.machine.mode else {
            unreachable!()
        };
        match question {
            Question::Look(lookup) => {
                let lookup = *lookup;
                self.look_in(lookup, g)
            }
            Question::Begin(kind, goal) => {
                let (kind, goal) = (*kind, *goal);
                self.machine.begin_at(kind, g, goal)
            }
            Question::Await(_, _) | Question::Erase(_) => unreachable!(),
        }
    }

    /// A look-up goes on in the view of a place.
    fn look_in(&mut self, lookup: Lookup, g: JournalPlace) -> Result<(), AllocError>
        requires of { (P : Given) × IsOf P self.old.machine }
        requires looks { Asks self.old (LookOf lookup) }
        requires latest { latest_view self.old ≤ g }
        ensures ok { (P : Given) → IsOf P self.old.machine → OnOk result (TakesView P self.old self.new g) }
        ensures of { (P : Given) → IsOf P self.old.machine → IsOf P self.new.machine }
        ensures frame { self.new ≡ record self.old { machine = self.new.machine } }
        ensures err { (P : Given) → IsOf P self.old.machine → OnErr result (Stays P self.old self.new) }
        ensures walks { walks_in self.new.machine.stack ≡ walks_in self.old.machine.stack }
        ensures seeks { OnOk result (SeeksAnew self.new.machine.mode) }
    {
        let view = View {
            place: g.get(),
            count: 0,
        };
        let find = self.machine.find_of(lookup, view)?;
        self.machine.stack.sees(view);
        self.machine.mode = Mode::Find(find);
        Ok(())
    }
}
