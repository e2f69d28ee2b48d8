//! The own updates of a thread on top of a place of the journal.
ghost use Rattle.std.specs.Prelude.{◌≡◌, true, false, [], ◌∷◌, length, IfOk, OnErr, OnOk, Some};
ghost use Rattle.plevent.specs.Alive.{change_if};
ghost use Rattle.pltx.specs.Own.{all_made, any_open, begun, ended, ending, erased_in, made, nothing, target_at};
ghost use Rattle.pltx.specs.Walks.{AllErasedApart};
ghost use Rattle.pltx.specs.declared.target.Erasure.TheVariants.{Erased, Gone};
ghost use Rattle.pltx.specs.declared.level.Level.{Level};
ghost use Rattle.plviews.specs.Layers.{bottom, Grows};

use crate::view::View;
use plevent::{ClauseName, JournalPlace, Update};
use pltx::{Ended, Erasure, Isolation, Own, Target};
use std::alloc::{AllocError, Global};
use std::marker::Model;

/// The own updates of a thread's open transactions, and the place of the journal at which the outermost one was begun last.
#[derive(Drop)]
pub struct Layer {
    own: Own,
    place: Option<JournalPlace>,
}

impl Model for Layer {
    ghost use Rattle.plviews.specs.Layers.{Layered, layer_code, IsLayer};

    ghost Value = { Layered };

    ghost coded = { layer_code };

    ghost view = { λ a. record { own = a.own; place = a.place } };

    ghost invariant = { λ a. IsLayer (record { own = a.own; place = a.place }) };
}

impl Layer {
    /// Nothing is open, and nothing was.
    pub fn new(alloc: Global) -> Layer
        ensures { result ≡ bottom }
    {
        Layer {
            own: Own::new(alloc),
            place: None,
        }
    }

    /// Whether a transaction or snapshot is open.
    pub fn is_open(&self) -> bool
        ensures { result ≡ any_open self.now.own }
    {
        self.own.depth() > 0
    }

    /// The place at which the outermost one was begun last, if one was.
    pub fn place(&self) -> Option<JournalPlace>
        ensures is { result ≡ self.now.place }
        ensures closed { any_open self.now.own ≡ false → self.now.own ≡ nothing }
    {
        self.place
    }

    /// The own updates.
    pub fn own(&self) -> &Own
        ensures is { result.now ≡ self.now.own }
        ensures apart { AllErasedApart self.now.own.base self.now.own.updates }
        ensures closed { any_open self.now.own ≡ false → self.now.own ≡ nothing }
    {
        &self.own
    }

    /// What a call sees now, inside of what is open.
    pub fn view(&self) -> View
        requires { any_open self.now.own ≡ true }
        ensures is { result ≡ record { place = self.now.own.base; count = length self.now.own.updates } }
        ensures place { self.now.place ≡ Some self.now.own.base }
    {
        View {
            place: self.own.base().get(),
            count: self.own.len(),
        }
    }

    /// Begins an outermost transaction or snapshot.
    pub fn begin(&mut self, kind: Isolation, place: JournalPlace) -> Result<(), AllocError>
        requires { any_open self.old.own ≡ false }
        ensures begun { OnOk result (self.new ≡ record { own = begun kind place self.old.own; place = Some place }) }
        ensures refused { OnErr result (self.new ≡ self.old) }
    {
        self.own.begin(kind, place)?;
        self.place = Some(place);
        Ok(())
    }

    /// Begins a transaction or snapshot inside of what is open.
    pub fn enter(&mut self, kind: Isolation) -> Result<(), AllocError>
        requires { any_open self.old.own ≡ true }
        ensures begun { OnOk result (self.new ≡ record self.old { own = begun kind self.old.own.base self.old.own }) }
        ensures refused { OnErr result (self.new ≡ self.old) }
    {
        let base = self.own.base();
        self.own.begin(kind, base)
    }

    /// Takes back the beginning of an outermost transaction or snapshot: the place is what it was before.
    pub fn cancel(&mut self, place: Option<JournalPlace>)
        requires { (l : Level) × (self.old.own.levels ≡ l ∷ []) }
        ensures { self.new ≡ record { own = nothing; place = place } }
    {
        self.own.end(false);
        self.place = place;
    }

    /// Makes updates inside of what is open, which shares their clauses: all of them, or none.
    pub fn make(&mut self, updates: &[Update]) -> Result<(), AllocError>
        requires { any_open self.old.own ≡ true }
        ensures made { OnOk result (self.new ≡ record self.old { own = all_made updates.now self.old.own }) }
        ensures refused { OnErr result (self.new ≡ self.old) }
    {
        let base = self.own.base();
        self.own.begin(Isolation::Transaction, base)?;
        match make_each(&mut self.own, updates) {
            Ok(()) => {
                end_inner(&mut self.own, true);
                Ok(())
            }
            Err(e) => {
                end_inner(&mut self.own, false);
                Err(e)
            }
        }
    }

    /// Makes one update inside of what is open.
    pub fn make_one(&mut self, update: Update) -> Result<(), AllocError>
        requires { any_open self.old.own ≡ true }
        ensures made { OnOk result (self.new ≡ record self.old { own = all_made (update ∷ []) self.old.own }) }
        ensures refused { OnErr result (self.new ≡ self.old) }
    {
        make_one(&mut self.own, update)?;
        Ok(())
    }

    /// Erases the clause of a name inside of what is open, unless an own update has erased it before.
    pub fn erase(&mut self, name: ClauseName) -> Result<Erasure, AllocError>
        requires { any_open self.old.own ≡ true }
        ensures answer { IfOk result (λ e. e ≡ change_if (erased_in (target_at self.old.own.base name) self.old.own.updates) Gone Erased) }
        ensures erased { OnOk result (self.new ≡ record self.old { own = made (Update.Erase name) self.old.own }) }
        ensures refused { OnErr result (self.new ≡ self.old) }
    {
        let target = target_of(self.own.base(), name);
        let erasure = self.own.erase(target)?;
        Ok(erasure)
    }

    /// Ends the innermost transaction or snapshot, with success or without.
    pub fn end(&mut self, success: bool) -> Ended
        requires { any_open self.old.own ≡ true }
        ensures answer { result ≡ ending success self.old.own }
        ensures ended { self.new ≡ record self.old { own = ended success self.old.own } }
    {
        self.own.end(success)
    }
}

/// Ends what is open inside of another, where nothing comes of it.
fn end_inner(own: &mut Own, success: bool)
    requires { any_open own.old ≡ true }
    ensures { own.new ≡ ended success own.old }
{
    own.end(success);
}

/// What the name of a clause means: own clauses have the place that they stand at.
fn target_of(base: JournalPlace, name: ClauseName) -> Target
    ensures { result ≡ target_at base name }
{
    if name.place == base.get() {
        return Target::Own(name.number);
    }
    Target::Committed(name)
}

/// Makes updates one after another. Where one is refused, those before it are made.
fn make_each(own: &mut Own, updates: &[Update]) -> Result<(), AllocError>
    requires { any_open own.old ≡ true }
    ensures made { OnOk result (own.new ≡ all_made updates.now own.old) }
    ensures some { OnErr result (Grows own.old own.new) }
{
    for update in updates {
        let update = update.copied()?;
        make_one(own, update)?;
    }
    Ok(())
}

/// Makes one update.
fn make_one(own: &mut Own, update: Update) -> Result<(), AllocError>
    requires { any_open own.old ≡ true }
    ensures made { OnOk result (own.new ≡ made update own.old) }
    ensures refused { OnErr result (own.new ≡ own.old) }
{
    match update {
        Update::Erase(name) => {
            let target = target_of(own.base(), name);
            own.erase(target)?;
        }
        Update::EraseOwn(number) => {
            own.erase(Target::Own(number))?;
        }
        Update::First(_) | Update::Last(_) | Update::Declare(_) => {
            own.add(update)?;
        }
    }
    Ok(())
}
