//! Clauses that own updates erase.
ghost use Rattle.std.specs.Prelude.{◌≡◌};
ghost use Rattle.pltx.specs.Own.{erasing, target_of};

use plevent::{ClauseName, Update};

/// A clause that may be erased: a committed one, by its name, or the one that an own update made, by the number of that.
#[derive(Clone, Copy, PartialEq, Eq, Hash, Drop)]
pub enum Target {
    Committed(ClauseName),
    Own(u64),
}

/// Whether an erasure was made.
#[derive(Clone, Copy)]
pub enum Erasure {
    Erased,
    /// An own update has erased that clause before.
    Gone,
}

impl Target {
    /// The update that erases it.
    pub(crate) fn erasing(&self) -> Update
        ensures { result ≡ erasing self.now }
    {
        match self {
            Target::Committed(name) => Update::Erase(*name),
            Target::Own(number) => Update::EraseOwn(*number),
        }
    }
}

/// What an update erases, if it does.
pub(crate) fn target_of(update: &Update) -> Option<Target>
    ensures { result ≡ target_of update.now }
{
    match update {
        Update::Erase(name) => Some(Target::Committed(*name)),
        Update::EraseOwn(number) => Some(Target::Own(*number)),
        Update::First(_) | Update::Last(_) | Update::Declare(_) => None,
    }
}
