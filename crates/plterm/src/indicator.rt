//! Indicators of procedures.
ghost use Rattle.std.specs.Prelude.{◌≡◌, ◌↔◌, IfOk, IsTrue};
ghost use Rattle.plterm.specs.Indicators.{same_indicator};
ghost use Rattle.plterm.specs.declared.indicator.Indicator.{Indicator};

use crate::name::Name;
use std::alloc::AllocError;

/// The indicator of a procedure: its name, and how many arguments it has (ISO/IEC 13211-1 7.1.6.6).
#[derive(Drop, PartialEq, Eq, Hash)]
pub struct Indicator {
    pub name: Name,
    pub arity: u16,
}

impl Indicator {
    /// The same indicator again.
    pub fn copied(&self) -> Result<Indicator, AllocError>
        ensures { IfOk result (λ made. made ≡ self.now) }
    {
        let name = self.name.copied()?;
        Ok(Indicator {
            name,
            arity: self.arity,
        })
    }

    /// Whether the indicators are the same.
    pub fn is_same(&self, other: &Indicator) -> bool
        ensures same { IsTrue result ↔ (self.now ≡ other.now) }
        ensures value { result ≡ same_indicator self.now other.now }
    {
        self == other
    }
}

/// `same_indicator` tells whether two indicators are the same.
pub fn same_indicator_law()
    ensures { (a b : Indicator) → (IsTrue (same_indicator a b) ↔ (a ≡ b)) }
{}
