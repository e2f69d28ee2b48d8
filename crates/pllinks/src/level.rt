//! Levels of open cases.
ghost use Rattle.std.specs.Prelude.{◌≡◌, ◌+◌, ◌-◌, ◌≤◌, ◌^◌, IfSome, IfNone};

use std::marker::Model;

/// How many cases are open below a place of the stack: what a cut gives up down to, and what a marker names.
#[derive(Clone, Copy, Debug, PartialEq, Eq, PartialOrd, Ord)]
pub struct Level {
    value: u64,
}

impl Model for Level {
    ghost use Rattle.std.specs.Prelude.{ℕ};

    ghost Value = { ℕ };

    ghost view = { λ l. l.value };

    ghost inverse = { λ n. record { value = n } };
}

impl Level {
    /// The level below all cases.
    pub const BOTTOM: Level = Level { value: 0 };

    /// The level above so many cases.
    #[inline(always)]
    pub fn new(cases: u64) -> Level
        ensures { result ≡ cases }
    {
        Level { value: cases }
    }

    /// The level so many cases further up; none where it would not fit.
    #[inline(always)]
    pub fn up(self, cases: u64) -> Option<Level>
        ensures some { IfSome result (λ l. l ≡ self + cases) }
        ensures none { IfNone result (2 ^ 64 ≤ self + cases) }
    {
        let value = self.value.checked_add(cases)?;
        Some(Level { value })
    }

    /// The level so many cases further down.
    #[inline(always)]
    pub fn down(self, cases: u64) -> Level
        requires { cases ≤ self }
        ensures { result ≡ self - cases }
    {
        Level {
            value: self.value - cases,
        }
    }

    /// How many cases there are from a lower level up to this one.
    #[inline(always)]
    pub fn cases_above(self, lower: Level) -> u64
        requires { lower ≤ self }
        ensures { result ≡ self - lower }
    {
        self.value - lower.value
    }
}
