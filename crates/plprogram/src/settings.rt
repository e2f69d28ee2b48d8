//! The operators and the flags.
ghost use Rattle.std.specs.Prelude.{◌≡◌, IfOk};
ghost use Rattle.plprogram.specs.Settings.{iso_settings};
ghost use Rattle.plprogram.specs.Changes.{with_flag};

use crate::change::Flag;
use plops::flag::Quotes;
use plops::table::OpTable;
use std::alloc::{AllocError, Global};

/// What a call of a procedure that does not exist comes to: the flag `unknown` (ISO/IEC 13211-1 7.11.2.4).
#[derive(Clone, Copy, Debug, PartialEq, Eq)]
pub enum Unknown {
    /// An existence error.
    Error,
    /// Failure.
    Fail,
}

/// The operators and the flags, as they stand behind a part of a text.
#[derive(Drop)]
pub struct Settings {
    pub operators: OpTable,
    /// The flag `double_quotes`.
    pub quotes: Quotes,
    pub unknown: Unknown,
}

impl Settings {
    /// The settings at the start of a text.
    pub fn iso(alloc: Global) -> Result<Settings, AllocError>
        ensures { IfOk result (λ s. s ≡ iso_settings) }
    {
        let operators = OpTable::iso(alloc)?;
        Ok(Settings {
            operators,
            quotes: Quotes::Codes,
            unknown: Unknown::Error,
        })
    }

    /// The same settings again.
    pub fn copied(&self, alloc: Global) -> Result<Settings, AllocError>
        ensures { IfOk result (λ s. s ≡ self.now) }
    {
        let operators = self.operators.copy(alloc)?;
        Ok(Settings {
            operators,
            quotes: self.quotes,
            unknown: self.unknown,
        })
    }

    /// Sets a flag.
    pub fn set(&mut self, flag: Flag)
        ensures { self.new ≡ with_flag flag self.old }
    {
        match flag {
            Flag::Quotes(quotes) => self.quotes = quotes,
            Flag::Unknown(unknown) => self.unknown = unknown,
        }
    }
}
