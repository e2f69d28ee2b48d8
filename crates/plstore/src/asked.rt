//! What tables answer about the database at a time.
ghost use Rattle.std.specs.Prelude.{◌≡◌};
ghost use Rattle.std.specs.Option.{option_copied};
ghost use Rattle.plrecords.specs.Kept.{here, clause_of, is_there, walk};
ghost use Rattle.plstore.specs.Like.{next_like_of};
ghost use Rattle.plstore.specs.Looking.{clause_seen};
ghost use Rattle.plrecords.specs.Rising.{IsRising};
ghost use Rattle.plstore.specs.Tables.{kept_in, Chained, IsStored};

use crate::named::find;
use crate::sought::Sought;
use crate::steps::{first_sought, sought_after};
use crate::tables::Tables;
use plclause::clause::Clause;
use plevent::ClauseName;
use plrecords::ends::ends_of;
use plrecords::record::Cursor;
use plterm::indicator::Indicator;

impl Tables {
    /// Whether a clause is alive after the batches below `g`.
    pub(crate) fn alive(&self, g: u64, name: ClauseName) -> bool
        requires { IsRising self.now.records.items }
        ensures { result ≡ here g name (kept_in self.now) }
    {
        match find(&self.records, &self.starts, name) {
            None => false,
            Some(index) => self.records[index].is_seen(g),
        }
    }

    /// The clause that was made with a name, alive or not.
    pub(crate) fn clause(&self, name: ClauseName) -> Option<&Clause>
        requires { IsRising self.now.records.items }
        ensures { option_copied result ≡ clause_of name (kept_in self.now) }
    {
        match find(&self.records, &self.starts, name) {
            None => None,
            Some(index) => Some(&self.records[index].clause),
        }
    }

    /// The clause of a name, where it is alive after the batches below `g`.
    pub(crate) fn clause_seen(&self, g: u64, name: ClauseName) -> Option<&Clause>
        requires { IsRising self.now.records.items }
        ensures { option_copied result ≡ clause_seen g name (kept_in self.now) }
    {
        match find(&self.records, &self.starts, name) {
            None => None,
            Some(index) => self.records[index].clause_at(g),
        }
    }

    /// The name of the first clause that is sought, or of the one behind that at the cursor; none where that one is the
    /// last, or is not alive, or is of another procedure.
    pub(crate) fn next_like(&self, sought: &Sought<'_>, cursor: Cursor) -> Option<ClauseName>
        requires { IsStored self.now }
        ensures { result ≡ next_like_of sought.now.key.now cursor (walk sought.now.g sought.now.pred.now self.now.records.items) }
    {
        match cursor {
            Cursor::Start => first_sought(self, sought),
            Cursor::After(name) => sought_after(self, sought, name),
        }
    }

    /// Whether some batch below `g` named the procedure.
    pub(crate) fn exists(&self, g: u64, pred: &Indicator) -> bool
        requires { Chained self.now }
        ensures { result ≡ is_there g pred.now (kept_in self.now) }
    {
        ends_of(&self.index, pred).is_since(g)
    }
}
