//! Links of records with those of their class: of their procedures, or of their slots.
ghost use Rattle.std.specs.Prelude.{◌≡◌, ◌+◌, ◌<◌, ◌≤◌, ◌++◌, ◌∷◌, [], ℕ, List, None, OnOk, Some, cond, length, slice_index_or};
ghost use Rattle.std.specs.HashMap.{spare};
ghost use Rattle.plrecords.specs.declared.record.Record.{Record};
ghost use Rattle.plrecords.specs.Links.{ends_after, ends_in, links_after, Class, IsLinked};
ghost use Rattle.plrecords.specs.Room.{HasLinkRoom};
ghost use Rattle.plrecords.specs.Runs.{end_at, no_place, HasRuns, IsGone, SameRuns};
ghost use Rattle.plrecords.specs.Undone.{HadLinks, HadRuns, IsLonger, MoreRuns, SameLinks};

use crate::ends::{Ends, ends_of, grown, link, set_ends, unlink, wide};
use crate::runs::{Buried, RecordNotes, add_place, bury, drop_place, run_end, unbury};
use std::alloc::{AllocError, Global};
use std::collections::HashMap;
use std::hash::Hash;

/// How records are linked, and what is known of erased ones.
#[derive(Drop)]
pub struct Links {
    /// By the number of a record the next one of its side: downward in front, upward behind.
    pub next: Vec<Option<u32>>,
    /// By the number of a record what is known of the erased ones beside it.
    pub places: Vec<RecordNotes>,
}

/// A record that is added: its number, whether it is put before all others, and the place of its batch.
#[derive(Clone, Copy)]
pub struct Added {
    pub number: u32,
    pub front: bool,
    pub place: u64,
}

impl Links {
    pub fn new(alloc: Global) -> Links
        ensures next { result.next.items ≡ [] }
        ensures places { result.places.items ≡ [] }
    {
        Links {
            next: Vec::new(alloc),
            places: Vec::new(alloc),
        }
    }

    /// Makes room for so many records.
    pub fn reserve(&mut self, count: usize) -> Result<(), AllocError>
        ensures room { OnOk result (HasLinkRoom count self.new) }
        ensures next { self.new.next.items ≡ self.old.next.items }
        ensures places { self.new.places.items ≡ self.old.places.items }
    {
        self.next.reserve(count)?;
        self.places.reserve(count)?;
        Ok(())
    }

    /// Links one more record, for which there is room, with those of its side.
    fn add(&mut self, added: Added, ends: Ends)
        requires room { HasLinkRoom 1 self.old }
        requires last { (j : ℕ) → ends.newest_back ≡ Some j → j < length self.old.next.items }
        ensures next { self.new.next.items ≡ links_after added.front added.number ends self.old.next.items }
        ensures runs { (c : Class) (rs : List Record) (r : Record) → HasRuns c rs self.old.places.items → HasRuns c (rs ++ r ∷ []) self.new.places.items }
        ensures more { MoreRuns self.old.places.items self.new.places.items }
        ensures room { (n : ℕ) → HasLinkRoom (n + 1) self.old → HasLinkRoom n self.new }
    {
        link(&mut self.next, added.front, added.number, ends);
        add_place(&mut self.places, added.front, added.number as usize, ends);
    }

    /// Takes back the last record, which was added to such ends.
    pub fn drop_last(&mut self, front: bool, ends: Ends)
        ensures { (was : Links) → IsLonger front ends was self.old → SameLinks was self.new }
    {
        unlink(&mut self.next, front, ends);
        drop_place(&mut self.places, front, ends);
    }

    /// Takes note that a record is erased by a batch at a place.
    pub fn bury(&mut self, number: usize, place: u64) -> Buried
        ensures next { self.new.next ≡ self.old.next }
        ensures runs { (c : Class) (rs : List Record) → IsLinked c rs self.old.next.items → ((d : Record) → IsGone place (slice_index_or rs number d).erased) →
            HasRuns c rs self.old.places.items → HasRuns c rs self.new.places.items }
        ensures noted { HadRuns result self.old.places.items self.new.places.items }
        ensures room { (n : ℕ) → HasLinkRoom n self.old → HasLinkRoom n self.new }
    {
        bury(&mut self.places, self.next.as_slice(), number, place)
    }

    /// Takes back what that changed.
    pub fn unbury(&mut self, buried: &Buried)
        ensures { (was : Links) → HadLinks buried.now was self.old → SameLinks was self.new }
    {
        unbury(&mut self.places, buried);
    }

    /// The record that is next to one on its side.
    pub(crate) fn next_to(&self, number: usize) -> Option<usize>
        requires { number < length self.now.next.items }
        ensures { result ≡ slice_index_or self.now.next.items number None }
    {
        wide(self.next[number])
    }

    /// The same, behind the run that begins there, as far as a walk at `g` passes over it.
    pub fn next_behind(&self, number: usize, g: u64) -> Option<usize>
        requires within { number < length self.now.places.items }
        requires end { end_at g number (slice_index_or self.now.places.items number no_place).run < length self.now.next.items }
        ensures { result ≡ slice_index_or self.now.next.items (end_at g number (slice_index_or self.now.places.items number no_place).run) None }
    {
        self.next_to(run_end(self.places.as_slice(), number, g))
    }
}

/// Adds one more record, for which there is room, to those of its key. Answers the ends of these before.
pub fn add<K: Eq + Hash + Drop>(
    links: &mut Links,
    index: &mut HashMap<K, Ends>,
    key: K,
    added: Added,
) -> Ends
    requires room { HasLinkRoom 1 links.old }
    requires spare { 0 < spare index.old }
    requires last { (j : ℕ) → (ends_in K.eq index.old key).newest_back ≡ Some j → j < length links.old.next.items }
    ensures next { links.new.next.items ≡ links_after added.front added.number (ends_in K.eq index.old key) links.old.next.items }
    ensures runs { (c : Class) (rs : List Record) (r : Record) → HasRuns c rs links.old.places.items → HasRuns c (rs ++ r ∷ []) links.new.places.items }
    ensures ends { (k : K) → ends_in K.eq index.new k ≡ cond (K.eq key k) (ends_after added.front added.number added.place (ends_in K.eq index.old key)) (ends_in K.eq index.old k) }
    ensures more { MoreRuns links.old.places.items links.new.places.items }
    ensures was { result ≡ ends_in K.eq index.old key }
    ensures room { (n : ℕ) → HasLinkRoom (n + 1) links.old → HasLinkRoom n links.new }
    ensures spare { spare index.old ≤ spare index.new + 1 }
{
    let ends = ends_of(index, &key);
    links.add(added, ends);
    set_ends(
        index,
        key,
        grown(ends, added.front, added.number, added.place),
    );
    ends
}
