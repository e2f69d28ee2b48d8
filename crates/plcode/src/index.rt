//! The clauses of a procedure, found by the keys of their first arguments.
ghost use Rattle.std.specs.Prelude.{◌≡◌, ◌≤◌, ◌⊎◌, ◌∷◌, ◌++◌, [], List, length, IfOk, OnOk};
ghost use Rattle.plcode.specs.declared.clause.ClauseCode.{ClauseCode as OfClause};
ghost use Rattle.plcode.specs.declared.key.Key.TheVariants.{Any};
ghost use Rattle.plcode.specs.Index.{places_in as places_in_of, HasPlaces, IsFirstFrom, IsIndex, IsNext, IsRising, NotAfter};

use crate::clause::ClauseCode;
use crate::key::Key;
use indexmap::IndexMap;
use std::alloc::{AllocError, Global};
use std::marker::Model;

/// So many clauses are scanned rather than found by a key.
const SCANNED: usize = 24;

/// The place of the first clause, from a place on, that a goal of a key may be for: the keys are looked at one by one.
#[inline(always)]
fn next_candidate(clauses: &[ClauseCode], key: Key, from: usize) -> Option<usize>
    requires { from ≤ length clauses.now }
    ensures { IsNext key clauses.now from result }
{
    for place in from..clauses.len() {
        if key.admits(clauses[place].key) {
            return Some(place);
        }
    }
    None
}

/// Adds the place of a clause, as the last of those of its key.
fn add_place(
    alloc: Global,
    places: &mut IndexMap<Key, Vec<usize>>,
    key: Key,
    place: usize,
) -> Result<(), AllocError>
    ensures { OnOk result ((cs : List OfClause) (c : OfClause) → c.key ≡ key → length cs ≡ place → HasPlaces places.old cs → HasPlaces places.new (cs ++ c ∷ [])) }
{
    match places.get_mut(&key) {
        Some(run) => {
            run.push(place)?;
            Ok(())
        }
        None => {
            let mut first = Vec::new(alloc);
            first.push(place)?;
            places.insert(key, first)?;
            Ok(())
        }
    }
}

/// The places of the clauses of each key, in their order, in time linear in the clauses.
fn places_of(alloc: Global, clauses: &[ClauseCode]) -> Result<IndexMap<Key, Vec<usize>>, AllocError>
    ensures { IfOk result (λ places. HasPlaces places clauses.now) }
{
    let mut places = IndexMap::new(alloc);
    for (place, clause) in clauses.iter().enumerate() {
        add_place(alloc, &mut places, clause.key, place)?;
    }
    Ok(places)
}

/// The places of the clauses of a key.
fn places_in(places: &IndexMap<Key, Vec<usize>>, key: Key) -> &[usize]
    ensures { result.now ≡ places_in_of places.now key }
{
    match places.get(&key) {
        Some(run) => run.as_slice(),
        None => &[],
    }
}

/// The first of rising places, from a place on, by a binary search.
fn first_from(places: &[usize], from: usize) -> Option<usize>
    requires { IsRising places.now }
    ensures { IsFirstFrom places.now from result }
{
    match places.binary_search(&from) {
        Ok(_) => Some(from),
        Err(next) => {
            if next < places.len() {
                Some(places[next])
            } else {
                None
            }
        }
    }
}

/// The earlier of two places.
fn earlier(one: Option<usize>, other: Option<usize>) -> Option<usize>
    ensures one_of { (result ≡ one) ⊎ (result ≡ other) }
    ensures before_one { NotAfter result one }
    ensures before_other { NotAfter result other }
{
    match (one, other) {
        (Some(a), Some(b)) if b < a => Some(b),
        (None, _) => other,
        (Some(_), _) => one,
    }
}

/// The place of the first clause, from a place on, that a goal of a key may be for, by the places of the keys: one of this key, or
/// one with a variable as its first argument.
fn next_place(places: &IndexMap<Key, Vec<usize>>, key: Key, from: usize) -> Option<usize>
    requires some { key ≡ Any → ⊥ }
    requires index { (cs : List OfClause) × HasPlaces places.now cs }
    ensures { (cs : List OfClause) → HasPlaces places.now cs → IsNext key cs from result }
{
    let own = first_from(places_in(places, key), from);
    let open = first_from(places_in(places, Key::Any), from);
    earlier(own, open)
}

/// The clauses of a procedure, in text order. Where there are more than 24, those that a goal may be for are found by their keys.
#[derive(Drop)]
pub struct Procedure {
    clauses: Vec<ClauseCode>,
    places: Option<IndexMap<Key, Vec<usize>>>,
}

impl Model for Procedure {
    ghost use Rattle.std.specs.Prelude.{List};
    ghost use Rattle.std.specs.Coded.{coded_list};
    ghost use Rattle.plcode.specs.declared.clause.ClauseCode.{ClauseCode as OfClause};
    ghost use Rattle.plcode.specs.contracts.clause.ClauseCode as codes;
    ghost use Rattle.plcode.specs.Index.{IsIndex};

    ghost Value = { List OfClause };

    ghost coded = { coded_list codes.the_row.coded };

    ghost view = { λ a. a.clauses.items };

    ghost invariant = { λ a. IsIndex a.places a.clauses.items };
}

impl Procedure {
    /// The procedure of these clauses, in time linear in them.
    pub fn new(alloc: Global, clauses: Vec<ClauseCode>) -> Result<Procedure, AllocError>
        ensures { IfOk result (λ p. p ≡ clauses.items) }
    {
        let places = if clauses.len() > SCANNED {
            Some(places_of(alloc, clauses.as_slice())?)
        } else {
            None
        };
        Ok(Procedure { clauses, places })
    }

    /// The clauses, in text order.
    pub fn clauses(&self) -> &[ClauseCode]
        ensures { result.now ≡ self.now }
    {
        self.clauses.as_slice()
    }

    /// The place of the first clause, from a place on, that a goal of a key may be for.
    #[inline(always)]
    pub fn next(&self, key: Key, from: usize) -> Option<usize>
        requires { from ≤ length self.now }
        ensures { IsNext key self.now from result }
    {
        match &self.places {
            Some(places) if key != Key::Any => next_place(places, key, from),
            _ => next_candidate(self.clauses.as_slice(), key, from),
        }
    }
}
