//! Where the records of a class begin and end.
ghost use Rattle.std.specs.Prelude.{◌≡◌, ◌+◌, ◌<◌, ◌≤◌, ◌↔◌, IsTrue, ℕ, ◌≢◌, None, Some, cond, length, vec_len, ◌++◌, ◌∷◌, [], List, Option, slice_set};
ghost use Rattle.std.specs.Vec.{vec_capacity};
ghost use Rattle.std.specs.HashMap.{get, spare};
ghost use Rattle.plrecords.specs.Links.{earlier, ends_after, ends_in, first_end, links_after, no_ends, since_below};
ghost use Rattle.plrecords.specs.Undone.{MaySet, WasEnd};

use std::collections::HashMap;
use std::hash::Hash;

/// Where the two sides of a class begin and end, as numbers of records, and the place of the first batch that named it or
/// made a clause of it.
#[derive(Clone, Copy)]
pub struct Ends {
    pub since: Option<u64>,
    pub newest_front: Option<u32>,
    pub oldest_back: Option<u32>,
    pub newest_back: Option<u32>,
}

/// The number of a record as an index.
pub fn wide(number: Option<u32>) -> Option<usize>
    ensures { result ≡ number }
{
    match number {
        Some(number) => Some(number as usize),
        None => None,
    }
}

impl Ends {
    /// Whether a batch below `g` named the procedure.
    pub fn is_since(self, g: u64) -> bool
        ensures { result ≡ since_below g self.since }
    {
        match self.since {
            None => false,
            Some(place) => place < g,
        }
    }

    /// Whether no batch named the procedure, and there are no records.
    fn is_nothing(self) -> bool
        ensures { IsTrue result ↔ (self ≡ no_ends) }
    {
        self.since.is_none()
            && self.newest_front.is_none()
            && self.oldest_back.is_none()
            && self.newest_back.is_none()
    }

    /// The record of a side to which a walk comes first.
    pub fn first(self, front: bool) -> Option<usize>
        ensures { result ≡ first_end front self }
    {
        if front {
            wide(self.newest_front)
        } else {
            wide(self.oldest_back)
        }
    }

    /// The record of a side that was made last.
    pub fn newest(self, front: bool) -> Option<usize> {
        if front {
            wide(self.newest_front)
        } else {
            wide(self.newest_back)
        }
    }
}

/// The ends of the records of a key; where there are none it has none.
pub fn ends_of<K: Eq + Hash>(index: &HashMap<K, Ends>, key: &K) -> Ends
    ensures { result ≡ ends_in K.eq index.now key.now }
{
    match index.get(key) {
        Some(ends) => *ends,
        None => Ends {
            since: None,
            newest_front: None,
            oldest_back: None,
            newest_back: None,
        },
    }
}

/// Sets the ends of a key that is there, or for which there is room.
pub fn set_ends<K: Eq + Hash + Drop>(index: &mut HashMap<K, Ends>, key: K, ends: Ends)
    requires { MaySet K.eq index.old key }
    ensures set { (k : K) → ends_in K.eq index.new k ≡ cond (K.eq key k) ends (ends_in K.eq index.old k) }
    ensures room { spare index.old ≤ spare index.new + 1 }
{
    match index.insert(key, ends) {
        Ok(_) => {}
        Err(_) => unreachable!(),
    }
}

/// Gives a key that is there the ends that it had before. Where it had none, it is there no more.
pub fn restore_ends<K: Eq + Hash + Drop>(index: &mut HashMap<K, Ends>, key: K, ends: Ends)
    requires { get K.eq index.old key ≢ None }
    ensures set { (k : K) → ends_in K.eq index.new k ≡ cond (K.eq key k) ends (ends_in K.eq index.old k) }
    ensures gone { ends ≡ no_ends → get K.eq index.new key ≡ None }
{
    if ends.is_nothing() {
        index.remove(&key);
        return;
    }
    set_ends(index, key, ends);
}

/// The earlier of two places.
pub fn earlier(since: Option<u64>, place: u64) -> Option<u64>
    ensures { result ≡ earlier since place }
{
    match since {
        Some(at) if at < place => Some(at),
        Some(_) | None => Some(place),
    }
}

/// The ends after one more record.
pub(crate) fn grown(ends: Ends, front: bool, number: u32, place: u64) -> Ends
    ensures { result ≡ ends_after front number place ends }
{
    let mut made = ends;
    made.since = earlier(ends.since, place);
    if front {
        made.newest_front = Some(number);
    } else {
        made.oldest_back = ends.oldest_back.or(Some(number));
        made.newest_back = Some(number);
    }
    made
}

/// Links one more record, for which there is room, with those of its side.
pub(crate) fn link(next: &mut Vec<Option<u32>>, front: bool, number: u32, ends: Ends)
    requires room { vec_len next.old < vec_capacity next.old }
    requires last { (j : ℕ) → ends.newest_back ≡ Some j → j < length next.old.items }
    ensures linked { next.new.items ≡ links_after front number ends next.old.items }
    ensures room { vec_capacity next.old ≤ vec_capacity next.new }
    ensures len { vec_len next.new ≡ vec_len next.old + 1 }
{
    if front {
        append(next, ends.newest_front);
        return;
    }
    append(next, None);
    if let Some(last) = ends.newest_back {
        next[last as usize] = Some(number);
    }
}

/// Takes back the link of the last record, and the one to it.
pub(crate) fn unlink(next: &mut Vec<Option<u32>>, front: bool, ends: Ends)
    ensures { (xs : List (Option ℕ)) (n : ℕ) → next.old.items ≡ links_after front n ends xs → WasEnd ends.newest_back xs → next.new.items ≡ xs }
{
    next.pop();
    if front {
        return;
    }
    if let Some(last) = ends.newest_back {
        cut_link(next.as_mut_slice(), last as usize);
    }
}

/// The link of a record leads nowhere.
fn cut_link(next: &mut [Option<u32>], number: usize)
    ensures { next.new ≡ slice_set next.old number None }
{
    if number < next.len() {
        next[number] = None;
    }
}

/// Appends a link, for which there is room.
fn append(next: &mut Vec<Option<u32>>, to: Option<u32>)
    requires { vec_len next.old < vec_capacity next.old }
    ensures made { next.new.items ≡ next.old.items ++ to ∷ [] }
    ensures room { vec_capacity next.old ≤ vec_capacity next.new }
    ensures len { vec_len next.new ≡ vec_len next.old + 1 }
{
    match next.push(to) {
        Ok(()) => {}
        Err(_) => unreachable!(),
    }
}
