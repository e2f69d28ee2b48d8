//! Links: goal lists that share their rest.
ghost use Rattle.std.specs.Prelude.{◌≡◌, ◌+◌, ◌-◌, ◌<◌, ◌≤◌, [], ◌∷◌, ◌++◌, length, IfOk, IfSome, IfNone, OnOk, OnErr};
ghost use Rattle.pllinks.specs.Links.{IsDone, Numbers, alone, link_at, slots_in, slots_at, link_to, list_at};

use crate::item::{ClauseGoals, Portion};
use crate::list::ListId;
use std::alloc::AllocError;

/// An item, and the list behind it.
#[derive(Clone, Copy)]
pub struct Link {
    pub item: Portion,
    pub next: ListId,
    /// How many slots the list asks for.
    pub slots: u32,
}

/// A goal list: goals of a clause, perhaps none, before a list by its number.
#[derive(Clone, Copy)]
pub struct Continuation {
    pub run: ClauseGoals,
    pub rest: ListId,
}

impl Continuation {
    /// A list by its number.
    pub fn alone(rest: ListId) -> Continuation
        ensures { result ≡ alone rest }
    {
        Continuation {
            run: ClauseGoals::done(),
            rest,
        }
    }
}

/// How many slots an item asks for.
fn slots_for(item: &Portion) -> u32
    ensures { result ≡ slots_in item.now }
{
    match item {
        Portion::Clause(run) => run.end,
        Portion::Goal(_, _) => 0,
        Portion::Marker(_, _) => 0,
    }
}

/// The first link of a list; none for the empty list.
#[inline(always)]
pub fn first_link(links: &[Link], list: ListId) -> Option<&Link>
    requires { list ≤ length links.now }
    ensures some { IfSome result (λ l. (0 < list) × (l.now ≡ link_at links.now (list - 1))) }
    ensures none { IfNone result (list ≡ 0) }
{
    let place = list.place()?;
    Some(&links[place])
}

/// How many slots a list asks for.
pub fn slots_of(links: &[Link], list: ListId) -> u32
    requires { list ≤ length links.now }
    ensures { result ≡ slots_at links.now list }
{
    match first_link(links, list) {
        Some(link) => link.slots,
        None => 0,
    }
}

/// A new list: an item before a list that is there. It gives the list's number.
pub fn push_link(links: &mut Vec<Link>, item: Portion, rest: ListId) -> Result<ListId, AllocError>
    requires { rest ≤ length links.old.items }
    ensures ok { OnOk result (links.new.items ≡ links.old.items ++ link_to links.old.items item rest ∷ []) }
    ensures number { IfOk result (λ i. i ≡ length links.old.items + 1) }
    ensures err { OnErr result (links.new.items ≡ links.old.items) }
{
    let Some(list) = ListId::begun_at(links.len()) else {
        return Err(AllocError);
    };
    let slots = slots_for(&item).max(slots_of(links, rest));
    links.push(Link {
        item,
        next: rest,
        slots,
    })?;
    Ok(list)
}

/// The number of a list: where no goals of a clause are left it is the rest's, and else that of a new one.
#[tactic(auto, using(crate::proofs::Numbering::numbers_rest, crate::proofs::Numbering::numbers_new))]
pub fn number_of(links: &mut Vec<Link>, list: Continuation) -> Result<ListId, AllocError>
    requires { list.rest ≤ length links.old.items }
    ensures ok { IfOk result (λ n. Numbers links.old.items links.new.items list n) }
    ensures rest { IsDone list.run → IfOk result (λ n. n ≡ list.rest) }
    ensures same { IsDone list.run → links.new.items ≡ links.old.items }
    ensures err { OnErr result (links.new.items ≡ links.old.items) }
{
    if list.run.is_done() {
        return Ok(list.rest);
    }
    let number = push_link(links, Portion::Clause(list.run), list.rest)?;
    Ok(number)
}
