//! Goal lists of a stack.
ghost use Rattle.std.specs.Prelude.{◌≡◌, ◌≤◌, ◌-◌, List, [], ◌∷◌, ◌++◌, length, take, IfOk, OnErr, OnOk};
ghost use Rattle.plsearch.specs.Lists.{levels};
ghost use Rattle.pllinks.specs.Lists.{elements, IsItem};
ghost use Rattle.pllinks.specs.Links.{alone, link_at, IsDone};
ghost use Rattle.pllinks.specs.declared.item.Portion.TheVariants.{Clause as RunOf};
ghost use Rattle.plevent.specs.declared.update.Update.{Update};
ghost use Rattle.plsearch.specs.Types.{Case};
ghost use Rattle.plstack.specs.Places.{Database, IsOwnSoFar};
ghost use Rattle.plstack.specs.State.{cases_of, goals_in, goals_of, IsEmptyOrFit, IsList, AddsList};
ghost use Rattle.plstack.specs.Levels.{kinds, levels_of, AreNamed, FitsIn};
ghost use Rattle.plstack.specs.Linking.{LinksItem};

use crate::stack::Stack;
use pllinks::item::{ClauseGoals, Portion};
use pllinks::level::Level;
use pllinks::link::{Continuation, Link, first_link, number_of, push_link};
use pllinks::list::ListId;
use std::alloc::{AllocError, Global};

impl Stack {
    /// The number of a list of the same goals: where no goals of a clause are left that of the rest, and else a new list's.
    pub fn number_of(&mut self, list: &Continuation) -> Result<ListId, AllocError>
        requires { IsList self.old list.now }
        ensures ok { IfOk result (λ n. AddsList self.old self.new (alone n) (goals_of self.old list.now)) }
        ensures rest { IsDone list.now.run → IfOk result (λ n. n ≡ list.now.rest) }
        ensures same { IsDone list.now.run → self.new ≡ self.old }
        ensures err { OnErr result (self.new ≡ self.old) }
    {
        let number = number_of(&mut self.links, *list)?;
        Ok(number)
    }

    /// A new list: an item before a list that is there.
    pub fn link(&mut self, item: Portion, rest: Continuation) -> Result<Continuation, AllocError>
        requires inside { IsItem (goals_in self.old) self.old.env.heap (length self.old.env.slots) item }
        requires rest { IsList self.old rest }
        ensures ok { IfOk result (λ l. AddsList self.old self.new l (elements (goals_in self.old) self.old.env item ++ goals_of self.old rest)) }
        ensures err { OnErr result (self.new ≡ self.old) }
    {
        let list = link_before(&mut self.links, item, rest)?;
        Ok(list)
    }

    /// A new list: goals of a clause before a list that is there.
    pub fn before(
        &mut self,
        run: ClauseGoals,
        rest: Continuation,
    ) -> Result<Continuation, AllocError>
        requires inside { IsItem (goals_in self.old) self.old.env.heap (length self.old.env.slots) (RunOf run) }
        requires rest { IsList self.old rest }
        ensures ok { IfOk result (λ l. AddsList self.old self.new l (elements (goals_in self.old) self.old.env (RunOf run) ++ goals_of self.old rest)) }
        ensures err { OnErr result (self.new ≡ self.old) }
    {
        let behind = number_of(&mut self.links, rest)?;
        Ok(Continuation { run, rest: behind })
    }

    /// Visits a list that is there. Own updates that no walk sees change no case.
    pub fn visit(&mut self, list: Continuation)
        requires list { IsList self.old list }
        requires fits { IsEmptyOrFit self.old list }
        ensures is { self.new ≡ record self.old { goals = list } }
        ensures own { (db : Database) (own : List Update) → IsOwnSoFar self.old.basis.latest db own → cases_of (record db { own = own }) self.old ≡ cases_of db self.old }
    {
        self.goals = list;
    }

    /// The list that is visited.
    pub fn visited(&self) -> Continuation
        ensures is { result ≡ self.now.goals }
        ensures there { IsList self.now result }
        ensures fits { IsEmptyOrFit self.now result }
    {
        self.goals
    }

    /// The levels of the markers of a list. Where it fits in some cases, they never rise, and those at which a transaction ends without success are
    /// among them.
    pub fn levels(&self, alloc: Global, list: Continuation) -> Result<Vec<Level>, AllocError>
        requires { IsList self.now list }
        ensures is { IfOk result (λ found. found.items ≡ levels (goals_of self.now list)) }
        ensures named { IfOk result (λ found. (cs : List Case) → FitsIn (kinds cs) (goals_of self.now list) → AreNamed found.items cs) }
    {
        let mut found = Vec::new(alloc);
        let mut at = list.rest;
        while let Some(link) = first_link(&self.links, at) {
            push_level(&mut found, link.item)?;
            at = link.next;
        }
        Ok(found)
    }
}

/// A new list: an item before a list that is there.
pub(crate) fn link_before(
    links: &mut Vec<Link>,
    item: Portion,
    rest: Continuation,
) -> Result<Continuation, AllocError>
    requires { rest.rest ≤ length links.old.items }
    ensures ok { IfOk result (λ l. LinksItem links.old.items links.new.items item rest l) }
    ensures err { OnErr result (links.new.items ≡ links.old.items) }
{
    let count = links.len();
    let behind = number_of(links, rest)?;
    match push_link(links, item, behind) {
        Ok(number) => Ok(Continuation::alone(number)),
        Err(e) => {
            links.truncate(count);
            Err(e)
        }
    }
}

/// One more level, if the item is a marker.
fn push_level(found: &mut Vec<Level>, item: Portion) -> Result<(), AllocError>
    ensures { OnOk result (found.new.items ≡ found.old.items ++ levels_of item) }
{
    if let Portion::Marker(_, level) = item {
        found.push(level)?;
    }
    Ok(())
}

/// Gives back the list below the last one, whose place the last one takes.
pub(crate) fn drop_below(links: &mut Vec<Link>)
    requires { 2 ≤ length links.old.items }
    ensures { links.new.items ≡ take (length links.old.items - 2) links.old.items ++ link_at links.old.items (length links.old.items - 1) ∷ [] }
{
    let last = links.len() - 1;
    links.swap(last - 1, last);
    links.truncate(last);
}
