//! All that the threads of a run share.
ghost use Rattle.std.specs.Prelude.{◌≡◌, ◌<◌, ◌^◌, ◌++◌, ◌∷◌, [], IfOk, OnOk, OnErr, true, false, length, fold};
ghost use Rattle.plevent.specs.Alive.{before, stamped};
ghost use Rattle.plevent.specs.Reading.{stand, updates_of, reading};
ghost use Rattle.plevent.specs.Rows.{is_over};
ghost use Rattle.plrecords.specs.Kept.{keep};
ghost use Rattle.plstore.specs.Looking.{found};
ghost use Rattle.plrecords.specs.Rising.{AllBelowPlace};
ghost use Rattle.plworld.specs.Worlds.{opening, reply_in, adds_in};

use crate::rows::serve;
use plevent::{Act, Batch, Entry, JournalPlace, Reply, Request, Standing, ThreadId, WorkerId};
use plstore::{Found, Query, Store};
use std::alloc::{AllocError, Global};
use std::marker::Model;

/// A journal, and what it says: of its threads, and of its clauses. Once it is stopped no request is served.
#[derive(Drop)]
pub struct World {
    journal: Vec<Entry>,
    standing: Standing,
    store: Store,
    stopped: bool,
}

impl Model for World {
    ghost use Rattle.plworld.specs.Worlds.{Shared, shared_code, IsWorld};

    ghost Value = { Shared };

    ghost coded = { shared_code };

    ghost view = { λ a. record { journal = a.journal.items; stopped = a.stopped } };

    ghost invariant = { λ a. IsWorld a.journal.items a.standing a.store };
}

impl World {
    /// A world whose one entry is the program's first batch. Main is created, and not started; the world is not stopped.
    pub fn open(alloc: Global, first: &Batch) -> Result<World, AllocError>
        ensures { IfOk result (λ w. w ≡ record { journal = opening first.now; stopped = false }) }
    {
        let standing = Standing::blank(alloc)?;
        let mut world = World {
            journal: Vec::new(alloc),
            standing,
            store: Store::new(alloc),
            stopped: false,
        };
        let batch = first.copied(alloc)?;
        match world.add(alloc, WorkerId::NONE, ThreadId::NONE, Act::Batch(batch)) {
            Ok(()) => return Ok(world),
            Err(error) => return Err(error),
        }
    }

    /// The reply to a request that a worker asks of a thread, and the entry that it adds. Where the world is stopped the
    /// reply is `Shut`, and nothing is added.
    pub fn step(
        &mut self,
        alloc: Global,
        worker: WorkerId,
        thread: ThreadId,
        request: Request,
    ) -> Result<Reply, AllocError>
        ensures reply { IfOk result (λ r. r ≡ reply_in self.old thread request) }
        ensures entry { OnOk result (self.new ≡ record self.old { journal = self.old.journal ++ adds_in self.old worker thread request }) }
        ensures refused { OnErr result (self.new ≡ self.old) }
        ensures stays { self.new.stopped ≡ self.old.stopped }
    {
        if self.stopped {
            return Ok(Reply::Shut);
        }
        let (reply, act) = serve(&self.standing, &self.store, alloc, thread, request)?;
        match act {
            None => return Ok(reply),
            Some((of, act)) => match self.add(alloc, worker, of, act) {
                Ok(()) => return Ok(reply),
                Err(error) => return Err(error),
            },
        }
    }

    /// From now on no request is served. What the journal says stays as it is, and can be looked at.
    pub fn stop(&mut self)
        ensures { self.new ≡ record self.old { stopped = true } }
    {
        self.stopped = true;
    }

    /// Whether the world is stopped.
    pub fn stopped(&self) -> bool
        ensures { result ≡ self.now.stopped }
    {
        self.stopped
    }

    /// How many entries there are: the place of the next one, and the time that it is now.
    pub fn front(&self) -> JournalPlace
        ensures { result ≡ length self.now.journal }
    {
        JournalPlace::new(self.journal.len() as u64)
    }

    /// Whether the run is over: a thread has ended it, or each was started and has ended.
    pub fn is_over(&self) -> bool
        ensures { result ≡ is_over (reading self.now.journal).standing }
    {
        self.standing.is_over()
    }

    /// What a query finds in the database as it was after the entries below `g`.
    pub fn look(&self, g: JournalPlace, query: &Query) -> Result<Found, AllocError>
        ensures { IfOk result (λ f. f ≡ found (before g (reading self.now.journal).updates) query.now) }
    {
        self.store.look(g, query)
    }

    /// The entries, in order.
    pub fn entries(&self) -> &[Entry]
        ensures { result.now ≡ self.now.journal }
    {
        self.journal.as_slice()
    }

    /// The entries, in order, for the caller to keep.
    pub fn close(self) -> Vec<Entry>
        ensures { result.items ≡ self.journal }
    {
        self.journal
    }

    /// Adds an entry.
    fn add(
        &mut self,
        alloc: Global,
        worker: WorkerId,
        thread: ThreadId,
        act: Act,
    ) -> Result<(), AllocError>
        ensures made { OnOk result (self.new ≡ record self.old { journal = self.old.journal ++ record { worker = worker; thread = thread; act = act } ∷ [] }) }
        ensures refused { OnErr result (self.new ≡ self.old) }
    {
        self.journal.reserve(1)?;
        change(
            alloc,
            &mut self.standing,
            &mut self.store,
            worker,
            thread,
            &act,
        )?;
        match self.journal.push(Entry {
            worker,
            thread,
            act,
        }) {
            Ok(()) => return Ok(()),
            Err(_) => unreachable!(),
        }
    }
}

/// What an act does to the parts.
fn change(
    alloc: Global,
    standing: &mut Standing,
    store: &mut Store,
    worker: WorkerId,
    thread: ThreadId,
    act: &Act,
) -> Result<(), AllocError>
    requires size { standing.old.size < 2 ^ 63 }
    requires below { AllBelowPlace standing.old.size store.old.records }
    ensures standing { OnOk result (standing.new ≡ stand standing.old (record { worker = worker; thread = thread; act = act.now })) }
    ensures store { OnOk result (store.new ≡ fold keep store.old (stamped standing.old.size 0 (updates_of act.now))) }
    ensures refused_standing { OnErr result (standing.new ≡ standing.old) }
    ensures refused_store { OnErr result (store.new ≡ store.old) }
{
    match act {
        Act::Start => {
            standing.start(worker, thread);
            return Ok(());
        }
        Act::Batch(batch) => {
            store.apply(alloc, batch, JournalPlace::new(standing.size))?;
            standing.publish();
            return Ok(());
        }
        Act::End(end) => {
            let end = end.copied(alloc)?;
            standing.end(thread, end);
            return Ok(());
        }
        Act::Halt(number) => {
            standing.halt(*number);
            return Ok(());
        }
        Act::Left => {
            standing.leave(thread);
            return Ok(());
        }
    }
}
