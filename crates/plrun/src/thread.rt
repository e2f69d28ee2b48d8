//! One thread's turns.
ghost use Rattle.std.specs.Prelude.{◌≡◌, ℕ, IfOk, OnOk, IfSome, [], ◌∷◌};
ghost use Rattle.plevent.specs.Search.{View, Ask};
ghost use Rattle.plsearch.specs.Solving.{StandsAt, EndsAt};
ghost use Rattle.plprogram.specs.Program.{Program as Given};
ghost use Rattle.plsearch.specs.Starts.{searches};
ghost use Rattle.plstore.specs.Looking.{Views};
ghost use Rattle.plsolver.specs.Fetching.{Fetches};
ghost use Rattle.plsolver.specs.Solver.{rest_of, WaitsForView, WaitsForReply};
ghost use Rattle.plworld.specs.Worlds.{IsServing};
ghost use Rattle.plrun.specs.Halts.{told, told_places};
ghost use Rattle.plrun.specs.Threads.{GoesOn, IsThread, run_now};
ghost use Rattle.plrun.specs.Overall.{IsHistory};

use plevent::{JournalPlace, Request, ThreadEnd, ThreadId, WorkerId};
use plhist::{Output, Places, Run, RunEnd};
use plprogram::program::Program;
use plsolver::solver::{Solver, Turn};
use plstore::Query;
use plworld::World;
use std::alloc::{AllocError, Global};

/// The steps of a slice.
const SLICE: u64 = 256;

/// A thread that was started.
#[derive(Drop)]
pub struct Running {
    pub thread: ThreadId,
    pub solver: Solver,
}

/// Takes the view that the thread asks, for clauses that are looked up or for what begins on it: the database as it is now.
fn look(world: &World, running: &mut Running) -> Result<(), AllocError>
    requires runs { (P : Given) × GoesOn P world.now.journal running.old }
    requires waits { WaitsForView running.old.solver }
    ensures runs { (P : Given) → GoesOn P world.now.journal running.old → ((v : Views) → StandsAt View (rest_of P v running.old.solver) running.old.solver.used running.old.solver.machine.out.items) → OnOk result (GoesOn P world.now.journal running.new) }
    ensures limit { running.new.solver.limit ≡ running.old.solver.limit }
{
    running.solver.refreshed(world.front())?;
    Ok(())
}

/// Finds what the thread asks in a view that it has.
fn fetch(world: &World, running: &mut Running, query: &Query) -> Result<(), AllocError>
    requires runs { (P : Given) × IsThread P world.now.journal running.old }
    requires fetches { (g : ℕ) × Fetches running.old.solver g query.now }
    ensures runs { (P : Given) → IsThread P world.now.journal running.old → OnOk result (IsThread P world.now.journal running.new) }
    ensures limit { running.new.solver.limit ≡ running.old.solver.limit }
{
    let view = running.solver.view();
    let found = world.look(view, query)?;
    running.solver.fetched(found)?;
    Ok(())
}

/// Serves a request of the thread: a batch is published, a clause is erased, or the run is ended.
fn serve(
    alloc: Global,
    world: &mut World,
    running: &mut Running,
    request: Request,
) -> Result<(), AllocError>
    requires runs { (P : Given) × GoesOn P world.old.journal running.old }
    requires serves { IsServing world.old }
    requires waits { WaitsForReply running.old.solver request }
    ensures runs { (P : Given) → GoesOn P world.old.journal running.old → ((v : Views) → StandsAt (Ask request) (rest_of P v running.old.solver) running.old.solver.used running.old.solver.machine.out.items) → OnOk result (IsThread P world.new.journal running.new) }
    ensures limit { running.new.solver.limit ≡ running.old.solver.limit }
    ensures serves { IsServing world.new }
{
    let place = world.front();
    let reply = world.step(alloc, WorkerId::FIRST, running.thread, request)?;
    running.solver.reply(place, reply)?;
    Ok(())
}

/// One turn of a thread: a slice of its steps, or an item that it asks; or it has come to this end.
#[tactic(auto, unfolding(plsolver::specs::Says::Says))]
#[inline(always)]
fn turn(
    alloc: Global,
    program: &Program,
    world: &mut World,
    running: &mut Running,
) -> Result<Option<ThreadEnd>, AllocError>
    requires runs { IsThread program.now world.old.journal running.old }
    requires serves { IsServing world.old }
    ensures runs { OnOk result (IsThread program.now world.new.journal running.new) }
    ensures ended { IfOk result (λ o. IfSome o (λ e. (v : Views) → EndsAt running.new.solver.limit e (rest_of program.now v running.new.solver) running.new.solver.used running.new.solver.machine.out.items)) }
    ensures limit { running.new.solver.limit ≡ running.old.solver.limit }
    ensures serves { IsServing world.new }
{
    match running.solver.advance(program, SLICE)? {
        Turn::Slice => Ok(None),
        Turn::Refresh => {
            look(world, running)?;
            Ok(None)
        }
        Turn::Fetch(query) => {
            fetch(world, running, &query)?;
            Ok(None)
        }
        Turn::Ask(request) => {
            serve(alloc, world, running, request)?;
            Ok(None)
        }
        Turn::Ended(end) => Ok(Some(end)),
    }
}

/// Tells the world of a thread's end, as its last item, at the place that is added. One that has ended the run tells nothing.
fn tell(
    alloc: Global,
    world: &mut World,
    thread: ThreadId,
    end: &ThreadEnd,
    places: &mut Vec<JournalPlace>,
) -> Result<(), AllocError>
    requires { IsServing world.old }
    ensures journal { OnOk result (world.new.journal ≡ told end.now thread world.old.journal) }
    ensures places { OnOk result (places.new.items ≡ told_places end.now world.old.journal places.old.items) }
    ensures serves { IsServing world.new }
{
    match end {
        ThreadEnd::Halt(_) => Ok(()),
        ThreadEnd::True | ThreadEnd::False | ThreadEnd::Exception(_) | ThreadEnd::Budget => {
            let request = Request::Finish(end.copied(alloc)?);
            places.push(world.front())?;
            world.step(alloc, WorkerId::FIRST, thread, request)?;
            Ok(())
        }
    }
}

/// The run of a thread that comes to this end, of which the world is told.
fn finish(
    alloc: Global,
    world: &mut World,
    running: &mut Running,
    end: ThreadEnd,
) -> Result<Run, AllocError>
    requires { IsServing world.old }
    ensures journal { OnOk result (world.new.journal ≡ told end running.old.thread world.old.journal) }
    ensures run { IfOk result (λ run. run ≡ run_now world.old.journal running.old end) }
    ensures serves { IsServing world.new }
{
    let mut places = running.solver.take_places();
    let output = running.solver.take_output();
    tell(alloc, world, running.thread, &end, &mut places)?;
    Ok(Run {
        thread: running.thread,
        places: Places::new(places),
        steps: running.solver.steps(),
        end: RunEnd::Ended(end),
        output: Output::new(output),
    })
}

/// Gives a thread its turns up to its end, and tells the world of it. More than 2^64 turns are want of memory.
fn run(
    alloc: Global,
    program: &Program,
    world: &mut World,
    running: &mut Running,
) -> Result<Run, AllocError>
    requires runs { IsThread program.now world.old.journal running.old }
    requires serves { IsServing world.old }
    ensures history { IfOk result (λ run. IsHistory program.now.first (searches program.now running.old.solver.limit world.new.journal) running.old.solver.limit world.new.journal (run ∷ [])) }
    ensures serves { IsServing world.new }
{
    'turns: for _ in 0..u64::MAX {
        if let Some(end) = turn(alloc, program, world, running)? {
            return finish(alloc, world, running, end);
        }
    }
    Err(AllocError)
}

/// Runs a thread to its end, by slices of 256 steps, and tells the world of it. More than 2^64 turns are want of memory.
pub fn run_thread(
    alloc: Global,
    program: &Program,
    world: &mut World,
    running: Running,
) -> Result<Run, AllocError>
    requires runs { IsThread program.now world.old.journal running }
    requires serves { IsServing world.old }
    ensures history { IfOk result (λ run. IsHistory program.now.first (searches program.now running.solver.limit world.new.journal) running.solver.limit world.new.journal (run ∷ [])) }
    ensures serves { IsServing world.new }
{
    let mut running = running;
    run(alloc, program, world, &mut running)
}
