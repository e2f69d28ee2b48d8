//! The schedule of a program's threads, by one worker.
ghost use Rattle.std.specs.Prelude.{◌≡◌, ◌⊎◌, ◌∷◌, [], IfOk, IfSome, IfNone};
ghost use Rattle.plsearch.specs.Starts.{searches};
ghost use Rattle.plhist.specs.Legal.{opening, Legal, ByOneWorker, Over};
ghost use Rattle.plhist.specs.Runs.{AllFollow, OneEach};
ghost use Rattle.plworld.specs.Worlds.{IsServing};
ghost use Rattle.plsolver.specs.Solver.{IsSharedOf};
ghost use Rattle.plrun.specs.Threads.{IsThread};
ghost use Rattle.plrun.specs.Overall.{IsHistory};

use crate::thread::{Running, run_thread};
use plevent::{Reply, Request, ThreadId, WorkerId};
use plhist::{History, Journal, Run, Runs};
use plprogram::program::Program;
use plsolver::shared::Shared;
use plsolver::solver::{Solver, Start};
use plworld::World;
use std::alloc::{AllocError, Global};

/// Starts a thread that was created and is not started. None: the run is over.
fn start(
    alloc: Global,
    shared: &Shared,
    program: &Program,
    world: &mut World,
    steps: u64,
) -> Result<Option<Running>, AllocError>
    requires shared { IsSharedOf program.now shared.now }
    requires at { (world.old.journal ≡ opening program.now.first ∷ []) ⊎ Over world.old.journal }
    requires serves { IsServing world.old }
    ensures begun { IfOk result (λ o. IfSome o (λ running. IsThread program.now world.new.journal running)) }
    ensures limit { IfOk result (λ o. IfSome o (λ running. running.solver.limit ≡ steps)) }
    ensures first { IfOk result (λ o. IfSome o (λ running. world.old.journal ≡ opening program.now.first ∷ [])) }
    ensures over { IfOk result (λ o. IfNone o (Over world.old.journal × (world.new.journal ≡ world.old.journal))) }
    ensures serves { IsServing world.new }
{
    match world.step(alloc, WorkerId::FIRST, ThreadId::NONE, Request::Start)? {
        Reply::Started {
            number,
            alias,
            goal,
        } => {
            let given = Start {
                thread: number,
                alias,
                goal,
            };
            let solver = Solver::new(alloc, shared, program, given, steps)?;
            Ok(Some(Running {
                thread: number,
                solver,
            }))
        }
        _ => Ok(None),
    }
}

/// Starts and runs threads until the run is over.
fn run_all(
    alloc: Global,
    program: &Program,
    world: &mut World,
    steps: u64,
) -> Result<Vec<Run>, AllocError>
    requires opens { world.old.journal ≡ opening program.now.first ∷ [] }
    requires serves { IsServing world.old }
    ensures { IfOk result (λ runs. IsHistory program.now.first (searches program.now steps world.new.journal) steps world.new.journal runs.items) }
{
    let shared = Shared::new(alloc, program)?;
    let mut runs = Vec::new(alloc);
    while let Some(running) = start(alloc, &shared, program, world, steps)? {
        runs.push(run_thread(alloc, program, world, running)?)?;
    }
    Ok(runs)
}

/// Runs a program, where each thread may take so many steps: the journal and the run of each thread.
/// The picks name the threads whose turns come next, by their order among those that can go on;
/// behind them the threads take turns. As long as main is the only thread, each turn is main's.
pub fn run_schedule(
    alloc: Global,
    program: &Program,
    steps: u64,
    _picks: &[u32],
) -> Result<History, AllocError>
    ensures legal { IfOk result (λ history. Legal program.now.first history.journal) }
    ensures worker { IfOk result (λ history. ByOneWorker history.journal) }
    ensures over { IfOk result (λ history. Over history.journal) }
    ensures follow { IfOk result (λ history. AllFollow (searches program.now steps history.journal) steps history.journal history.runs) }
    ensures each { IfOk result (λ history. OneEach history.journal history.runs) }
{
    let mut world = World::open(alloc, program.first())?;
    let runs = run_all(alloc, program, &mut world, steps)?;
    Ok(History {
        journal: Journal::new(world.close()),
        runs: Runs::new(runs),
    })
}
