//! Lanes and workers at once.
ghost use Rattle.std.specs.Prelude.{All};
ghost use Rattle.ct_work.specs.Jobs.{IsPaired, IsAllowed};
ghost use Rattle.ct_work.specs.Phases.{LanesDone, WorkersDone};

use crate::bell::Bell;
use crate::gate::Gate;
use crate::job::{Lane, Phase, Worker};
use crate::lanes::run_lanes;
use crate::workers::run_workers;
use ct_turn::{Machine, Turn};
use std::sync::Wait;
use std::thread::{Threads, join_mut};

/// Runs all lanes and all workers at once, each in a thread of its own. Each lane makes the acts of its jobs in their
/// order; each worker does what can be done next, in pieces of at most 8 blocks, until all lanes are done. Work that
/// gets no thread is done by the caller, lanes before workers. No call in it takes memory from an allocator.
///
/// Each lane and each worker has one seat a turn, in the order of the turns, and each job names a turn and an act that
/// the turn's opening allows.
pub fn phase<R: Threads + Wait + Sync, M: Machine + Send, G: Gate + Sync>(
    rt: &R,
    turns: &Vec<Turn<M>>,
    lanes: Vec<Lane<M>>,
    workers: Vec<Worker<M>>,
    gate: &G,
) -> Phase<M>
where
    M::Act: Send + Drop,
    M::Answer: Send + Drop,
    requires lanes_paired { All (λ l. IsPaired turns.now.items l.seats.items) lanes.items }
    requires lanes_allowed { All (λ l. All (λ j. IsAllowed M.allows l.seats.items j.turn j.act) l.jobs.items) lanes.items }
    requires workers_paired { All (λ w. IsPaired turns.now.items w.seats.items) workers.items }
    ensures lanes { LanesDone lanes.items result.lanes.items }
    ensures workers { WorkersDone (M.next_act 8) workers.items result.workers.items }
{
    let bell = Bell::new();
    let mut lanes = lanes;
    let mut workers = workers;
    run_both(
        rt,
        turns,
        gate,
        &bell,
        lanes.as_mut_slice(),
        workers.as_mut_slice(),
    );
    Phase { lanes, workers }
}

fn run_both<'a, M: Machine + Send, R: Threads + Wait + Sync, G: Gate + Sync>(
    rt: &'a R,
    turns: &'a Vec<Turn<M>>,
    gate: &'a G,
    bell: &'a Bell,
    lanes: &mut [Lane<M>],
    workers: &mut [Worker<M>],
)
where
    M::Act: Send + Drop,
    M::Answer: Send + Drop,
    requires lanes_paired { All (λ l. IsPaired turns.now.items l.seats.items) lanes.old }
    requires lanes_allowed { All (λ l. All (λ j. IsAllowed M.allows l.seats.items j.turn j.act) l.jobs.items) lanes.old }
    requires workers_paired { All (λ w. IsPaired turns.now.items w.seats.items) workers.old }
    ensures lanes { LanesDone lanes.old lanes.new }
    ensures workers { WorkersDone (M.next_act 8) workers.old workers.new }
{
    // The second closure runs in this thread, and first where the first one gets none.
    join_mut(
        rt,
        &mut ||
            requires { All (λ w. IsPaired turns.now.items w.seats.items) workers.now }
            ensures { WorkersDone (M.next_act 8) workers.entry.now workers.exit.now }
        { run_workers(rt, turns, gate, bell, workers) },
        &mut ||
            requires { All (λ l. IsPaired turns.now.items l.seats.items) lanes.now × All (λ l. All (λ j. IsAllowed M.allows l.seats.items j.turn j.act) l.jobs.items) lanes.now }
            ensures { LanesDone lanes.entry.now lanes.exit.now }
        { run_lanes_to_end(rt, turns, gate, bell, lanes) },
    );
}

fn run_lanes_to_end<M: Machine + Send, R: Threads + Wait + Sync, G: Gate + Sync>(
    rt: &R,
    turns: &Vec<Turn<M>>,
    gate: &G,
    bell: &Bell,
    lanes: &mut [Lane<M>],
)
where
    M::Act: Send + Drop,
    M::Answer: Send + Drop,
    requires paired { All (λ l. IsPaired turns.now.items l.seats.items) lanes.old }
    requires allowed { All (λ l. All (λ j. IsAllowed M.allows l.seats.items j.turn j.act) l.jobs.items) lanes.old }
    ensures { LanesDone lanes.old lanes.new }
{
    run_lanes(rt, turns, gate, bell, lanes);
    bell.finish(rt);
}
