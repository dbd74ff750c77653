//! Workers: the act of `next`, at each turn in order, until all lanes are done.
ghost use Rattle.std.specs.Prelude.{◌≡◌, All};
ghost use Rattle.ct_work.specs.Jobs.{IsPaired};
ghost use Rattle.ct_work.specs.Phases.{GrownBy, WorkerDone, WorkersDone};

use crate::bell::Bell;
use crate::gate::Gate;
use crate::job::Worker;
use crate::lanes::make;
use ct_turn::{Machine, Seat, Turn};
use std::sync::Wait;
use std::thread;
use std::thread::Threads;

// One act at each turn. True where something moved.
fn pass<M: Machine, R: Wait, G: Gate>(
    rt: &R,
    turns: &Vec<Turn<M>>,
    seats: &mut Vec<Seat<M>>,
    gate: &G,
) -> bool
where
    M::Answer: Drop,
    requires { IsPaired turns.now.items seats.old.items }
    ensures { GrownBy (λ a. a ≡ M.next_act 8) seats.old.items seats.new.items }
{
    let mut moved = false;
    for index in 0..turns.len() {
        let answer = make(rt, &turns[index], &mut seats[index], M::next(8), gate);
        if !M::idle(&answer) {
            moved = true;
        }
    }
    moved
}

fn work<M: Machine, R: Wait, G: Gate>(
    rt: &R,
    turns: &Vec<Turn<M>>,
    seats: &mut Vec<Seat<M>>,
    gate: &G,
    bell: &Bell,
)
where
    M::Answer: Drop,
    requires { IsPaired turns.now.items seats.old.items }
    ensures { GrownBy (λ a. a ≡ M.next_act 8) seats.old.items seats.new.items }
{
    for _ in rt.forever() {
        let Some(moves) = bell.moves(rt) else {
            return;
        };
        if pass(rt, turns, seats, gate) {
            bell.ring(rt);
        } else {
            bell.wait_past(rt, moves);
        }
    }
    unreachable!()
}

fn run_worker<M: Machine, R: Wait, G: Gate>(
    rt: &R,
    turns: &Vec<Turn<M>>,
    worker: &mut Worker<M>,
    gate: &G,
    bell: &Bell,
)
where
    M::Answer: Drop,
    requires { IsPaired turns.now.items worker.old.seats.items }
    ensures { WorkerDone (M.next_act 8) worker.old worker.new }
{
    work(rt, turns, &mut worker.seats, gate, bell);
}

/// All workers at once, each in a thread of its own where one can be made.
pub(crate) fn run_workers<M: Machine + Send, R: Threads + Wait + Sync, G: Gate + Sync>(
    rt: &R,
    turns: &Vec<Turn<M>>,
    gate: &G,
    bell: &Bell,
    workers: &mut [Worker<M>],
)
where
    M::Act: Send,
    M::Answer: Send + Drop,
    requires { All (λ w. IsPaired turns.now.items w.seats.items) workers.old }
    ensures { WorkersDone (M.next_act 8) workers.old workers.new }
{
    let count = workers.len();
    if count == 0 {
        return;
    }
    thread::for_each_mut(
        rt,
        workers,
        count,
        &|_, worker: &mut Worker<M>|
            requires { IsPaired turns.now.items worker.old.seats.items }
            ensures { WorkerDone (M.next_act 8) worker.entry.now worker.exit.now }
        { run_worker(rt, turns, worker, gate, bell) },
    );
}
