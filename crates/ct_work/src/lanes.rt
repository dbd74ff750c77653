//! Lanes: the acts of jobs, in order.
ghost use Rattle.std.specs.Prelude.{◌≡◌, [], All, IfSome};
ghost use Rattle.ct_turn.specs.Seats.{Acts};
ghost use Rattle.ct_work.specs.Jobs.{IsPaired, IsAllowed, GrownAll};
ghost use Rattle.ct_work.specs.Phases.{LaneDone, LanesDone};

use crate::bell::Bell;
use crate::gate::Gate;
use crate::job::{Job, Lane};
use ct_turn::{Machine, Seat, Turn};
use std::collections::VecDeque;
use std::sync::Wait;
use std::thread;
use std::thread::Threads;

/// Makes an act, and tells the gate of the line that it ended.
pub(crate) fn make<M: Machine, R: Wait, G: Gate>(
    rt: &R,
    turn: &Turn<M>,
    seat: &mut Seat<M>,
    act: M::Act,
    gate: &G,
) -> M::Answer
    requires turn { seat.old.turn ≡ turn.now }
    requires allowed { IfSome seat.old.opening (λ o. M.allows o act) }
    ensures same { (seat.new.turn ≡ seat.old.turn) × (seat.new.opening ≡ seat.old.opening) × (seat.new.parts ≡ seat.old.parts) }
    ensures act { Acts M.steps seat.old act result seat.new }
{
    let answer = turn.act(rt, seat, act);
    if let Some(line) = M::line(&answer) {
        gate.after(line);
    }
    answer
}

fn run_jobs<M: Machine, R: Wait, G: Gate>(
    rt: &R,
    turns: &Vec<Turn<M>>,
    jobs: &mut VecDeque<Job<M>>,
    seats: &mut Vec<Seat<M>>,
    gate: &G,
    bell: &Bell,
)
where
    M::Act: Drop,
    M::Answer: Drop,
    requires paired { IsPaired turns.now.items seats.old.items }
    requires allowed { All (λ j. IsAllowed M.allows seats.old.items j.turn j.act) jobs.old.items }
    ensures done { jobs.new.items ≡ [] }
    ensures grown { GrownAll seats.old.items jobs.old.items seats.new.items }
{
    while let Some(job) = jobs.pop_front() {
        let Job { turn, line, act } = job;
        let index = turn as usize;
        gate.before(line);
        make(rt, &turns[index], &mut seats[index], act, gate);
        bell.ring(rt);
    }
}

fn run_lane<M: Machine, R: Wait, G: Gate>(
    rt: &R,
    turns: &Vec<Turn<M>>,
    lane: &mut Lane<M>,
    gate: &G,
    bell: &Bell,
)
where
    M::Act: Drop,
    M::Answer: Drop,
    requires paired { IsPaired turns.now.items lane.old.seats.items }
    requires allowed { All (λ j. IsAllowed M.allows lane.old.seats.items j.turn j.act) lane.old.jobs.items }
    ensures { LaneDone lane.old lane.new }
{
    run_jobs(rt, turns, &mut lane.jobs, &mut lane.seats, gate, bell);
}

/// All lanes at once, each in a thread of its own where one can be made.
pub(crate) fn run_lanes<M: Machine + Send, R: Threads + Wait + Sync, G: Gate + Sync>(
    rt: &R,
    turns: &Vec<Turn<M>>,
    gate: &G,
    bell: &Bell,
    lanes: &mut [Lane<M>],
)
where
    M::Act: Send + Drop,
    M::Answer: Send + Drop,
    requires paired { All (λ l. IsPaired turns.now.items l.seats.items) lanes.old }
    requires allowed { All (λ l. All (λ j. IsAllowed M.allows l.seats.items j.turn j.act) l.jobs.items) lanes.old }
    ensures { LanesDone lanes.old lanes.new }
{
    let count = lanes.len();
    if count == 0 {
        return;
    }
    thread::for_each_mut(
        rt,
        lanes,
        count,
        &|_, lane: &mut Lane<M>|
            requires { IsPaired turns.now.items lane.old.seats.items × All (λ j. IsAllowed M.allows lane.old.seats.items j.turn j.act) lane.old.jobs.items }
            ensures { LaneDone lane.entry.now lane.exit.now }
        { run_lane(rt, turns, lane, gate, bell) },
    );
}
