//! Lanes and workers over a counter.
ghost use Rattle.std.specs.Prelude.{◌≡◌, ◌+◌, ◌<◌, ◌≤◌, All, IfOk, length, slice_index_or};
ghost use Rattle.ct_work.specs.Jobs.{IsPaired, IsAllowed};
ghost use Rattle.ct_counter.specs.Runs.{IsOnly, allows_all};

use crate::counter::{Act, Answer, Counter};
use ct_turn::{Seat, Turn};
use ct_work::{Gate, Job, Lane, Phase, Worker, phase};
use std::alloc::{AllocError, Global};
use std::collections::VecDeque;
use std::sync::Wait;
use std::thread::Threads;

/// How many lanes and workers, and how many lines a lane.
#[derive(Copy, Clone)]
pub struct Size {
    pub lanes: u32,
    pub workers: u32,
    pub lines: u32,
}

fn jobs_of(alloc: Global, lane: u32, lines: u32) -> Result<VecDeque<Job<Counter>>, AllocError>
    ensures { IfOk result (λ jobs. All (λ j. j.turn ≡ 0) jobs.items) }
{
    let mut jobs = VecDeque::new(alloc);
    for number in 0..lines {
        let line = lane.wrapping_mul(lines).wrapping_add(number);
        jobs.push_back(Job {
            turn: 0,
            line,
            act: Act::Come { lane, line },
        })?;
    }
    Ok(jobs)
}

// A seat at the only turn, in a list.
fn seats_of(
    alloc: Global,
    turns: &Vec<Turn<Counter>>,
    seat: &mut Seat<Counter>,
) -> Result<Vec<Seat<Counter>>, AllocError>
    requires turns { IsOnly turns.now.items seat.old.turn }
    requires parts { 2 ≤ seat.old.parts }
    ensures seat { (seat.new.turn ≡ seat.old.turn) × (seat.old.parts ≤ seat.new.parts + 1) }
    ensures seats { IfOk result (λ seats. IsPaired turns.now.items seats.items) }
{
    let mut seats = Vec::with_capacity(alloc, 1)?;
    seats.push_reserved(turns[0].split(seat));
    Ok(seats)
}

#[tactic(auto, using(crate::proofs::Allowed::all_allowed))]
fn lane_of(
    alloc: Global,
    turns: &Vec<Turn<Counter>>,
    seat: &mut Seat<Counter>,
    lane: u32,
    lines: u32,
) -> Result<Lane<Counter>, AllocError>
    requires turns { IsOnly turns.now.items seat.old.turn }
    requires parts { 2 ≤ seat.old.parts }
    ensures seat { (seat.new.turn ≡ seat.old.turn) × (seat.old.parts ≤ seat.new.parts + 1) }
    ensures paired { IfOk result (λ lane. IsPaired turns.now.items lane.seats.items) }
    ensures allowed { IfOk result (λ lane. All (λ j. IsAllowed allows_all lane.seats.items j.turn j.act) lane.jobs.items) }
{
    let jobs = jobs_of(alloc, lane, lines)?;
    let seats = seats_of(alloc, turns, seat)?;
    Ok(Lane { jobs, seats })
}

fn lanes_of(
    alloc: Global,
    turns: &Vec<Turn<Counter>>,
    seat: &mut Seat<Counter>,
    size: Size,
) -> Result<Vec<Lane<Counter>>, AllocError>
    requires turns { IsOnly turns.now.items seat.old.turn }
    requires parts { size.lanes < seat.old.parts }
    ensures seat { (seat.new.turn ≡ seat.old.turn) × (seat.old.parts ≤ seat.new.parts + size.lanes) }
    ensures paired { IfOk result (λ lanes. All (λ l. IsPaired turns.now.items l.seats.items) lanes.items) }
    ensures allowed { IfOk result (λ lanes. All (λ l. All (λ j. IsAllowed allows_all l.seats.items j.turn j.act) l.jobs.items) lanes.items) }
{
    let mut lanes = Vec::new(alloc);
    for lane in 0..size.lanes {
        let made = lane_of(alloc, turns, seat, lane, size.lines)?;
        lanes.push(made)?;
    }
    Ok(lanes)
}

fn workers_of(
    alloc: Global,
    turns: &Vec<Turn<Counter>>,
    seat: &mut Seat<Counter>,
    size: Size,
) -> Result<Vec<Worker<Counter>>, AllocError>
    requires turns { IsOnly turns.now.items seat.old.turn }
    requires parts { size.workers < seat.old.parts }
    ensures seat { seat.new.turn ≡ seat.old.turn }
    ensures paired { IfOk result (λ workers. All (λ w. IsPaired turns.now.items w.seats.items) workers.items) }
{
    let mut workers = Vec::new(alloc);
    for _ in 0..size.workers {
        let seats = seats_of(alloc, turns, seat)?;
        workers.push(Worker { seats })?;
    }
    Ok(workers)
}

// Ends all lines that wait.
fn drain<R: Wait>(rt: &R, turn: &Turn<Counter>, seat: &mut Seat<Counter>)
    requires { seat.old.turn ≡ turn.now }
    ensures { seat.new.turn ≡ seat.old.turn }
{
    for _ in 0..u64::MAX {
        let answer = turn.act(rt, seat, Act::Next);
        if !matches!(answer, Answer::Ended { line: _ }) {
            return;
        }
    }
}

fn run<R: Threads + Wait + Sync, G: Gate + Sync>(
    rt: &R,
    alloc: Global,
    turns: &Vec<Turn<Counter>>,
    seat: &mut Seat<Counter>,
    size: Size,
    gate: &G,
) -> Result<(), AllocError>
    requires turns { IsOnly turns.now.items seat.old.turn }
    requires parts { size.lanes + size.workers < seat.old.parts }
    ensures { seat.new.turn ≡ seat.old.turn }
{
    let lanes = lanes_of(alloc, turns, seat, size)?;
    let workers = workers_of(alloc, turns, seat, size)?;
    let Phase {
        lanes: _,
        workers: _,
    } = phase(rt, turns, lanes, workers, gate);
    drain(rt, &turns[0], seat);
    Ok(())
}

/// The counter behind one phase, in which each lane's lines come, and a drain, which ends those that still wait.
pub fn count<R: Threads + Wait + Sync, G: Gate + Sync>(
    rt: &R,
    alloc: Global,
    size: Size,
    gate: &G,
) -> Result<Counter, AllocError>
    requires { size.lanes + size.workers < 4096 }
{
    let mut turns = Vec::with_capacity(alloc, 1)?;
    let (turn, mut seat) = match Turn::open(alloc, Counter::new(alloc, 0)) {
        Ok(opened) => opened,
        Err(_) => {
            turns.destroy_empty();
            return Err(AllocError);
        }
    };
    turns.push_reserved(turn);
    let ran = run(rt, alloc, &turns, &mut seat, size, gate);
    let turn = turns.pop().unwrap();
    turns.destroy_empty();
    let counter = turn.close(rt, seat);
    ran?;
    Ok(counter)
}
