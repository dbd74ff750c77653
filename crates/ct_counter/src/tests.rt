use super::*;
use crate::counter::Act;
use ct_turn::{Machine, Turn};
use ct_work::Gate;
use std::alloc::Global;
use std::sync::Wait;
use std::sync::atomic::{AtomicU64, Ordering};
use std::test::Fail;
use std::thread;
use std::thread::Threads;

const LOOKS: u64 = 100_000_000;

/// Holds one line until another has ended.
#[derive(Drop)]
struct Hold {
    held: u32,
    awaited: u32,
    ended: AtomicU64,
    missed: AtomicU64,
}

impl Hold {
    fn new(held: u32, awaited: u32) -> Hold {
        Hold {
            held,
            awaited,
            ended: AtomicU64::new(0),
            missed: AtomicU64::new(0),
        }
    }
}

impl Gate for Hold {
    fn before(&self, line: u32) {
        if line != self.held {
            return;
        }
        for _ in 0..LOOKS {
            if self.ended.load(Ordering::SeqCst) == 1 {
                return;
            }
            thread::yield_now();
        }
        self.missed.store(1, Ordering::SeqCst);
    }

    fn after(&self, line: u32) {
        if line == self.awaited {
            self.ended.store(1, Ordering::SeqCst);
        }
    }
}

// How far a line is.
#[derive(Copy, Clone)]
struct Line {
    came: bool,
    ended: bool,
}

// Each lane's lines came in order, and each ended once, after it came.
fn is_merge(alloc: Global, counter: &Counter, size: Size) -> Result<bool, Fail> {
    let mut next = Vec::new(alloc);
    let mut lines = Vec::new(alloc);
    for lane in 0..size.lanes {
        next.push(lane.wrapping_mul(size.lines))?;
        for _ in 0..size.lines {
            lines.push(Line {
                came: false,
                ended: false,
            })?;
        }
    }
    for event in counter.events() {
        let fits = match event {
            Event::Came { lane, line } => {
                comes(next.as_mut_slice(), lines.as_mut_slice(), *lane, *line)
            }
            Event::Ended { line } => ends(lines.as_mut_slice(), *line),
        };
        if !fits {
            return Ok(false);
        }
    }
    Ok(lines.iter().all(|line| line.ended))
}

fn comes(next: &mut [u32], lines: &mut [Line], lane: u32, line: u32) -> bool {
    let Some(next) = next.get_mut(lane as usize) else {
        return false;
    };
    let Some(place) = lines.get_mut(line as usize) else {
        return false;
    };
    let fits = *next == line && !place.came;
    *next = next.wrapping_add(1);
    place.came = true;
    fits
}

fn ends(lines: &mut [Line], line: u32) -> bool {
    let Some(place) = lines.get_mut(line as usize) else {
        return false;
    };
    let fits = place.came && !place.ended;
    place.ended = true;
    fits
}

#[test]
fn runs_on_threads(rt: HostRuntime) -> Result<(), Fail> {
    for workers in [1, 4, 16] {
        let size = Size {
            lanes: 4,
            workers,
            lines: 32,
        };
        let counter = count(&rt, rt.alloc(), size, &Open)?;
        assert!(rt;
            is_merge(rt.alloc(), &counter, size)?,
            "with {workers} workers"
        );
    }
    Ok(())
}

#[test]
fn makes_4096_acts_by_16_seats(rt: HostRuntime) -> Result<(), Fail> {
    let size = Size {
        lanes: 16,
        workers: 0,
        lines: 256,
    };
    let counter = count(&rt, rt.alloc(), size, &Open)?;
    assert_eq!(rt; counter.len(), 8192);
    assert!(rt; is_merge(rt.alloc(), &counter, size)?);
    Ok(())
}

// Lanes of one line each. One line is held until the other has ended.
fn passes<R: Threads + Wait + Sync>(
    rt: &R,
    alloc: Global,
    held: u32,
    awaited: u32,
) -> Result<bool, Fail> {
    let gate = Hold::new(held, awaited);
    let size = Size {
        lanes: 2,
        workers: 1,
        lines: 1,
    };
    let counter = count(rt, alloc, size, &gate)?;
    let [
        Event::Came {
            lane: _,
            line: first,
        },
        Event::Ended { line: second },
        Event::Came {
            lane: _,
            line: third,
        },
        Event::Ended { line: _ },
    ] = counter.events()
    else {
        return Ok(false);
    };
    let ordered = *first == awaited && *second == awaited && *third == held;
    Ok(ordered && gate.missed.load(Ordering::SeqCst) == 0)
}

#[test]
fn either_lane_waits_for_the_other(rt: HostRuntime) -> Result<(), Fail> {
    assert!(rt; passes(&rt, rt.alloc(), 0, 1)?);
    assert!(rt; passes(&rt, rt.alloc(), 1, 0)?);
    Ok(())
}

#[test]
fn seats_are_split_and_joined(rt: HostRuntime) -> Result<(), Fail> {
    let Ok((turn, mut seat)) = Turn::open(rt.alloc(), Counter::new(rt.alloc(), 0)) else {
        panic!(rt; "no memory")
    };
    let mut other = turn.split(&mut seat);
    turn.act(&rt, &mut seat, Act::Come { lane: 0, line: 0 });
    turn.act(&rt, &mut other, Act::Come { lane: 1, line: 1 });
    turn.meet(&mut seat, &mut other);
    other.shows();
    turn.act(&rt, &mut seat, Counter::next(8));
    turn.join(&mut seat, other);
    let counter = turn.close(&rt, seat);
    assert_eq!(rt; counter.len(), 3);
    Ok(())
}
