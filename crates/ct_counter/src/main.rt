//! A small machine on which turns, lanes and workers are run: `ct_counter LANES WORKERS LINES` has so many lines come
//! from each lane, and prints the journal.
#![tactic(auto)]

ghost use Rattle.std.specs.Prelude.{◌+◌, ◌<◌, IfSome};

mod counter;
mod runs;
#[cfg(test)]
mod tests;

use counter::{Counter, Event};
use ct_work::Open;
use runs::{Size, count};
use std::rt::Env;
use std::{env, io};

const MOST_THREADS: u32 = 64;

fn main(rt: HostRuntime) -> io::Result<()> {
    let Some(size) = size_of(&rt) else {
        return println!(rt; "usage: ct_counter LANES WORKERS LINES");
    };
    match count(&rt, rt.alloc(), size, &Open) {
        Ok(counter) => print_journal(&rt, &counter),
        Err(_) => println!(rt; "no memory"),
    }
}

// The words of the program, where they are numbers and ask for few enough threads.
fn size_of(rt: &(impl Env + AllocGlobal)) -> Option<Size>
    ensures { IfSome result (λ size. size.lanes + size.workers < 4096) }
{
    let words = env::args(rt).ok()?.skip(1).collect(rt.alloc()).ok()?;
    let size = Size {
        lanes: number_at(&words, 0)?,
        workers: number_at(&words, 1)?,
        lines: number_at(&words, 2)?,
    };
    if size.lanes <= MOST_THREADS && size.workers <= MOST_THREADS {
        Some(size)
    } else {
        None
    }
}

fn number_at(words: &Vec<String>, at: usize) -> Option<u32> {
    words.get(at)?.parse().ok()
}

fn print_journal(rt: &impl Print, counter: &Counter) -> io::Result<()> {
    for event in counter.events() {
        match event {
            Event::Came { lane, line } => println!(rt; "came {lane} {line}")?,
            Event::Ended { line } => println!(rt; "ended {line}")?,
        }
    }
    Ok(())
}
