//! A counter with a journal.
ghost use Rattle.std.specs.Prelude.{◌≡◌, [], ◌∷◌, ◌++◌, if◌then◌else◌};
ghost use Rattle.ct_counter.specs.Counters.{Steps, next_act, is_idle, line_of};
ghost use Rattle.ct_counter.specs.Runs.{allows_all};

use ct_turn::Machine;
use std::alloc::Global;
use std::collections::VecDeque;
use std::marker::Model;

#[derive(Debug, Drop)]
pub enum Event {
    Came { lane: u32, line: u32 },
    Ended { line: u32 },
}

#[derive(Debug, Drop)]
pub enum Act {
    /// A line of a lane comes.
    Come { lane: u32, line: u32 },
    /// The first line that waits ends.
    Next,
}

#[derive(Debug, Drop)]
pub enum Answer {
    Queued,
    /// There was no memory.
    Full,
    Ended { line: u32 },
    Idle,
}

/// Lines come, wait, and end one after another. Contracts see its opening, a number that stands for nothing, and its
/// journal.
#[derive(Drop)]
pub struct Counter {
    opening: u32,
    events: Vec<Event>,
    waiting: VecDeque<u32>,
}

impl Model for Counter {
    ghost use Rattle.std.specs.Prelude.{ℕ, List, length, ◌<◌, ◌^◌};
    ghost use Rattle.ct_counter.specs.declared.counter.Event.{Event};

    ghost Value = { ℕ × List Event };

    ghost view = { λ c. (c.opening, c.events.items) };

    ghost invariant = { λ c. length c.events.items < 2 ^ 32 };
}

impl Counter {
    /// A counter to which no line came.
    pub fn new(alloc: Global, opening: u32) -> Counter
        ensures { result ≡ (opening, []) }
    {
        Counter {
            opening,
            events: Vec::new(alloc),
            waiting: VecDeque::new(alloc),
        }
    }

    pub fn events(&self) -> &[Event]
        ensures { result.now ≡ self.now.1 }
    {
        self.events.as_slice()
    }

    // False, and nothing is changed, where there is no memory.
    fn note(&mut self, event: Event) -> bool
        ensures { self.new ≡ (self.old.0, self.old.1 ++ (if result then event ∷ [] else [])) }
    {
        self.events.len() < 0xffff_ffff && self.events.push(event).is_ok()
    }
}

impl Machine for Counter {
    type Opening = u32;

    type Act = Act;

    type Answer = Answer;

    type Event = Event;

    ghost opening = { λ c. c.0 };

    ghost allows = { allows_all };

    ghost journal = { λ c. c.1 };

    ghost steps = { Steps };

    ghost next_act = { next_act };

    ghost is_idle = { is_idle };

    ghost line_of = { line_of };

    fn act(&mut self, act: Act) -> Answer {
        match act {
            Act::Come { lane, line } => {
                if self.waiting.push_back(line).is_err() {
                    return Answer::Full;
                }
                if self.note(Event::Came { lane, line }) {
                    Answer::Queued
                } else {
                    self.waiting.pop_back();
                    Answer::Full
                }
            }
            Act::Next => {
                let Some(&line) = self.waiting.front() else {
                    return Answer::Idle;
                };
                if self.note(Event::Ended { line }) {
                    self.waiting.pop_front();
                    Answer::Ended { line }
                } else {
                    Answer::Full
                }
            }
        }
    }

    fn len(&self) -> u32 {
        self.events.len() as u32
    }

    fn next(_blocks: u32) -> Act {
        Act::Next
    }

    fn idle(answer: &Answer) -> bool {
        matches!(answer, Answer::Idle)
    }

    fn line(answer: &Answer) -> Option<u32> {
        match answer {
            Answer::Ended { line } => Some(*line),
            _ => None,
        }
    }
}
