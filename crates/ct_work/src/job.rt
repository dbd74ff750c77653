//! What threads are to do.

use ct_turn::{Machine, Seat};
use std::collections::VecDeque;

/// The act of a line, for one of the turns.
#[derive(Drop)]
pub struct Job<M: Machine>
where
    M::Act: Drop,
{
    /// The turn's index.
    pub turn: u32,
    /// The line's number in the script.
    pub line: u32,
    pub act: M::Act,
}

/// The jobs of one thread, in order, and its seat at each turn, in the order of the turns.
#[derive(Drop)]
pub struct Lane<M: Machine>
where
    M::Act: Drop,
{
    pub jobs: VecDeque<Job<M>>,
    pub seats: Vec<Seat<M>>,
}

/// A thread that does what can be done next. It has a seat at each turn, in the order of the turns.
#[derive(Drop)]
pub struct Worker<M: Machine> {
    pub seats: Vec<Seat<M>>,
}

/// What comes back of a phase, in the order in which it was handed in.
#[derive(Drop)]
pub struct Phase<M: Machine>
where
    M::Act: Drop,
{
    pub lanes: Vec<Lane<M>>,
    pub workers: Vec<Worker<M>>,
}
