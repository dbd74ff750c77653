//! What a seat knows of its turn, as data that exist in proofs alone, and what the slot of a turn holds.

use std::collections::LinkedList;
use std::snapshot::Snapshot;

/// An act that a seat made, and its answer. It added the events of the journal from `from` up to and without `to`.
pub struct Item<A, B> {
    pub act: A,
    pub answer: B,
    pub from: u64,
    pub to: u64,
}

/// How far a seat is in an act.
pub enum Stage {
    Idle,
    /// It has the turn, and the machine is in its slot.
    Turned,
    /// It has the turn and the machine.
    Out,
}

/// What a seat knows. No value of it is made.
pub struct Known<O, E, A, B> {
    /// None of a seat that was joined to another, and of no other.
    pub opening: Option<O>,
    /// The first events of the journal.
    pub seen: LinkedList<E>,
    pub own: LinkedList<Item<A, B>>,
    pub parts: u64,
    pub stage: Stage,
    /// The two lists that a join put together, until the next look at the length of the journal.
    pub one: LinkedList<E>,
    pub two: LinkedList<E>,
    /// The opening of the seat that was joined, until then too.
    pub told: Option<O>,
}

/// What the slot of a turn holds.
pub enum Slot<M, A, B> {
    Home(M),
    Away,
    /// The machine, the act and the answer: it is shown at the step that writes the length.
    Said(Snapshot<M>, Snapshot<A>, Snapshot<B>),
}
