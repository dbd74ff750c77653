use crate::plan::Plan;
use ct_pool::Lease;
use ct_word::Reserve;

/// A command at work: its plan, the blocks of the pool that it holds meanwhile, its data so far with room for the rest,
/// and how many of its operations are done.
#[derive(Debug)]
pub struct Task {
    pub plan: Plan,
    pub lease: Lease,
    pub body: Reserve<u8>,
    pub done: u32,
}

/// How many operations a piece made, and what ended it; None where it made all that it was asked for and more are left.
#[derive(Clone, Copy, Debug, PartialEq, Eq)]
pub struct Piece {
    pub moved: u32,
    pub end: Option<PieceEnd>,
}

/// What ended a piece. A fault tells the LBA of the block that the medium failed to get or to put, and that operation
/// isn't made.
#[derive(Clone, Copy, Debug, PartialEq, Eq)]
pub enum PieceEnd {
    /// The plan is at its end.
    All,
    /// A compare found a difference, at this byte of the data-out, from 0. It counts as made.
    Miscompare(u32),
    ReadFault(u32),
    WriteFault(u32),
}
