use ct_book::{Cmd, Kind2, Work};
use ct_tmf::Outcome;
use ct_word::{CmdNo, Ha, LunNo, Node, Room};

/// What is done to a logical unit. Counts of block operations are at least 1.
#[derive(Debug, Drop)]
pub enum Act {
    /// A work comes at a node.
    Arrive(Node, Work<Cmd>),
    /// A command moves on, by at most so many block operations.
    Step(CmdNo, u32),
    /// The first message to a node comes to it.
    Deliver(Node),
    /// The first of these that there is: a message to A, one to B, a step of a command that is ready, of one that has
    /// begun.
    Next(u32),
}

/// What an act came to.
#[derive(Debug, Drop)]
pub enum Answer {
    /// A command entered the task set.
    Queued(CmdNo),
    /// A command was refused at its arrival.
    Turned(CmdNo),
    /// A work that came at B is on its way to A.
    Sent(CmdNo),
    /// A task management function awaits commands at B.
    Open(CmdNo),
    /// A task management function was answered.
    Closed(CmdNo, Outcome),
    /// There is no room for the work.
    NoRoom(Work<Cmd>),
    /// A command moved, or was granted.
    Moved(CmdNo),
    /// A command ended, or the medium failed it; the line is its work's.
    Ended(CmdNo, u32),
    /// The command has to wait, for this command or open function.
    Blocked(CmdNo),
    /// The command's next move is a message that is on its way.
    Away(CmdNo),
    /// No live command has the number.
    Gone,
    /// A message came.
    Delivered(Kind2, CmdNo),
    /// No message was on its way.
    Nothing,
    /// Nothing can be done next.
    Idle,
}

/// What a logical unit is opened with: its blocks are zeros.
#[derive(Clone, Copy, Debug, PartialEq, Eq)]
pub struct Opening {
    pub ha: Ha,
    pub lun: LunNo,
    pub blocks: u32,
    /// The most commands of the task set.
    pub depth: u32,
    /// The blocks of the pool from which commands take what they need meanwhile.
    pub pool: u32,
    pub room: Room,
}
