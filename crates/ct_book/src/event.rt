use crate::work::{Command, Work};
use ct_sense::Reply;
use ct_tmf::Outcome;
use ct_word::{CmdNo, NexusSet, Node};

/// Why a command was cut.
#[derive(Clone, Copy, Debug, PartialEq, Eq)]
pub enum Why {
    /// By a task management function, or by a PREEMPT AND ABORT
    By(CmdNo),
    /// The medium failed.
    Medium,
}

/// The kinds of message that the nodes send to each other.
#[derive(Clone, Copy, Debug, PartialEq, Eq)]
pub enum Kind2 {
    /// B to A: a command came.
    Ask,
    /// B to A: a task management function came.
    Function,
    /// B to A: a granted command ended.
    Finish,
    /// B to A: a granted command was cut by a stop.
    Stopped,
    /// A to B: a command may begin there.
    Grant,
    /// A to B: a command was cut, or has to stop.
    Stop,
    /// A to B: a command was answered.
    Reply,
    /// A to B: a task management function was answered.
    Response,
}

/// What can happen at a logical unit. Works are named by their numbers.
#[derive(Clone, Copy, Debug, PartialEq, Eq)]
pub enum Event {
    /// A work came at a node.
    Came {
        no: CmdNo,
        node: Node,
        line: u32,
    },
    /// A command entered the task set.
    Enter {
        no: CmdNo,
    },
    /// A command was refused at its arrival.
    Turned {
        no: CmdNo,
    },
    /// A command began at A.
    Begun {
        no: CmdNo,
    },
    /// A command was granted to B.
    Granted {
        no: CmdNo,
    },
    /// A command made so many block operations.
    Moved {
        no: CmdNo,
        count: u32,
    },
    /// A command ended.
    Ended {
        no: CmdNo,
    },
    /// A command was cut when it had put so many blocks; `told` says that its initiator gets TASK ABORTED.
    Cut {
        no: CmdNo,
        puts: u32,
        why: Why,
        told: bool,
    },
    /// A task management function was taken up at A.
    Asked {
        no: CmdNo,
    },
    /// A task management function was answered.
    Closed {
        no: CmdNo,
        outcome: Outcome,
    },
    /// A message came to a node.
    Deliver {
        node: Node,
        kind: Kind2,
        no: CmdNo,
    },
}

/// An event with what counts with it: an arrival with its work, and with its reply what ends a command with one.
#[derive(Debug, Drop)]
pub struct Logged {
    pub event: Event,
    pub work: Option<Work<Command>>,
    pub reply: Option<Reply>,
}

/// An entry of the history: how a work was done.
#[derive(Clone, Copy, Debug, PartialEq, Eq)]
pub enum Entry {
    /// A command ran.
    Ran(CmdNo),
    /// A command was cut when it had put so many blocks.
    Cut(CmdNo, u32, Why),
    /// A command was refused at its arrival.
    Turned(CmdNo),
    /// A task management function was answered; a CLEAR TASK SET cut commands of these other nexuses.
    Func(CmdNo, NexusSet),
}
