use ct_word::{Nexus, Tag};

/// A task management function (SAM-5, clause 7).
#[derive(Clone, Copy, Debug, PartialEq, Eq)]
pub enum Function {
    /// ABORT TASK, of the asker's command with a tag
    AbortTask(Tag),
    /// ABORT TASK SET
    AbortTaskSet,
    /// CLEAR TASK SET
    ClearTaskSet,
    /// LOGICAL UNIT RESET
    LunReset,
    /// I_T NEXUS RESET
    NexusReset,
    /// QUERY TASK, for the asker's command with a tag
    QueryTask(Tag),
    /// QUERY TASK SET
    QueryTaskSet,
    /// CLEAR ACA
    ClearAca,
}

/// A function that an initiator asks, with the number of its script line.
#[derive(Clone, Copy, Debug, PartialEq, Eq)]
pub struct Ask {
    pub line: u32,
    pub nexus: Nexus,
    pub function: Function,
}

/// How a function is answered (SAM-5, 7.1).
#[derive(Clone, Copy, Debug, PartialEq, Eq)]
pub enum Outcome {
    /// FUNCTION COMPLETE
    Complete,
    /// FUNCTION SUCCEEDED
    Succeeded,
    /// FUNCTION REJECTED
    Rejected,
}
