use crate::sense::Sense;
use ct_word::Bytes;

/// How a command ended (SAM-5, 5.3.1).
#[derive(Clone, Copy, Debug, PartialEq, Eq)]
pub enum Status {
    /// 00h
    Good,
    /// 02h
    CheckCondition,
    /// 08h
    Busy,
    /// 18h
    ReservationConflict,
    /// 28h
    TaskSetFull,
    /// 30h
    AcaActive,
    /// 40h
    TaskAborted,
}

/// The answer to a command.
#[derive(Debug, Drop)]
pub struct Reply {
    pub status: Status,
    pub sense: Option<Sense>,
    /// Whether the sense data have the descriptor form.
    pub descriptor: bool,
    /// The data-in.
    pub body: Bytes,
}
