use crate::blocks::Footprint;
use ct_cdb::{Attr2, SerIdx};
use ct_word::CmdNo;

/// The task attribute of a command (SAM-5, clause 8).
pub type Attr = Attr2;

/// What decides whether a command of the task set waits.
#[derive(Debug, Drop)]
pub struct Held {
    pub index: SerIdx,
    pub print: Footprint,
    pub attr: Attr,
    pub begun: bool,
}

/// A command of a task set: its number, and what decides whether it waits.
#[derive(Debug, Drop)]
pub struct HeldCommand {
    pub no: CmdNo,
    pub held: Held,
}

/// What a live command demands of a waiting one.
#[derive(Clone, Copy, Debug, PartialEq, Eq)]
pub enum Demand {
    Free,
    Wait,
}
