ghost use Rattle.std.specs.Prelude.{◌≡◌};
ghost use Rattle.ct_lun.specs.Reached.{reached_by};

use ct_plan::PieceEnd;
use ct_word::CmdNo;

/// Whether a command entered the task set, or was refused at its arrival.
#[derive(Clone, Copy, Debug, PartialEq, Eq)]
pub enum Entered {
    Queued,
    Turned,
}

/// What a step of a command came to.
#[derive(Clone, Copy, Debug, PartialEq, Eq)]
pub enum Stepped {
    /// It made block operations, and isn't over.
    Moved,
    /// It ended, or the medium failed it.
    Ended,
    /// It has to wait for this command.
    Blocked(CmdNo),
    /// It isn't in the task set.
    Gone,
}

/// How far a command came by some operations.
#[derive(Clone, Copy, Debug, PartialEq, Eq)]
pub enum Reached {
    Part,
    End,
    /// It found a difference, at this byte of the data-out.
    Differs(u32),
    Fault,
}

pub(crate) fn how_far(end: Option<PieceEnd>) -> Reached
    ensures { result ≡ reached_by end }
{
    match end {
        None => Reached::Part,
        Some(PieceEnd::All) => Reached::End,
        Some(PieceEnd::Miscompare(offset)) => Reached::Differs(offset),
        Some(PieceEnd::ReadFault(_) | PieceEnd::WriteFault(_)) => Reached::Fault,
    }
}
