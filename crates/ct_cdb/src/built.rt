//! Commands that decode and aren't built yet.

ghost use Rattle.std.specs.Prelude.{◌≡◌};
ghost use Rattle.ct_cdb.specs.Built.{is_built};

use crate::op::Op;

impl Op {
    /// Whether the command is built. One that isn't ends as one does whose operation code is unknown.
    pub fn is_built(&self) -> bool
        ensures { result ≡ is_built self.now }
    {
        match *self {
            Op::TestUnitReady
            | Op::RequestSense { .. }
            | Op::Inquiry { .. }
            | Op::ReportLuns { .. }
            | Op::ReadCapacity10
            | Op::ReadCapacity16 { .. }
            | Op::Read { .. }
            | Op::Write { .. }
            | Op::WriteAndVerify { .. }
            | Op::Verify { .. }
            | Op::CompareAndWrite { .. }
            | Op::WriteSame { .. }
            | Op::Unmap { .. }
            | Op::SynchronizeCache { .. }
            | Op::StartStopUnit { .. }
            | Op::ModeSelect { .. }
            | Op::ModeSense { .. }
            | Op::PersistentReserveIn { .. }
            | Op::PersistentReserveOut { .. } => true,
        }
    }
}
