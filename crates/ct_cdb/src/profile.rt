//! What a command means, one row for each: all that decides how it is treated, but its bytes.

mod blocks;
mod inquiries;
mod modes;
mod reservations;

ghost use Rattle.std.specs.Prelude.{◌≡◌};
ghost use Rattle.std.specs.List.{list_any};
ghost use Rattle.ct_cdb.specs.Commands.Still.{still};
ghost use Rattle.ct_cdb.specs.Profiles.{reads, writes, profile_of, profile_by, refused, operations, index_of};
ghost use Rattle.ct_cdb.specs.Profiles.{asked_of, is_performed};

use crate::few::Few;
use crate::op::{Cdb, CdbFault, Op, SerIdx};
use crate::ranges::Ranges;

/// What a command does to the blocks of its ranges, one after another; a command does it in one or two phases.
#[derive(Clone, Copy, Debug, PartialEq, Eq)]
pub enum Phase {
    /// They are given to the initiator.
    Get,
    /// They are read, and given to nobody.
    Look,
    /// The blocks of the data-out take their places.
    Put,
    /// The blocks of the data-out behind as many take their places.
    PutSecondHalf,
    /// The first block of the data-out takes the place of each.
    PutSame,
    /// A block of zeros takes the place of each.
    Zero,
    /// They are compared with the blocks of the data-out.
    Compare,
}

impl Phase {
    /// It reads the blocks.
    pub fn reads(self) -> bool
        ensures { result ≡ reads self }
    {
        match self {
            Phase::Get | Phase::Look | Phase::Compare => true,
            Phase::Put | Phase::PutSecondHalf | Phase::PutSame | Phase::Zero => false,
        }
    }

    /// It writes the blocks.
    pub fn writes(self) -> bool
        ensures { result ≡ writes self }
    {
        match self {
            Phase::Put | Phase::PutSecondHalf | Phase::PutSame | Phase::Zero => true,
            Phase::Get | Phase::Look | Phase::Compare => false,
        }
    }
}

/// The class of a command, by which a persistent reservation lets it through (SPC-4, PERSISTENT RESERVE OUT).
#[derive(Clone, Copy, Debug, PartialEq, Eq)]
pub enum Class {
    Always,
    Reading,
    Writing,
}

/// What a command means.
#[derive(Debug, Drop)]
pub struct Profile {
    pub index: SerIdx,
    pub class: Class,
    /// It ends with a unit attention of its nexus, where there is one (SAM-5, 5.14).
    pub reports_attention: bool,
    /// A stopped unit refuses it (SBC-3, START STOP UNIT).
    pub needs_started: bool,
    /// Write protection refuses it (SPC-4, SWP of the Control mode page).
    pub is_write: bool,
    /// The bytes of data-out that it asks for.
    pub data_out: u64,
    /// The most bytes of data-in that it returns.
    pub data_in: u64,
    /// The blocks of the pool that it needs while it moves.
    pub need: u64,
    pub ranges: Ranges,
    pub phases: Few<Phase>,
}

impl Profile {
    /// The row of a command that came with this data-out, on a disk of so many blocks.
    pub fn of(op: &Op, out: &[u8], blocks: u32) -> Profile
        ensures { result ≡ profile_of op.now out.now blocks }
    {
        match *op {
            Op::TestUnitReady => inquiries::test_unit_ready(),
            Op::RequestSense {
                descriptor,
                allocation,
            } => inquiries::request_sense(descriptor, allocation),
            Op::Inquiry { page, allocation } => inquiries::inquiry(page, allocation),
            Op::ReportLuns { select, allocation } => inquiries::report_luns(select, allocation),
            Op::ReadCapacity10 => inquiries::read_capacity_10(),
            Op::ReadCapacity16 { allocation } => inquiries::read_capacity_16(allocation),
            Op::Read { lba, count, .. } => blocks::read(lba, count),
            Op::Write { lba, count, .. } => blocks::write(lba, count),
            Op::WriteAndVerify { lba, count, .. } => blocks::write_and_verify(lba, count),
            Op::Verify {
                compare,
                lba,
                count,
                ..
            } => blocks::verify(compare, lba, count),
            Op::CompareAndWrite { lba, count } => blocks::compare_and_write(lba, count),
            Op::WriteSame { lba, count, .. } => blocks::write_same(lba, count),
            Op::Unmap { list } => blocks::unmap(list, out, blocks),
            Op::SynchronizeCache { lba, count, .. } => blocks::synchronize_cache(lba, count),
            Op::StartStopUnit { .. } => modes::start_stop_unit(),
            Op::ModeSelect { list, .. } => modes::mode_select(list),
            Op::ModeSense {
                form,
                no_descriptor,
                page,
                allocation,
                ..
            } => modes::mode_sense(form, no_descriptor, page, allocation),
            Op::PersistentReserveIn { action, allocation } => {
                reservations::persistent_reserve_in(action, allocation)
            }
            Op::PersistentReserveOut { list, .. } => reservations::persistent_reserve_out(list),
        }
    }

    /// The same for bytes, by what they decode to. Of a command that isn't built index and class alone stand.
    pub fn by(decoded: &Result<Cdb, CdbFault>, out: &[u8], blocks: u32) -> Profile
        ensures { result ≡ profile_by decoded.now out.now blocks }
    {
        match decoded {
            Ok(cdb) => {
                let profile = Profile::of(&cdb.op, out, blocks);
                if cdb.op.is_built() {
                    profile
                } else {
                    refused(profile.index, profile.class)
                }
            }
            Err(_) => refused(SerIdx::Inq, Class::Always),
        }
    }

    /// The block operations of all its phases.
    pub fn operations(&self) -> u64
        ensures { result ≡ operations self.now }
    {
        self.phases.len() as u64 * self.ranges.total()
    }

    /// A phase reads blocks.
    pub fn reads(&self) -> bool
        ensures { result ≡ list_any reads self.now.phases }
    {
        match self.phases.items() {
            (None, _) => false,
            (Some(first), None) => first.reads(),
            (Some(first), Some(second)) => first.reads() | second.reads(),
        }
    }

    /// A phase writes blocks.
    pub fn writes(&self) -> bool
        ensures { result ≡ list_any writes self.now.phases }
    {
        match self.phases.items() {
            (None, _) => false,
            (Some(first), None) => first.writes(),
            (Some(first), Some(second)) => first.writes() | second.writes(),
        }
    }

    /// Neither so many bytes of data-out nor a disk of so many blocks refuses it.
    pub fn is_performed(&self, out: usize, blocks: u32) -> bool
        ensures { result ≡ is_performed out blocks self.now }
    {
        self.data_out <= out as u64 && self.ranges.are_inside(blocks)
    }
}

// The row of a command that moves no block.
fn still(index: SerIdx, class: Class) -> Profile
    ensures { result ≡ still index class }
{
    Profile {
        index,
        class,
        reports_attention: true,
        needs_started: false,
        is_write: false,
        data_out: 0,
        data_in: 0,
        need: 0,
        ranges: Ranges::none(),
        phases: Few::none(),
    }
}

// The row of a command that isn't built, or of bytes that are no CDB.
fn refused(index: SerIdx, class: Class) -> Profile
    ensures { result ≡ refused index class }
{
    Profile {
        reports_attention: false,
        ..still(index, class)
    }
}

/// The serialisation index of a command.
pub fn index(op: &Op) -> SerIdx
    ensures { result ≡ index_of op.now }
{
    Profile::of(op, &[], 0).index
}

/// The block operations that a command with this data-out asks for, on a disk of so many blocks, whether it is refused
/// later or not. Of UNMAP they are those of its parameter list, and none where that is in fault.
pub fn asked(op: &Op, out: &[u8], blocks: u32) -> u64
    ensures { result ≡ asked_of op.now out.now blocks }
{
    Profile::of(op, out, blocks).operations()
}

#[cfg(test)]
mod tests {
    use super::*;
    use crate::op::Form;
    use crate::ranges::LbaRange;

    const READ: Op = Op::Read {
        form: Form::Ten,
        lba: 3,
        count: 2,
    };

    const WRITE: Op = Op::Write {
        form: Form::Ten,
        lba: 3,
        count: 2,
    };

    #[test]
    fn asks_for_each_block(rt: HostRuntime) {
        assert_eq!(rt; (asked(&READ, &[], 5), asked(&WRITE, &[], 5)), (2, 2));
        assert_eq!(rt; (index(&READ), index(&WRITE)), (SerIdx::Rd, SerIdx::Wr));
    }

    #[test]
    fn asks_for_data_and_blocks(rt: HostRuntime) {
        let read = Profile::of(&READ, &[], 5);
        let write = Profile::of(&WRITE, &[], 5);
        assert_eq!(rt; (read.data_out, write.data_out), (0, 1024));
        assert_eq!(rt; (read.data_in, write.data_in), (1024, 0));
        assert!(rt; read.is_performed(0, 5) && !read.is_performed(0, 4));
        assert!(rt; write.is_performed(1024, 5) && !write.is_performed(1023, 5));
        assert_eq!(rt; (read.class, write.class), (Class::Reading, Class::Writing));
        let none = Profile::by(&Err(CdbFault::Empty), &[], 5);
        assert_eq!(rt; (none.index, none.operations()), (SerIdx::Inq, 0));
    }

    #[test]
    fn unmaps_the_blocks_of_its_list(rt: HostRuntime) {
        // two blocks from LBA 2 on, and LBA 8
        let list =
            *b"\0\x26\0\x20\0\0\0\0\0\0\0\0\0\0\0\x02\0\0\0\x02\0\0\0\0\0\0\0\0\0\0\0\x08\0\0\0\x01\0\0\0\0";
        let unmap = Op::Unmap { list: 40 };
        let row = Profile::of(&unmap, &list, 9);
        assert_eq!(rt; (row.data_out, row.need, row.operations()), (40, 1, 3));
        let ranges = [LbaRange { lba: 2, count: 2 }, LbaRange { lba: 8, count: 1 }];
        assert_eq!(rt; row.ranges.as_slice(), ranges.as_slice());
        assert!(rt; row.is_performed(40, 9) && !row.is_performed(39, 9));
        // of a list in fault nothing is asked for
        assert_eq!(rt; (asked(&unmap, &list, 9), asked(&unmap, &list, 8)), (3, 0));
    }
}
