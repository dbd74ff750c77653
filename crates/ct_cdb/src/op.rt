use crate::choices::{InquiryPage, LunSelection, ModePage, PageControl, ReserveIn, ReserveOut};

/// What a CDB asks for: one variant for each command, with its form where it has several, and the fields that are read.
/// A count is of blocks, an allocation is the most bytes of data-in, a list has so many bytes of data-out.
#[derive(Clone, Copy, Debug, PartialEq, Eq)]
pub enum Op {
    /// TEST UNIT READY (SPC-4)
    TestUnitReady,
    /// REQUEST SENSE (SPC-4), for the descriptor form or the fixed one
    RequestSense {
        descriptor: bool,
        allocation: u8,
    },
    /// INQUIRY (SPC-4)
    Inquiry {
        page: InquiryPage,
        allocation: u16,
    },
    /// REPORT LUNS (SPC-4)
    ReportLuns {
        select: LunSelection,
        allocation: u32,
    },
    /// READ CAPACITY (10) (SBC-3)
    ReadCapacity10,
    /// READ CAPACITY (16) (SBC-3)
    ReadCapacity16 {
        allocation: u32,
    },
    /// READ (6), (10), (12) and (16) (SBC-3)
    Read {
        form: Form,
        lba: u64,
        count: u32,
    },
    /// WRITE (6), (10), (12) and (16) (SBC-3)
    Write {
        form: Form,
        lba: u64,
        count: u32,
    },
    /// WRITE AND VERIFY (10) and (16) (SBC-3)
    WriteAndVerify {
        form: Form,
        lba: u64,
        count: u32,
    },
    /// VERIFY (10), (12) and (16) (SBC-3), which compares with the data-out, or reads alone
    Verify {
        form: Form,
        compare: bool,
        lba: u64,
        count: u32,
    },
    /// COMPARE AND WRITE (SBC-3)
    CompareAndWrite {
        lba: u64,
        count: u32,
    },
    /// WRITE SAME (10) and (16) (SBC-3); the UNMAP bit has no effect
    WriteSame {
        form: Form,
        unmap: bool,
        lba: u64,
        count: u32,
    },
    /// UNMAP (SBC-3)
    Unmap {
        list: u16,
    },
    /// SYNCHRONIZE CACHE (10) and (16) (SBC-3)
    SynchronizeCache {
        form: Form,
        lba: u64,
        count: u32,
    },
    /// START STOP UNIT (SBC-3)
    StartStopUnit {
        start: bool,
    },
    /// MODE SELECT (6) and (10) (SPC-4)
    ModeSelect {
        form: Form,
        list: u16,
    },
    /// MODE SENSE (6) and (10) (SPC-4), without the block descriptor or with it
    ModeSense {
        form: Form,
        no_descriptor: bool,
        control: PageControl,
        page: ModePage,
        allocation: u16,
    },
    /// PERSISTENT RESERVE IN (SPC-4)
    PersistentReserveIn {
        action: ReserveIn,
        allocation: u16,
    },
    /// PERSISTENT RESERVE OUT (SPC-4)
    PersistentReserveOut {
        action: ReserveOut,
        list: u32,
    },
}

/// The form of a command, by the bytes of its CDB.
#[derive(Clone, Copy, Debug, PartialEq, Eq)]
pub enum Form {
    Six,
    Ten,
    Twelve,
    Sixteen,
}

/// A command descriptor block (SAM-5, 5.2), with the whole CONTROL byte.
#[derive(Clone, Copy, Debug, PartialEq, Eq)]
pub struct Cdb {
    pub op: Op,
    pub control: u8,
}

/// Why bytes are no CDB.
#[derive(Clone, Copy, Debug, PartialEq, Eq)]
pub enum CdbFault {
    Empty,
    BadOperation,
    BadLength { want: u8, got: u64 },
    /// A refused field begins at this byte.
    BadField { byte: u8 },
}

/// The task attribute (SAM-5, clause 8) with which a command comes.
#[derive(Clone, Copy, Debug, PartialEq, Eq)]
pub enum Attr2 {
    Simple,
    Ordered,
    Head,
}

/// A serialisation index: commands of one index wait for others, and are waited for, alike.
#[derive(Clone, Copy, Debug, PartialEq, Eq)]
pub enum SerIdx {
    /// TEST UNIT READY
    Tur,
    /// INQUIRY, REPORT LUNS and every command that doesn't decode
    Inq,
    /// REQUEST SENSE
    RqS,
    /// READ CAPACITY
    Cap,
    /// READ and VERIFY
    Rd,
    /// WRITE, WRITE AND VERIFY, COMPARE AND WRITE and WRITE SAME
    Wr,
    /// UNMAP
    Un,
    /// SYNCHRONIZE CACHE
    Sy,
    /// MODE SENSE
    MSn,
    /// MODE SELECT
    MSl,
    /// PERSISTENT RESERVE IN and PERSISTENT RESERVE OUT
    Res,
    /// START STOP UNIT
    Sta,
}
