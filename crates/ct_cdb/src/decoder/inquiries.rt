//! Rows of the commands by which a host finds a disk (SPC-4, clause 6; SBC-3, READ CAPACITY).

ghost use Rattle.std.specs.Prelude.{◌≡◌};
ghost use Rattle.ct_cdb.specs.Rows.Inquiries.{test_unit_ready, request_sense, inquiry, report_luns};
ghost use Rattle.ct_cdb.specs.Rows.Inquiries.{read_capacity_10, read_capacity_16};

use crate::choices::{InquiryPage, LunSelection};
use crate::few::Few;
use crate::op::Op;
use crate::row::{Row, bit_at, byte_at, field_at, four_at, two_at};

/// TEST UNIT READY
pub(crate) fn test_unit_ready() -> Row
    ensures { result ≡ test_unit_ready }
{
    Row {
        size: 6,
        refusable: Few::none(),
        op: Op::TestUnitReady,
    }
}

/// REQUEST SENSE
pub(crate) fn request_sense(bytes: &[u8]) -> Row
    ensures { result ≡ request_sense bytes.now }
{
    Row {
        size: 6,
        refusable: Few::none(),
        op: Op::RequestSense {
            descriptor: bit_at(1, 1, bytes),
            allocation: byte_at(bytes, 4),
        },
    }
}

/// INQUIRY
pub(crate) fn inquiry(bytes: &[u8]) -> Row
    ensures { result ≡ inquiry bytes.now }
{
    let asked = InquiryPage::by(bit_at(1, 1, bytes), byte_at(bytes, 2));
    Row {
        size: 6,
        refusable: Few::one(field_at(2, asked.is_some())),
        op: Op::Inquiry {
            page: asked.unwrap_or(InquiryPage::Standard),
            allocation: two_at(bytes, 3),
        },
    }
}

/// REPORT LUNS
pub(crate) fn report_luns(bytes: &[u8]) -> Row
    ensures { result ≡ report_luns bytes.now }
{
    let asked = LunSelection::by(byte_at(bytes, 2));
    Row {
        size: 12,
        refusable: Few::one(field_at(2, asked.is_some())),
        op: Op::ReportLuns {
            select: asked.unwrap_or(LunSelection::Addressed),
            allocation: four_at(bytes, 6),
        },
    }
}

/// READ CAPACITY (10)
pub(crate) fn read_capacity_10() -> Row
    ensures { result ≡ read_capacity_10 }
{
    Row {
        size: 10,
        refusable: Few::none(),
        op: Op::ReadCapacity10,
    }
}

/// READ CAPACITY (16)
pub(crate) fn read_capacity_16(bytes: &[u8]) -> Row
    ensures { result ≡ read_capacity_16 bytes.now }
{
    Row {
        size: 16,
        refusable: Few::one(field_at(1, byte_at(bytes, 1) % 32 == 0x10)),
        op: Op::ReadCapacity16 {
            allocation: four_at(bytes, 10),
        },
    }
}
