//! Rows of the commands by which a host finds a disk (SPC-4, clause 6; SBC-3, READ CAPACITY).

ghost use Rattle.std.specs.Prelude.{◌≡◌};
ghost use Rattle.ct_cdb.specs.Commands.Inquiries.{test_unit_ready, sense_length, request_sense, page_length, inquiry};
ghost use Rattle.ct_cdb.specs.Commands.Inquiries.{luns_length, report_luns, read_capacity_10, read_capacity_16};

use super::{Class, Profile, still};
use crate::choices::{InquiryPage, LunSelection};
use crate::op::SerIdx;
use ct_word::limit::MOST_LUNS;

/// TEST UNIT READY
pub(super) fn test_unit_ready() -> Profile
    ensures { result ≡ test_unit_ready }
{
    Profile {
        needs_started: true,
        ..still(SerIdx::Tur, Class::Always)
    }
}

/// REQUEST SENSE
pub(super) fn request_sense(descriptor: bool, allocation: u8) -> Profile
    ensures { result ≡ request_sense descriptor allocation }
{
    Profile {
        reports_attention: false,
        data_in: u64::from(allocation).min(sense_length(descriptor)),
        ..still(SerIdx::RqS, Class::Always)
    }
}

fn sense_length(descriptor: bool) -> u64
    ensures { result ≡ sense_length descriptor }
{
    if descriptor { 8 } else { 18 }
}

/// INQUIRY
pub(super) fn inquiry(page: InquiryPage, allocation: u16) -> Profile
    ensures { result ≡ inquiry page allocation }
{
    Profile {
        reports_attention: false,
        data_in: u64::from(allocation).min(page_length(page)),
        ..still(SerIdx::Inq, Class::Always)
    }
}

fn page_length(page: InquiryPage) -> u64
    ensures { result ≡ page_length page }
{
    match page {
        InquiryPage::Standard => 36,
        InquiryPage::SupportedPages => 9,
        InquiryPage::UnitSerialNumber => 20,
        InquiryPage::DeviceIdentification => 32,
        InquiryPage::BlockLimits => 64,
        InquiryPage::LogicalBlockProvisioning => 8,
    }
}

/// REPORT LUNS
pub(super) fn report_luns(select: LunSelection, allocation: u32) -> Profile
    ensures { result ≡ report_luns select allocation }
{
    Profile {
        reports_attention: false,
        data_in: u64::from(allocation).min(luns_length(select)),
        ..still(SerIdx::Inq, Class::Always)
    }
}

fn luns_length(select: LunSelection) -> u64
    ensures { result ≡ luns_length select }
{
    match select {
        LunSelection::Addressed | LunSelection::All => 8 + 8 * MOST_LUNS,
        LunSelection::WellKnown => 8,
    }
}

/// READ CAPACITY (10)
pub(super) fn read_capacity_10() -> Profile
    ensures { result ≡ read_capacity_10 }
{
    Profile {
        data_in: 8,
        ..still(SerIdx::Cap, Class::Always)
    }
}

/// READ CAPACITY (16)
pub(super) fn read_capacity_16(allocation: u32) -> Profile
    ensures { result ≡ read_capacity_16 allocation }
{
    Profile {
        data_in: u64::from(allocation).min(32),
        ..still(SerIdx::Cap, Class::Always)
    }
}
