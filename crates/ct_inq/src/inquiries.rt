//! INQUIRY: the standard data, and the choice among them and the pages of vital product data.

ghost use Rattle.std.specs.Prelude.{◌≡◌, ◌≤◌, ◌-◌, ◌++◌, length};
ghost use Rattle.ct_inq.specs.Inquiries.{standard_inquiry, inquiry_data};

use crate::allocation::append_cut;
use crate::texts::{PRODUCT, REVISION, VENDOR};
use crate::vpd::{
    DISK, identification_page, limits_page, provisioning_page, serial_page, supported_pages,
};
use ct_cdb::InquiryPage;
use ct_word::{LunNo, Reserve};

/// VERSION: SPC-4
const VERSION: u8 = 0x06;

/// HISUP: LUNs are hierarchical
const HISUP: u8 = 0x10;

/// RESPONSE DATA FORMAT
const RESPONSE_DATA_FORMAT: u8 = 0x02;

/// Bytes of the standard data that ADDITIONAL LENGTH doesn't count: up to itself
const UP_TO_LENGTH: usize = 5;

/// CMDQUE: commands are queued
const CMDQUE: u8 = 0x02;

/// Adds the data-in of an INQUIRY (SPC-4, 6.6) of a logical unit: a page, cut to the allocation length in bytes.
#[tactic(auto, unfolding(crate::specs::Inquiries::inquiry_data))]
pub fn inquiry(page: InquiryPage, allocation: u16, lun: LunNo, into: &mut Reserve<u8>)
    requires room { length (inquiry_data page allocation lun.0) ≤ into.old.room }
    ensures { let added = inquiry_data page allocation lun.0 in
        into.new ≡ record { items = into.old.items ++ added; room = into.old.room - length added } }
{
    let allocation = usize::from(allocation);
    match page {
        InquiryPage::Standard => append_cut(&standard(), allocation, into),
        InquiryPage::SupportedPages => append_cut(&supported_pages(), allocation, into),
        InquiryPage::UnitSerialNumber => append_cut(&serial_page(lun), allocation, into),
        InquiryPage::DeviceIdentification => {
            append_cut(&identification_page(lun), allocation, into)
        }
        InquiryPage::BlockLimits => append_cut(&limits_page(), allocation, into),
        InquiryPage::LogicalBlockProvisioning => {
            append_cut(&provisioning_page(), allocation, into)
        }
    }
}

#[tactic(auto, unfolding(crate::specs::Inquiries::standard_inquiry))]
pub fn standard() -> [u8; 36]
    ensures { result ≡ standard_inquiry }
{
    let mut bytes = [0; 36];
    bytes[0] = DISK;
    bytes[2] = VERSION;
    bytes[3] = HISUP | RESPONSE_DATA_FORMAT;
    bytes[4] = (bytes.len() - UP_TO_LENGTH) as u8;
    bytes[7] = CMDQUE;
    bytes[8..16].copy_from_slice(&VENDOR);
    bytes[16..32].copy_from_slice(&PRODUCT);
    bytes[32..].copy_from_slice(&REVISION);
    bytes
}
