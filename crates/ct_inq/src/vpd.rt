//! Pages of vital product data (SPC-4, 7.8, and SBC-3, 6.6), each one function. Bytes that it leaves out are 0.

ghost use Rattle.std.specs.Prelude.{◌≡◌, ◌≤◌, ◌<◌, ◌^◌, ◌-◌, ◌∷◌, ◌++◌, length, drop};
ghost use Rattle.ct_word.specs.Fields.{bytes_of};
ghost use Rattle.ct_inq.specs.Texts.{vendor, serial};
ghost use Rattle.ct_inq.specs.Inquiries.{disk, designation, supported_pages, serial_page, identification_page, limits_page, provisioning_page};

use crate::texts::{VENDOR, serial};
use ct_word::LunNo;
use ct_word::limit::{MOST_BLOCKS, MOST_COMPARE, MOST_RANGES, MOST_TRANSFER};

/// PERIPHERAL QUALIFIER and PERIPHERAL DEVICE TYPE: a disk, and it is there
pub const DISK: u8 = 0x00;

const SUPPORTED_PAGES: u8 = 0x00;

const UNIT_SERIAL_NUMBER: u8 = 0x80;

const DEVICE_IDENTIFICATION: u8 = 0x83;

const BLOCK_LIMITS: u8 = 0xb0;

const LOGICAL_BLOCK_PROVISIONING: u8 = 0xb2;

/// Bytes of a page's header, which PAGE LENGTH doesn't count.
const HEADER: usize = 4;

/// Bytes of a designation descriptor's header, which DESIGNATOR LENGTH doesn't count.
const DESCRIPTOR_HEADER: usize = 4;

/// CODE SET of a designator: ASCII
const ASCII: u8 = 0x02;

/// DESIGNATOR TYPE: based on T10 vendor ID
const T10_VENDOR_ID: u8 = 0x01;

/// WSNZ: WRITE SAME of no blocks is refused
const WSNZ: u8 = 0x01;

/// LBPU: UNMAP is there
const LBPU: u8 = 0x80;

/// LBPWS: WRITE SAME (16) has its UNMAP bit
const LBPWS: u8 = 0x40;

/// LBPRZ: unmapped blocks read as zeros
const LBPRZ: u8 = 0x04;

/// PROVISIONING TYPE: thin
const THIN: u8 = 0x02;

/// 00h, Supported VPD Pages.
#[tactic(auto, unfolding(crate::specs::Inquiries::supported_pages))]
pub fn supported_pages() -> [u8; 9]
    ensures { result ≡ supported_pages }
{
    let mut page = [0; 9];
    put_header(SUPPORTED_PAGES, &mut page);
    page[HEADER..].copy_from_slice(&[
        SUPPORTED_PAGES,
        UNIT_SERIAL_NUMBER,
        DEVICE_IDENTIFICATION,
        BLOCK_LIMITS,
        LOGICAL_BLOCK_PROVISIONING,
    ]);
    page
}

/// 80h, Unit Serial Number.
#[tactic(auto, unfolding(crate::specs::Inquiries::serial_page))]
pub fn serial_page(lun: LunNo) -> [u8; 20]
    ensures { result ≡ serial_page lun.0 }
{
    let mut page = [0; 20];
    put_header(UNIT_SERIAL_NUMBER, &mut page);
    page[HEADER..].copy_from_slice(&serial(lun));
    page
}

/// 83h, Device Identification: one designator of the logical unit.
#[tactic(auto, unfolding(crate::specs::Inquiries::identification_page))]
pub fn identification_page(lun: LunNo) -> [u8; 32]
    ensures { result ≡ identification_page lun.0 }
{
    let mut page = [0; 32];
    put_header(DEVICE_IDENTIFICATION, &mut page);
    page[HEADER..].copy_from_slice(&designation(lun));
    page
}

/// A designation descriptor: the vendor and the serial number.
fn designation(lun: LunNo) -> [u8; 28]
    ensures { result ≡ designation (vendor ++ serial lun.0) }
{
    let mut descriptor = [0; 28];
    descriptor[0] = ASCII;
    descriptor[1] = T10_VENDOR_ID;
    descriptor[3] = (descriptor.len() - DESCRIPTOR_HEADER) as u8;
    descriptor[4..12].copy_from_slice(&VENDOR);
    descriptor[12..].copy_from_slice(&serial(lun));
    descriptor
}

/// B0h, Block Limits: of one command, in blocks, and UNMAP's also in descriptors.
#[tactic(auto, unfolding(crate::specs::Inquiries::limits_page))]
pub fn limits_page() -> [u8; 64]
    ensures { result ≡ limits_page }
{
    let mut page = [0; 64];
    put_header(BLOCK_LIMITS, &mut page);
    page[4] = WSNZ;
    page[5] = MOST_COMPARE as u8;
    page[8..12].copy_from_slice(&MOST_TRANSFER.to_be_bytes());
    page[20..24].copy_from_slice(&MOST_BLOCKS.to_be_bytes());
    page[24..28].copy_from_slice(&(MOST_RANGES as u32).to_be_bytes());
    page[36..44].copy_from_slice(&u64::from(MOST_TRANSFER).to_be_bytes());
    page
}

/// B2h, Logical Block Provisioning.
#[tactic(auto, unfolding(crate::specs::Inquiries::provisioning_page))]
pub fn provisioning_page() -> [u8; 8]
    ensures { result ≡ provisioning_page }
{
    let mut page = [0; 8];
    put_header(LOGICAL_BLOCK_PROVISIONING, &mut page);
    page[5] = LBPU | LBPWS | LBPRZ;
    page[6] = THIN;
    page
}

/// Begins a page with its code and the number of bytes behind the header.
fn put_header(code: u8, page: &mut [u8])
    requires header { 4 ≤ length page.old }
    requires short { length page.old < 2 ^ 16 }
    ensures { page.new ≡ disk ∷ code ∷ bytes_of 2 (length page.old - 4) ++ drop 4 page.old }
{
    let [high, low] = ((page.len() - HEADER) as u16).to_be_bytes();
    page[..HEADER].copy_from_slice(&[DISK, code, high, low]);
}
