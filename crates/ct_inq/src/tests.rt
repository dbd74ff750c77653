//! The data against bytes that were worked out by hand from the standards.

use crate::*;
use ct_cdb::{InquiryPage, LunSelection};
use ct_sense::{Status, code};
use ct_word::{LunNo, NoMemory, Reserve};

/// The pages of logical unit 15.
fn pages() -> [(InquiryPage, &'static [u8]); 6] {
    [
        (
            InquiryPage::Standard,
            b"\0\0\x06\x12\x1f\0\0\x02FREEBSD CTLDISK         0001",
        ),
        (InquiryPage::SupportedPages, b"\0\0\0\x05\0\x80\x83\xb0\xb2"),
        (
            InquiryPage::UnitSerialNumber,
            b"\0\x80\0\x10CTL-LUN-00000015",
        ),
        (
            InquiryPage::DeviceIdentification,
            b"\0\x83\0\x1c\x02\x01\0\x18FREEBSD CTL-LUN-00000015",
        ),
        (
            InquiryPage::BlockLimits,
            b"\0\xb0\0\x3c\x01\x80\0\0\0\0\x01\0\0\0\0\0\0\0\0\0\0\x01\0\0\0\0\0\x40\0\0\0\0\
            \0\0\0\0\0\0\0\0\0\0\x01\0\0\0\0\0\0\0\0\0\0\0\0\0\0\0\0\0\0\0\0\0",
        ),
        (
            InquiryPage::LogicalBlockProvisioning,
            b"\0\xb2\0\x04\0\xc4\x02\0",
        ),
    ]
}

#[tactic(auto, using(crate::proofs::Sizes::most_bytes))]
#[test]
fn tells_what_the_disk_is(rt: HostRuntime) -> Result<(), NoMemory> {
    for (page, bytes) in pages() {
        for allocation in [0, 4, 5, 255] {
            let mut into = Reserve::open(rt.alloc(), 64)?;
            inquiry(page, allocation, LunNo(15), &mut into);
            let end = bytes.len().min(usize::from(allocation));
            assert_eq!(rt; into.as_slice(), &bytes[..end], "at {page:?}");
        }
    }
    lengths();
    Ok(())
}

#[tactic(auto, using(crate::proofs::Sizes::most_bytes))]
#[test]
fn tells_how_large_the_disk_is(rt: HostRuntime) -> Result<(), NoMemory> {
    let mut into = Reserve::open(rt.alloc(), 8)?;
    capacity_10(2048, &mut into);
    assert_eq!(rt; into.as_slice(), b"\0\0\x07\xff\0\0\x02\0".as_slice());

    let mut into = Reserve::open(rt.alloc(), 45)?;
    capacity_16(65_536, 13, &mut into);
    capacity_16(1, 32, &mut into);
    let bytes = b"\0\0\0\0\0\0\xff\xff\0\0\x02\0\0\
        \0\0\0\0\0\0\0\0\0\0\x02\0\0\0\xc0\0\0\0\0\0\0\0\0\0\0\0\0\0\0\0\0\0";
    assert_eq!(rt; into.as_slice(), bytes.as_slice());
    Ok(())
}

#[tactic(auto, using(crate::proofs::Sizes::most_bytes))]
#[test]
fn lists_what_is_seen(rt: HostRuntime) -> Result<(), NoMemory> {
    let none = b"\0\0\0\0\0\0\0\0".as_slice();
    let first = b"\0\0\0\x08\0\0\0\0\0\0\0\0\0\0\0\0".as_slice();
    let two = b"\0\0\0\x10\0\0\0\0\0\0\0\0\0\0\0\0\0\x0f\0\0\0\0\0\0".as_slice();
    let cases = [
        (LunSelection::Addressed, 256, 0, none),
        (LunSelection::Addressed, 256, 1, first),
        (LunSelection::Addressed, 256, 0x8001, two),
        (LunSelection::All, 256, 0x8001, two),
        (LunSelection::All, 18, 0x8001, &two[..18]),
        (LunSelection::WellKnown, 256, 0x8001, none),
    ];
    for (select, allocation, visible, bytes) in cases {
        let mut into = Reserve::open(rt.alloc(), 136)?;
        report_luns(select, allocation, visible, &mut into);
        assert_eq!(rt; into.as_slice(), bytes, "at {select:?} {visible:x}");
    }
    Ok(())
}

/// Commands for a number under which nothing is seen, and the data with which they are answered.
fn directly() -> [(&'static [u8], Option<&'static [u8]>); 8] {
    [
        (b"\0\0\0\0\0\0", None),
        (b"\x12\0\0\0\x04\0", Some(b"\x7f\0\x06\x12")),
        (b"\x12\x01\x80\0\xff\0", None),
        (
            b"\xa0\0\0\0\0\0\0\0\x01\0\0\0",
            Some(b"\0\0\0\x08\0\0\0\0\0\x0f\0\0\0\0\0\0"),
        ),
        (
            b"\x03\0\0\0\xff\0",
            Some(b"\x70\0\x05\0\0\0\0\x0a\0\0\0\0\x25\0\0\0\0\0"),
        ),
        (b"\x03\x01\0\0\xff\0", Some(b"\x72\x05\x25\0\0\0\0\0")),
        (b"\x28\0", None),
        (b"", None),
    ]
}

#[test]
fn answers_where_nothing_is_seen(rt: HostRuntime) -> Result<(), NoMemory> {
    for (cdb, bytes) in directly() {
        let reply = direct(rt.alloc(), 0x8000, cdb)?;
        let (status, sense) = match bytes {
            Some(_) => (Status::Good, None),
            None => (
                Status::CheckCondition,
                Some(code::LOGICAL_UNIT_NOT_SUPPORTED.sense(None)),
            ),
        };
        assert_eq!(rt;
            (reply.status, reply.sense, reply.descriptor),
            (status, sense, false)
        );
        assert_eq!(rt; reply.body.as_slice(), bytes.unwrap_or(b""), "at {cdb:?}");
    }
    Ok(())
}
