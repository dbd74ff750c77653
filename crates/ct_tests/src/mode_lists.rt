//! Parameter lists of MODE SELECT: each a byte short, and with each refused field at fault.

use ct_pages::{ModePages, select_mode, selects};
use ct_param::{ListFault, ModeList, read_mode};
use std::process::Abort;

/// A list, whether its header is the long one, and a byte of it that is refused with this value.
#[derive(Drop)]
struct Case {
    list: &'static [u8],
    long: bool,
    at: usize,
    value: u8,
}

fn refused(list: &'static [u8], long: bool, at: usize, value: u8) -> Case {
    Case {
        list,
        long,
        at,
        value,
    }
}

const CONTROL: &[u8] = b"\0\0\0\0\x8a\x0a\x04\0\x08\x40\0\0\0\0\0\0";

const CACHING: &[u8] = b"\0\0\0\x08\xff\xff\xff\xff\xff\0\x02\0\
    \x08\x12\x04\0\0\0\0\0\0\0\0\0\0\0\0\0\0\0\0\0";

const LONG_CONTROL: &[u8] = b"\xff\xff\xff\xff\xff\xff\0\0\x0a\x0a\0\0\0\0\0\0\0\0\0\0";

const LONG_BOTH: &[u8] = b"\0\0\0\0\0\0\0\x08\0\0\0\0\0\0\x02\0\
    \x0a\x0a\x04\0\x08\x40\0\0\0\0\0\0\x88\x12\0\0\0\0\0\0\0\0\0\0\0\0\0\0\0\0\0\0";

fn cases() -> [Case; 13] {
    [
        // BLOCK DESCRIPTOR LENGTH
        refused(CONTROL, false, 3, 0x10),
        refused(CACHING, false, 3, 0x07),
        refused(LONG_CONTROL, true, 7, 0x10),
        refused(LONG_BOTH, true, 6, 0x01),
        // LOGICAL BLOCK LENGTH
        refused(CACHING, false, 9, 0x01),
        refused(CACHING, false, 10, 0x04),
        refused(LONG_BOTH, true, 15, 0x01),
        // PAGE CODE, SPF, PAGE LENGTH
        refused(CONTROL, false, 4, 0x09),
        refused(CONTROL, false, 4, 0x4a),
        refused(CONTROL, false, 5, 0x0b),
        refused(CACHING, false, 13, 0x0a),
        refused(LONG_BOTH, true, 29, 0x0a),
        // a page that comes twice
        refused(LONG_BOTH, true, 28, 0x0a),
    ]
}

// Tries a list of at most 48 bytes.
fn refuses(rt: &impl Abort, case: &Case) {
    let size = case.list.len().min(48);
    let mut bytes = [0; 48];
    bytes[..size].copy_from_slice(&case.list[..size]);
    assert!(rt; read_mode(&bytes[..size], case.long).is_ok());
    let short = read_mode(&bytes[..size.saturating_sub(1)], case.long);
    assert_eq!(rt; short, Err(ListFault::BadLength));
    if case.at < 48 {
        bytes[case.at] = case.value;
    }
    assert_eq!(rt;
        read_mode(&bytes[..size], case.long),
        Err(ListFault::BadField)
    );
}

#[test]
fn each_list_is_refused_where_it_should_be(rt: HostRuntime) {
    for case in &cases() {
        refuses(&rt, case);
    }
}

#[test]
fn the_first_fault_is_told(rt: HostRuntime) {
    let cases: [(&[u8], bool, Result<ModeList, ListFault>); 8] = [
        (b"", false, Ok(ModeList::none())),
        (b"", true, Ok(ModeList::none())),
        (b"\0\0\0\0", false, Ok(ModeList::none())),
        (b"\0\0\0\x10", true, Err(ListFault::BadLength)),
        // a page that ends behind its code byte
        (b"\0\0\0\0\x0a", false, Err(ListFault::BadLength)),
        (b"\0\0\0\0\x0b", false, Err(ListFault::BadField)),
        // a descriptor that is too short, with a page code in it
        (
            b"\0\0\0\x08\0\0\0\0\0\0\x03",
            false,
            Err(ListFault::BadLength),
        ),
        (
            b"\0\0\0\0\x0a\x0a\0\0\0\0\0\0\0\0\0\0\x0a",
            false,
            Err(ListFault::BadField),
        ),
    ];
    for (bytes, long, list) in cases {
        assert_eq!(rt; read_mode(bytes, long), list, "at {bytes:?}");
    }
    let codes = [
        ListFault::BadLength,
        ListFault::BadField,
        ListFault::OutOfRange,
    ];
    for (fault, code) in codes.into_iter().zip([0x1a, 0x26, 0x21]) {
        let sense = fault.sense_code();
        assert_eq!(rt; (sense.key, sense.asc, sense.ascq), (5, code, 0));
    }
}

// The pages after a list, or the fault, after which they are as they were.
fn selected(rt: &impl Abort, list: &[u8], long: bool) -> Option<ModePages> {
    let mut pages = ModePages::open();
    let read = read_mode(list, long).ok()?;
    match select_mode(&mut pages, &read) {
        Ok(()) => Some(pages),
        Err(fault) => {
            assert_eq!(rt; (fault, pages), (ListFault::BadField, ModePages::open()));
            None
        }
    }
}

#[test]
fn pages_are_applied_together(rt: HostRuntime) {
    let pages = ModePages {
        descriptor: true,
        free_order: false,
        protect: true,
        tas: true,
        cache: true,
    };
    assert_eq!(rt; selected(&rt, b"", true), Some(ModePages::open()));
    assert_eq!(rt; selected(&rt, CONTROL, false), Some(pages));
    let cached = ModePages {
        cache: false,
        ..pages
    };
    assert_eq!(rt; selected(&rt, LONG_BOTH, true), Some(cached));
    let mut free = [0; 16];
    free.copy_from_slice(CONTROL);
    free[7] = 0x10;
    let unrestricted = ModePages {
        free_order: true,
        ..pages
    };
    assert_eq!(rt; selected(&rt, &free, false), Some(unrestricted));
    assert!(rt; !ModeList::is_empty(&read_mode(CONTROL, false).unwrap_or(ModeList::none())));
    // each bit that isn't changeable, and the values of the modifier that are reserved
    for (at, value) in [
        (2, 0x05),
        (2, 0x24),
        (3, 0x20),
        (3, 0x90),
        (3, 0x06),
        (4, 0x18),
        (5, 0x41),
        (11, 0x01),
    ] {
        let mut bytes = [0; 16];
        bytes.copy_from_slice(CONTROL);
        bytes[4 + at] = value;
        assert_eq!(rt; selected(&rt, &bytes, false), None, "at {at}");
    }
    selects();
}
