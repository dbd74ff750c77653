//! Parameter lists of UNMAP.

use ct_param::{ListFault, UnmapDescriptor, apart, read_unmap};
use std::process::Abort;

fn blocks_of(lba: u64, count: u32) -> UnmapDescriptor {
    UnmapDescriptor { lba, count }
}

// The list is accepted for a disk of 32 blocks, with these descriptors.
fn accepts(rt: &impl Abort, bytes: &[u8], descriptors: &[UnmapDescriptor]) {
    match read_unmap(bytes, 32) {
        Ok(list) => assert_eq!(rt; list.as_slice(), descriptors, "at {bytes:?}"),
        Err(_) => assert!(rt; false, "at {bytes:?}"),
    }
}

fn refuses(rt: &impl Abort, bytes: &[u8], want: ListFault) {
    match read_unmap(bytes, 32) {
        Ok(_) => assert!(rt; false, "at {bytes:?}"),
        Err(fault) => assert_eq!(rt; fault, want, "at {bytes:?}"),
    }
}

const TWO: &[u8] = b"\0\x26\0\x20\0\0\0\0\
    \0\0\0\0\0\0\0\x04\0\0\0\x04\0\0\0\0\0\0\0\0\0\0\0\x08\0\0\0\x18\xff\xff\xff\xff";

#[test]
fn descriptors_are_read(rt: HostRuntime) {
    accepts(&rt, b"", &[]);
    accepts(&rt, b"\0\x06\0\0\0\0\0\0", &[]);
    // two that touch, the last of which ends with the disk
    accepts(&rt, TWO, &[blocks_of(4, 4), blocks_of(8, 24)]);
    // the last isn't whole inside the list
    accepts(&rt, &TWO[..39], &[blocks_of(4, 4)]);
    // nor inside the length that the header says; it would leave the disk
    let cut = b"\0\x25\0\x1f\0\0\0\0\0\0\0\0\0\0\0\0\0\0\0\x20\0\0\0\0\
        \xff\xff\xff\xff\xff\xff\xff\xff\xff\xff\xff\xff\xff\xff\xff\xff";
    accepts(&rt, cut, &[blocks_of(0, 32)]);
    // no blocks, in the midst of others and right behind the disk
    let none = b"\0\x36\0\x30\0\0\0\0\0\0\0\0\0\0\0\0\0\0\0\x20\0\0\0\0\
        \0\0\0\0\0\0\0\x08\0\0\0\0\0\0\0\0\0\0\0\0\0\0\0\x20\0\0\0\0\0\0\0\0";
    accepts(
        &rt,
        none,
        &[blocks_of(0, 32), blocks_of(8, 0), blocks_of(32, 0)],
    );
}

#[test]
fn each_list_is_refused_where_it_should_be(rt: HostRuntime) {
    refuses(&rt, &TWO[..7], ListFault::BadLength);
    refuses(&rt, b"\0", ListFault::BadLength);
    // data length, and the length of the descriptors
    refuses(&rt, b"\0\x05\0\0\0\0\0\0", ListFault::BadField);
    refuses(&rt, b"\x04\x17\x04\x11\0\0\0\0", ListFault::BadField);
    accepts(&rt, b"\x04\x06\x04\0\0\0\0\0", &[]);
    // a block behind the disk is told before an overlap
    let outside = b"\0\x26\0\x20\0\0\0\0\
        \0\0\0\0\0\0\0\x04\0\0\0\x1c\0\0\0\0\0\0\0\0\0\0\0\x1f\0\0\0\x02\0\0\0\0";
    refuses(&rt, outside, ListFault::OutOfRange);
    let shared = b"\0\x26\0\x20\0\0\0\0\
        \0\0\0\0\0\0\0\x08\0\0\0\x18\0\0\0\0\0\0\0\0\0\0\0\x04\0\0\0\x05\0\0\0\0";
    refuses(&rt, shared, ListFault::BadField);
    let wraps = b"\0\x16\0\x10\0\0\0\0\xff\xff\xff\xff\xff\xff\xff\xff\0\0\0\x02\0\0\0\0";
    refuses(&rt, wraps, ListFault::OutOfRange);
}

#[test]
fn faults_have_their_codes(rt: HostRuntime) {
    apart();
    let codes = [
        (ListFault::BadLength, 0x1a),
        (ListFault::BadField, 0x26),
        (ListFault::OutOfRange, 0x21),
    ];
    for (fault, asc) in codes {
        let code = fault.sense_code();
        assert_eq!(rt; (code.asc, code.ascq), (asc, 0), "of {fault:?}");
    }
}
