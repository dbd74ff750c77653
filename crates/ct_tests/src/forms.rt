//! Each form of a CDB: a byte short, a byte long, and with a refused field.

use ct_cdb::{CdbFault, decode};
use std::process::Abort;

/// A form, one of its refused fields, a value of it, and the byte that the fault names.
#[derive(Drop)]
struct Case {
    form: &'static [u8],
    at: usize,
    value: u8,
    named: u8,
}

fn refused(form: &'static [u8], at: usize, value: u8, named: u8) -> Case {
    Case {
        form,
        at,
        value,
        named,
    }
}

fn short_forms() -> [Case; 8] {
    [
        refused(b"\0\0\0\0\0\0", 5, 0x04, 5),
        refused(b"\x03\x01\0\0\x12\0", 5, 0xff, 5),
        refused(b"\x08\x1f\xff\xff\0\0", 5, 0x04, 5),
        refused(b"\x0a\x1f\xff\xff\0\0", 5, 0x04, 5),
        refused(b"\x12\x01\xb2\0\xff\0", 2, 0xb1, 2),
        refused(b"\x15\x10\0\0\x10\0", 1, 0x01, 1),
        refused(b"\x1a\x08\x3f\xff\xff\0", 2, 0x3e, 2),
        refused(b"\x1b\0\0\0\x01\0", 4, 0x02, 4),
    ]
}

fn forms_of_ten() -> [Case; 13] {
    [
        refused(b"\x25\0\0\0\0\0\0\0\0\0", 9, 0x04, 9),
        refused(b"\x28\0\0\0\x01\xff\0\x01\0\0", 1, 0x20, 1),
        refused(b"\x2a\0\0\0\x01\xff\0\x01\0\0", 8, 0x01, 7),
        refused(b"\x2e\0\0\0\x01\xff\0\0\x08\0", 1, 0x02, 1),
        refused(b"\x2f\x02\0\0\x01\xff\0\0\x08\0", 1, 0x04, 1),
        refused(b"\x35\0\0\0\0\0\0\xff\xff\0", 9, 0x04, 9),
        refused(b"\x41\x08\0\0\0\0\0\0\x01\0", 1, 0x01, 1),
        refused(b"\x41\x08\0\0\0\0\0\0\x01\0", 8, 0x00, 7),
        refused(b"\x42\0\0\0\0\0\0\0\x18\0", 1, 0x01, 1),
        refused(b"\x55\x10\0\0\0\0\0\0\x10\0", 1, 0x11, 1),
        refused(b"\x5a\x08\x3f\xff\0\0\0\0\xff\0", 3, 0x01, 3),
        refused(b"\x5e\x03\0\0\0\0\0\xff\xff\0", 1, 0x04, 1),
        refused(b"\x5f\x01\x08\0\0\0\0\0\x18\0", 2, 0x02, 2),
    ]
}

fn forms_of_twelve() -> [Case; 4] {
    [
        refused(b"\xa0\0\x02\0\0\0\0\0\x01\0\0\0", 2, 0x03, 2),
        refused(b"\xa8\0\0\0\0\0\0\0\x01\0\0\0", 6, 0x01, 6),
        refused(b"\xaa\0\0\0\0\0\0\0\x01\0\0\0", 1, 0x80, 1),
        refused(b"\xaf\0\0\0\0\0\0\0\x01\0\0\0", 1, 0x06, 1),
    ]
}

fn forms_of_sixteen() -> [Case; 8] {
    [
        refused(b"\x88\0\0\0\0\0\0\0\0\0\0\0\x01\0\0\0", 13, 0x01, 10),
        refused(b"\x89\0\0\0\0\0\0\0\0\0\0\0\0\x80\0\0", 13, 0x81, 13),
        refused(b"\x8a\0\0\0\0\0\0\0\0\0\0\0\x01\0\0\0", 1, 0x40, 1),
        refused(b"\x8e\0\0\0\0\0\0\0\0\0\0\0\x01\0\0\0", 1, 0x06, 1),
        refused(b"\x8f\x02\0\0\0\0\0\0\0\0\0\0\x01\0\0\0", 10, 0x01, 10),
        refused(b"\x91\0\0\0\0\0\0\0\0\0\xff\xff\xff\xff\0\0", 15, 0x04, 15),
        refused(b"\x93\x08\0\0\0\0\0\0\0\0\0\0\x01\0\0\0", 1, 0x10, 1),
        refused(b"\x9e\x10\0\0\0\0\0\0\0\0\0\0\0\x20\0\0", 1, 0x11, 1),
    ]
}

// Tries a form of at most 16 bytes.
fn refuses(rt: &impl Abort, case: &Case) {
    let size = case.form.len().min(16);
    let mut bytes = [0; 17];
    bytes[..size].copy_from_slice(&case.form[..size]);
    assert!(rt; decode(&bytes[..size]).is_ok(), "at {bytes:?}");

    let want = size as u8;
    let short = CdbFault::BadLength {
        want,
        got: size as u64 - 1,
    };
    assert_eq!(rt; decode(&bytes[..size - 1]), Err(short), "at {bytes:?}");
    let long = CdbFault::BadLength {
        want,
        got: size as u64 + 1,
    };
    assert_eq!(rt; decode(&bytes[..size + 1]), Err(long), "at {bytes:?}");

    // CONTROL is at fault as well, and stands last
    bytes[size - 1] = 0x04;
    bytes[case.at.min(16)] = case.value;
    let fault = CdbFault::BadField { byte: case.named };
    assert_eq!(rt; decode(&bytes[..size]), Err(fault), "at {bytes:?}");
}

#[test]
fn each_form_is_refused_where_it_should_be(rt: HostRuntime) {
    for case in &short_forms() {
        refuses(&rt, case);
    }
    for case in &forms_of_ten() {
        refuses(&rt, case);
    }
    for case in &forms_of_twelve() {
        refuses(&rt, case);
    }
    for case in &forms_of_sixteen() {
        refuses(&rt, case);
    }
}
