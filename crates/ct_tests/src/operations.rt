//! Each field of each form at its least and at its greatest value, read and written.

ghost use Rattle.std.specs.Prelude.{◌≡◌};
ghost use Rattle.ct_cdb.specs.Encoding.{IsEncodable};

use ct_cdb::{
    Cdb, Form, InquiryPage, LunSelection, ModePage, Op, PageControl, ReservationType, ReserveIn,
    ReserveOut, decode, encode,
};
use std::process::Abort;

const MOST_LBA: u64 = 0xffff_ffff_ffff_ffff;

// What the bytes are, and the bytes again. CONTROL is 0, or all of it but NACA.
fn is(rt: &impl Abort, op: Op, control: u8, bytes: &[u8])
    requires { IsEncodable (record { op = op; control = control }) }
{
    let cdb = Cdb { op, control };
    assert_eq!(rt; decode(bytes), Ok(cdb), "at {bytes:?}");
    let mut into = [0xee; 16];
    let size = encode(&cdb, &mut into);
    assert_eq!(rt; into.get(..size), Some(bytes), "at {bytes:?}");
}

#[test]
fn commands_that_ask(rt: HostRuntime) {
    is(&rt, Op::TestUnitReady, 0, b"\0\0\0\0\0\0");
    let op = Op::RequestSense {
        descriptor: true,
        allocation: 255,
    };
    is(&rt, op, 0xfb, b"\x03\x01\0\0\xff\xfb");
    let op = Op::Inquiry {
        page: InquiryPage::Standard,
        allocation: 0,
    };
    is(&rt, op, 0, b"\x12\0\0\0\0\0");
    let op = Op::Inquiry {
        page: InquiryPage::LogicalBlockProvisioning,
        allocation: 65_535,
    };
    is(&rt, op, 0xfb, b"\x12\x01\xb2\xff\xff\xfb");
    let op = Op::ReportLuns {
        select: LunSelection::Addressed,
        allocation: 0,
    };
    is(&rt, op, 0, b"\xa0\0\0\0\0\0\0\0\0\0\0\0");
    let op = Op::ReportLuns {
        select: LunSelection::All,
        allocation: 0xffff_ffff,
    };
    is(&rt, op, 0xfb, b"\xa0\0\x02\0\0\0\xff\xff\xff\xff\0\xfb");
    is(&rt, Op::ReadCapacity10, 0xfb, b"\x25\0\0\0\0\0\0\0\0\xfb");
    let op = Op::ReadCapacity16 {
        allocation: 0xffff_ffff,
    };
    is(
        &rt,
        op,
        0xfb,
        b"\x9e\x10\0\0\0\0\0\0\0\0\xff\xff\xff\xff\0\xfb",
    );
}

#[test]
fn reads_and_writes(rt: HostRuntime) {
    let form = Form::Six;
    let (lba, count) = (0, 1);
    is(&rt, Op::Read { form, lba, count }, 0, b"\x08\0\0\0\x01\0");
    let (lba, count) = (0x1f_ffff, 256);
    is(
        &rt,
        Op::Write { form, lba, count },
        0xfb,
        b"\x0a\x1f\xff\xff\0\xfb",
    );
    let form = Form::Ten;
    let (lba, count) = (0, 0);
    is(
        &rt,
        Op::Read { form, lba, count },
        0,
        b"\x28\0\0\0\0\0\0\0\0\0",
    );
    let (lba, count) = (0xffff_ffff, 256);
    is(
        &rt,
        Op::Write { form, lba, count },
        0xfb,
        b"\x2a\0\xff\xff\xff\xff\0\x01\0\xfb",
    );
    let form = Form::Twelve;
    is(
        &rt,
        Op::Read { form, lba, count },
        0xfb,
        b"\xa8\0\xff\xff\xff\xff\0\0\x01\0\0\xfb",
    );
    let form = Form::Sixteen;
    let lba = MOST_LBA;
    is(
        &rt,
        Op::Write { form, lba, count },
        0xfb,
        b"\x8a\0\xff\xff\xff\xff\xff\xff\xff\xff\0\0\x01\0\0\xfb",
    );
}

#[test]
fn other_commands_on_blocks(rt: HostRuntime) {
    let form = Form::Ten;
    let (lba, count) = (0xffff_ffff, 256);
    is(
        &rt,
        Op::WriteAndVerify { form, lba, count },
        0xfb,
        b"\x2e\0\xff\xff\xff\xff\0\x01\0\xfb",
    );
    let op = Op::Verify {
        form,
        compare: true,
        lba,
        count,
    };
    is(&rt, op, 0, b"\x2f\x02\xff\xff\xff\xff\0\x01\0\0");
    let op = Op::WriteSame {
        form,
        unmap: false,
        lba,
        count: 1,
    };
    is(&rt, op, 0, b"\x41\0\xff\xff\xff\xff\0\0\x01\0");
    is(
        &rt,
        Op::Unmap { list: 65_535 },
        0xfb,
        b"\x42\0\0\0\0\0\0\xff\xff\xfb",
    );
    let op = Op::SynchronizeCache {
        form,
        lba,
        count: 65_535,
    };
    is(&rt, op, 0, b"\x35\0\xff\xff\xff\xff\0\xff\xff\0");
    let form = Form::Sixteen;
    let lba = MOST_LBA;
    let op = Op::WriteSame {
        form,
        unmap: true,
        lba,
        count,
    };
    is(
        &rt,
        op,
        0xfb,
        b"\x93\x08\xff\xff\xff\xff\xff\xff\xff\xff\0\0\x01\0\0\xfb",
    );
    is(
        &rt,
        Op::CompareAndWrite { lba, count: 128 },
        0xfb,
        b"\x89\0\xff\xff\xff\xff\xff\xff\xff\xff\0\0\0\x80\0\xfb",
    );
}

#[test]
fn commands_about_the_unit(rt: HostRuntime) {
    is(
        &rt,
        Op::StartStopUnit { start: true },
        0,
        b"\x1b\0\0\0\x01\0",
    );
    let op = Op::ModeSelect {
        form: Form::Six,
        list: 255,
    };
    is(&rt, op, 0xfb, b"\x15\0\0\0\xff\xfb");
    let op = Op::ModeSelect {
        form: Form::Ten,
        list: 65_535,
    };
    is(&rt, op, 0xfb, b"\x55\0\0\0\0\0\0\xff\xff\xfb");
    let op = Op::ModeSense {
        form: Form::Six,
        no_descriptor: true,
        control: PageControl::Saved,
        page: ModePage::AllAndSubpages,
        allocation: 255,
    };
    is(&rt, op, 0xfb, b"\x1a\x08\xff\xff\xff\xfb");
    let op = Op::ModeSense {
        form: Form::Ten,
        no_descriptor: false,
        control: PageControl::Changeable,
        page: ModePage::Caching,
        allocation: 65_535,
    };
    is(&rt, op, 0, b"\x5a\0\x48\0\0\0\0\xff\xff\0");
    let op = Op::PersistentReserveIn {
        action: ReserveIn::ReadFullStatus,
        allocation: 65_535,
    };
    is(&rt, op, 0xfb, b"\x5e\x03\0\0\0\0\0\xff\xff\xfb");
    let op = Op::PersistentReserveOut {
        action: ReserveOut::PreemptAndAbort(ReservationType::ExclusiveAccessAllRegistrants),
        list: 0xffff_ffff,
    };
    is(&rt, op, 0xfb, b"\x5f\x05\x08\0\0\xff\xff\xff\xff\xfb");
    let op = Op::PersistentReserveOut {
        action: ReserveOut::RegisterAndIgnoreExistingKey,
        list: 0,
    };
    is(&rt, op, 0, b"\x5f\x06\0\0\0\0\0\0\0\0");
}
