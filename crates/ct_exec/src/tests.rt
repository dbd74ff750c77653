ghost use Rattle.std.specs.Prelude.{◌≡◌, ◌≤◌, [], IfOk};
ghost use Rattle.ct_book.specs.Works.{room_for};

use super::*;
use ct_book::{Cmd, Command};
use ct_cdb::{Attr2, CdbBytes, Profile};
use ct_plan::BlockOp;
use ct_sense::{Sense, Status};
use ct_word::{Bytes, LunNo, Nexus, NexusSet, Reserve, Tag};
use std::alloc::Global;
use std::test::Fail;

const READ: &[u8] = b"\x28\0\0\0\0\x01\0\0\x02\0";

const READ_NOTHING: &[u8] = b"\x28\0\0\0\0\x01\0\0\0\0";

const WRITE: &[u8] = b"\x2a\0\0\0\0\x01\0\0\x02\0";

fn command(alloc: Global, cdb: &[u8], out: &[u8]) -> Result<Cmd, Fail>
    ensures { IfOk result (λ cmd. cmd.cdb ≡ cdb.now) }
{
    command_of(alloc, 2, cdb, out)
}

// A command of an initiator through port 1.
fn command_of(alloc: Global, init: u8, cdb: &[u8], out: &[u8]) -> Result<Cmd, Fail>
    ensures { IfOk result (λ cmd. cmd.cdb ≡ cdb.now) }
{
    let nexus = Nexus {
        port: 1,
        init: init.min(15),
    };
    let out = Bytes::from_vec(out.to_vec(alloc)?);
    let cdb = CdbBytes::new(Bytes::from_vec(cdb.to_vec(alloc)?));
    Ok(Cmd::new(alloc, 7, nexus, 1, Tag(3), Attr2::Simple, cdb, out)?)
}

const TEST_UNIT_READY: &[u8] = b"\0\0\0\0\0\0";

// A control whose nexus has taken the unit attention of power on.
fn ready(alloc: Global) -> Result<Control, Fail> {
    let mut control = Control::open(alloc, LunNo(0))?;
    let cmd = command(alloc, TEST_UNIT_READY, &[])?;
    check(&mut control, cmd.command(), 3);
    Ok(control)
}

// The additional sense code of the refusal, on a disk of so many blocks.
fn refused(alloc: Global, cdb: &[u8], out: &[u8], blocks: u32) -> Result<Option<u8>, Fail> {
    let mut control = ready(alloc)?;
    let cmd = command(alloc, cdb, out)?;
    let code = match check(&mut control, cmd.command(), blocks) {
        Some(refusal) => match refusal.sense {
            Some(sense) => Some(sense.asc),
            None => None,
        },
        None => None,
    };
    Ok(code)
}

// A command with so many zeros of data-out, the blocks of the disk, and why it is refused.
const REFUSALS: [(&[u8], usize, u32, Option<u8>); 12] = [
    (b"", 0, 3, Some(0x20)),
    // an unknown operation code
    (b"\xff\0\0\0\0\0", 0, 3, Some(0x20)),
    // SYNCHRONIZE CACHE of a range that leaves the disk
    (b"\x35\0\0\0\0\x02\0\0\x02\0", 0, 3, Some(0x21)),
    (b"\x35\0\0\0\0\x02\0\0\x02\0", 0, 4, None),
    // READ without its last byte, and with a reserved bit
    (b"\x28\0\0\0\0\x01\0\0\x02", 0, 3, Some(0x24)),
    (b"\x28\x20\0\0\0\0\0\0\x02\0", 0, 3, Some(0x24)),
    (WRITE, 1023, 2, Some(0x1a)),
    (WRITE, 1024, 2, Some(0x21)),
    (WRITE, 1024, 3, None),
    (READ, 0, 2, Some(0x21)),
    // MODE SENSE of saved values
    (b"\x1a\0\xff\0\xff\0", 0, 3, Some(0x39)),
    // MODE SELECT with too few bytes
    (b"\x15\x10\0\0\x10\0", 15, 3, Some(0x1a)),
];

#[test]
fn refuses(rt: HostRuntime) -> Result<(), Fail> {
    let alloc = rt.alloc();
    let zeros = [0; 1024];
    for (cdb, size, blocks, code) in REFUSALS {
        let out = &zeros[..size.min(1024)];
        assert_eq!(rt;
            refused(alloc, cdb, out, blocks)?,
            code,
            "at {cdb:?} {size}"
        );
    }
    // MODE SELECT of a page that isn't there
    let select = b"\x15\x10\0\0\x10\0";
    assert_eq!(rt; refused(alloc, select, &[0; 16], 3)?, Some(0x26));
    Ok(())
}

#[test]
fn tells_why(rt: HostRuntime) -> Result<(), Fail> {
    let alloc = rt.alloc();
    let control = Control::open(alloc, LunNo(0))?;
    assert!(rt; !control.is_unrestricted());
    let refusal = failed(&control, BlockOp::Put(7, 1));
    let sense = Sense {
        key: 3,
        asc: 0x0c,
        ascq: 0,
        info: Some(7),
    };
    assert_eq!(rt; refusal.sense, Some(sense));
    let body: Reserve<u8> = Reserve::open(alloc, 4)?;
    let reply = refusal.into_reply(body.into_empty());
    assert_eq!(rt;
        (reply.status, reply.body.len()),
        (Status::CheckCondition, 0)
    );
    assert_eq!(rt; Refusal::of_status(Status::Busy).status, Status::Busy);
    Ok(())
}

// The most bytes of data-in that a command can return.
#[tactic(auto, unfolding(ct_book::specs::Works::room_for))]
fn room_for(command: &Command) -> usize
    ensures { result ≡ room_for command.now.cdb }
{
    Profile::by(command.cdb.decoded(), &[], 0).data_in as usize
}

// Executes a command on a disk of 3 blocks, where it is done at once.
fn at_once(alloc: Global, command: &Command, body: Reserve<u8>) -> Result<Option<Instant>, Fail>
    requires empty { body.items ≡ [] }
    requires room { room_for command.now.cdb ≤ body.room }
{
    let mut control = ready(alloc)?;
    if check(&mut control, command, 3).is_some() || plan(command, 3).length() != 0 {
        return Ok(None);
    }
    Ok(Some(instant(&mut control, command, body, 3)))
}

#[test]
fn reads_no_blocks(rt: HostRuntime) -> Result<(), Fail> {
    let alloc = rt.alloc();
    let cmd = command(alloc, READ_NOTHING, &[])?;
    let body = Reserve::open(alloc, room_for(cmd.command()))?;
    match at_once(alloc, cmd.command(), body)? {
        Some(done) => {
            assert_eq!(rt;
                (done.reply.status, done.reply.body.len()),
                (Status::Good, 0)
            );
            assert_eq!(rt; done.cleared, NexusSet::open());
        }
        None => assert!(rt; false),
    }
    Ok(())
}

// A command, and the data that it returns of the unit.
const UNIT_DATA: [(&[u8], &[u8]); 7] = [
    (b"\0\0\0\0\0\0", b""),
    (b"\x35\0\0\0\0\0\0\0\0\0", b""),
    (b"\x03\x01\0\0\x12\0", b"\x72\0\0\0\0\0\0\0"),
    (b"\x12\0\0\0\x04\0", b"\0\0\x06\x12"),
    (
        b"\xa0\0\0\0\0\0\0\0\0\xff\0\0",
        b"\0\0\0\x08\0\0\0\0\0\0\0\0\0\0\0\0",
    ),
    (b"\x25\0\0\0\0\0\0\0\0\0", b"\0\0\0\x02\0\0\x02\0"),
    (
        b"\x9e\x10\0\0\0\0\0\0\0\0\0\0\0\x09\0\0",
        b"\0\0\0\0\0\0\0\x02\0",
    ),
];

#[test]
fn tells_of_the_unit(rt: HostRuntime) -> Result<(), Fail> {
    let alloc = rt.alloc();
    for (cdb, data) in UNIT_DATA {
        let cmd = command(alloc, cdb, &[])?;
        let body = Reserve::open(alloc, room_for(cmd.command()))?;
        match at_once(alloc, cmd.command(), body)? {
            Some(done) => {
                assert_eq!(rt; done.reply.status, Status::Good);
                assert_eq!(rt; done.reply.body.as_slice(), data, "at {cdb:?}");
            }
            None => assert!(rt; false, "at {cdb:?}"),
        }
    }
    Ok(())
}

#[test]
fn plans_each_block(rt: HostRuntime) -> Result<(), Fail> {
    let alloc = rt.alloc();
    let cmd = command(alloc, READ, &[])?;
    let whole = plan(cmd.command(), 3);
    assert_eq!(rt; (whole.length(), whole.need()), (2, 2));
    let none = plan(cmd.command(), 2);
    assert_eq!(rt; (none.length(), none.need()), (0, 0));
    let cmd = command(alloc, b"", &[])?;
    assert_eq!(rt; plan(cmd.command(), 3).length(), 0);
    let body: Reserve<u8> = Reserve::open(alloc, 4)?;
    let reply = moved_reply(body);
    assert_eq!(rt; (reply.status, reply.sense), (Status::Good, None));
    Ok(())
}

// How a command ended.
#[derive(Clone, Copy, Debug, PartialEq, Eq)]
enum Ended {
    // GOOD, and no command is cleared
    Good,
    // GOOD, and the commands of initiator 3 are cleared
    Clearing,
    Conflict,
    // CHECK CONDITION, with its additional sense code and the qualifier
    Checked(u8, u8),
    Otherwise,
}

fn why(refusal: Refusal) -> Ended {
    match (refusal.status, refusal.sense) {
        (Status::ReservationConflict, None) => Ended::Conflict,
        (Status::CheckCondition, Some(sense)) => Ended::Checked(sense.asc, sense.ascq),
        _ => Ended::Otherwise,
    }
}

fn cleared(set: &NexusSet) -> Ended {
    let mut third = NexusSet::open();
    third.add(Nexus { port: 1, init: 3 });
    if *set == third {
        Ended::Clearing
    } else if *set == NexusSet::open() {
        Ended::Good
    } else {
        Ended::Otherwise
    }
}

// Runs a command of an initiator on a disk of 3 blocks. One that moves blocks counts as GOOD.
fn run(
    alloc: Global,
    control: &mut Control,
    init: u8,
    cdb: &[u8],
    out: &[u8],
    data: &[u8],
) -> Result<Ended, Fail> {
    let cmd = command_of(alloc, init, cdb, out)?;
    let body = Reserve::open(alloc, room_for(cmd.command()))?;
    if let Some(refusal) = check(control, cmd.command(), 3) {
        return Ok(why(refusal));
    }
    if plan(cmd.command(), 3).length() != 0 {
        return Ok(Ended::Good);
    }
    let done = instant(control, cmd.command(), body, 3);
    if done.reply.status == Status::Good && done.reply.body.as_slice() == data {
        Ok(cleared(&done.cleared))
    } else {
        Ok(Ended::Otherwise)
    }
}

// PERSISTENT RESERVE OUT of an action and a type, and its list.
fn reserve_out(action: u8, kind: u8) -> [u8; 10] {
    [0x5f, action, kind, 0, 0, 0, 0, 0, 24, 0]
}

fn keys(key: u8, service_key: u8) -> [u8; 24] {
    let mut list = [0; 24];
    list[7] = key;
    list[15] = service_key;
    list
}

// What an initiator sends.
#[derive(Clone, Copy, Debug)]
enum Sent {
    // a command without data
    Alone(&'static [u8]),
    Write,
    // READ KEYS, which returns PRGENERATION 4 and the keys 7 and 8
    ReadKeys,
    // PERSISTENT RESERVE OUT of an action and a type, with a key and a service action key
    Reserve(u8, u8, u8, u8),
    // RELEASE of type 1, with these bytes as its list
    Release(&'static [u8]),
}

const READ_KEYS: &[u8] = b"\x5e\0\0\0\0\0\0\x01\0\0";

const BOTH_KEYS: &[u8] = b"\0\0\0\x04\0\0\0\x10\0\0\0\0\0\0\0\x07\0\0\0\0\0\0\0\x08";

fn send(alloc: Global, control: &mut Control, init: u8, sent: Sent) -> Result<Ended, Fail> {
    match sent {
        Sent::Alone(cdb) => run(alloc, control, init, cdb, b"", b""),
        Sent::Write => run(alloc, control, init, WRITE, &[0; 1024], b""),
        Sent::ReadKeys => run(alloc, control, init, READ_KEYS, b"", BOTH_KEYS),
        Sent::Reserve(action, kind, key, service_key) => {
            let cdb = reserve_out(action, kind);
            let list = keys(key, service_key);
            run(alloc, control, init, &cdb, &list, b"")
        }
        Sent::Release(list) => run(alloc, control, init, &reserve_out(2, 1), list, b""),
    }
}

const STOP: &[u8] = b"\x1b\0\0\0\0\0";

const START: &[u8] = b"\x1b\0\0\0\x01\0";

// A list with the key 7 and APTPL, and the same without its last byte.
const APTPL: &[u8] = b"\0\0\0\0\0\0\0\x07\0\0\0\0\0\0\0\0\0\0\0\0\x01\0\0\0";

const CUT: &[u8] = b"\0\0\0\0\0\0\0\x07\0\0\0\0\0\0\0\0\0\0\0\0\x01\0\0";

const IN_ORDER: [(u8, Sent, Ended); 14] = [
    (2, Sent::Reserve(0, 0, 0, 7), Ended::Good),
    (2, Sent::Reserve(1, 1, 7, 0), Ended::Good),
    (2, Sent::Alone(STOP), Ended::Good),
    // the unit attention is told before the conflict, and the conflict before the stopped unit
    (3, Sent::Write, Ended::Checked(0x29, 0x01)),
    (3, Sent::Write, Ended::Conflict),
    (2, Sent::Write, Ended::Checked(0x04, 0x02)),
    (2, Sent::Alone(START), Ended::Good),
    (2, Sent::Write, Ended::Good),
    (3, Sent::Alone(READ), Ended::Good),
    (3, Sent::Reserve(2, 1, 7, 0), Ended::Conflict),
    (2, Sent::Reserve(2, 3, 7, 0), Ended::Checked(0x26, 0x04)),
    (2, Sent::Release(APTPL), Ended::Checked(0x26, 0x00)),
    (2, Sent::Release(CUT), Ended::Checked(0x1a, 0x00)),
    (2, Sent::Reserve(4, 1, 7, 0), Ended::Checked(0x26, 0x00)),
];

#[test]
fn checks_reservations_in_order(rt: HostRuntime) -> Result<(), Fail> {
    let alloc = rt.alloc();
    let mut control = ready(alloc)?;
    for (init, sent, end) in IN_ORDER {
        assert_eq!(rt; send(alloc, &mut control, init, sent)?, end, "at {sent:?}");
    }
    Ok(())
}

const PREEMPTING: [(u8, Sent, Ended); 12] = [
    (3, Sent::Alone(TEST_UNIT_READY), Ended::Checked(0x29, 0x01)),
    (2, Sent::Reserve(0, 0, 0, 7), Ended::Good),
    (3, Sent::Reserve(0, 0, 0, 8), Ended::Good),
    (3, Sent::Reserve(1, 5, 8, 0), Ended::Good),
    (2, Sent::Reserve(5, 5, 7, 8), Ended::Clearing),
    (3, Sent::Alone(TEST_UNIT_READY), Ended::Checked(0x2a, 0x05)),
    (3, Sent::Alone(TEST_UNIT_READY), Ended::Checked(0x2f, 0x00)),
    (3, Sent::Reserve(0, 0, 0, 8), Ended::Good),
    (3, Sent::ReadKeys, Ended::Good),
    // PREEMPT clears no command
    (2, Sent::Reserve(4, 5, 7, 8), Ended::Good),
    (3, Sent::Alone(TEST_UNIT_READY), Ended::Checked(0x2a, 0x05)),
    (3, Sent::Alone(TEST_UNIT_READY), Ended::Good),
];

#[test]
fn preempts_and_aborts(rt: HostRuntime) -> Result<(), Fail> {
    let alloc = rt.alloc();
    let mut control = ready(alloc)?;
    for (init, sent, end) in PREEMPTING {
        assert_eq!(rt; send(alloc, &mut control, init, sent)?, end, "at {sent:?}");
    }
    Ok(())
}
