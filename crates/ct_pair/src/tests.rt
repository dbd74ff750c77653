use super::*;
use crate::test_acts::{NEXUS, Said, arrive, next, numbered, plain, step, wake};
use ct_book::{Book, Event, Why, Work};
use ct_medium::{Backend, FaultyRam, Ram};
use ct_sense::Status;
use ct_tmf::{Ask, Function};
use ct_word::{Ha, LunNo, Node, Room};
use std::alloc::Global;
use std::test::Fail;

const READ_NOTHING: &[u8] = b"\x28\0\0\0\0\x01\0\0\0\0";

const WRITE_TWO: &[u8] = b"\x2a\0\0\0\0\0\0\0\x02\0";

const WRITE_TWO_BEHIND: &[u8] = b"\x2a\0\0\0\0\x01\0\0\x02\0";

const READ_TWO_LOW: &[u8] = b"\x28\0\0\0\0\0\0\0\x02\0";

const READ_TWO: &[u8] = b"\x28\0\0\0\0\x01\0\0\x02\0";

const ROOM: Room = Room {
    commands: 5,
    functions: 0,
    pieces: 6,
};

// The byte that each block of the data of a command's reply begins with, up to two blocks.
fn data<B: Backend>(pair: &Pair<B>, no: u32) -> (usize, u8, u8) {
    match pair.book().reply(numbered(no)) {
        Some(reply) => {
            let body = reply.body.as_slice();
            let first = *body.get(0).unwrap_or(&0);
            let second = *body.get(512).unwrap_or(&0);
            (body.len(), first, second)
        }
        None => (0, 0, 0),
    }
}

// A command without block operations, and what finds no room behind it.
fn one_command<B: Backend>(alloc: Global, pair: &mut Pair<B>) -> Result<[Said; 7], Fail> {
    wake(alloc, pair)?;
    let first = arrive(alloc, pair, 1, READ_NOTHING, &[])?;
    let second = arrive(alloc, pair, 2, READ_NOTHING, &[])?;
    let ask = Ask {
        line: 9,
        nexus: NEXUS,
        function: Function::LunReset,
    };
    let function = plain(pair.act(Act::Arrive(Node::A, Work::Ask(ask))));
    let gone = step(pair, 2, 1);
    let ended = step(pair, 1, 1);
    let idle = next(pair, 1);
    let nothing = plain(pair.act(Act::Deliver(Node::A)));
    Ok([first, second, function, gone, ended, idle, nothing])
}

#[test]
fn has_room_for_one_command(rt: HostRuntime) -> Result<(), Fail> {
    let alloc = rt.alloc();
    let room = Room {
        commands: 2,
        functions: 0,
        pieces: 0,
    };
    let ram = Ram::open(alloc, 8)?;
    let mut pair = Pair::open(alloc, Ha::None, LunNo(3), 2, 4, room, ram)?;
    let said = one_command(alloc, &mut pair)?;
    let end = pair.close();
    let wanted = [
        Said::Queued(1),
        Said::NoRoom(2),
        Said::NoRoom(9),
        Said::Gone,
        Said::Ended(1, 7),
        Said::Idle,
        Said::Nothing,
    ];
    assert_eq!(rt; said, wanted);
    assert_eq!(rt;
        (end.lun, end.book.len(), end.medium.len()),
        (LunNo(3), 6, 8)
    );
    Ok(())
}

// Two writes that overlap at block 1, and a command with the tag of the second; the first write ends in two pieces.
fn overlap<B: Backend>(alloc: Global, pair: &mut Pair<B>) -> Result<[Said; 6], Fail> {
    wake(alloc, pair)?;
    let first = arrive(alloc, pair, 1, WRITE_TWO, &[0x11; 1024])?;
    let second = arrive(alloc, pair, 2, WRITE_TWO_BEHIND, &[0x22; 1024])?;
    let repeated = arrive(alloc, pair, 2, READ_NOTHING, &[])?;
    let moved = step(pair, 1, 1);
    let blocked = step(pair, 2, 1);
    Ok([first, second, repeated, moved, blocked, next(pair, 1)])
}

const OVERLAPPED: [Said; 6] = [
    Said::Queued(1),
    Said::Queued(2),
    Said::Turned(3),
    Said::Moved(1),
    Said::Blocked(1),
    Said::Ended(1, 7),
];

// The same, then the second write to its end, and a read of two blocks with its data.
fn overlap_and_read<B: Backend>(
    alloc: Global,
    pair: &mut Pair<B>,
    cdb: &[u8],
) -> Result<([Said; 6], [Said; 3], (usize, u8, u8)), Fail> {
    let overlapped = overlap(alloc, pair)?;
    let second = step(pair, 2, 8);
    let read = arrive(alloc, pair, 3, cdb, &[])?;
    let ended = step(pair, 4, 8);
    Ok((overlapped, [second, read, ended], data(pair, 4)))
}

const READ_BEHIND: [Said; 3] = [Said::Ended(2, 7), Said::Queued(4), Said::Ended(4, 7)];

#[test]
fn overlapping_writes_go_one_behind_another(rt: HostRuntime) -> Result<(), Fail> {
    let alloc = rt.alloc();
    let ram = Ram::open(alloc, 8)?;
    let mut pair = Pair::open(alloc, Ha::None, LunNo(0), 3, 4, ROOM, ram)?;
    let (overlapped, read, data) = overlap_and_read(alloc, &mut pair, READ_TWO_LOW)?;
    assert_eq!(rt; overlapped, OVERLAPPED);
    assert_eq!(rt; read, READ_BEHIND);
    assert_eq!(rt; data, (1024, 0x11, 0x22));
    Ok(())
}

// A write for which the pool has room, a read for which it hasn't, and two commands without blocks, of which the task
// set has a place for one.
fn crowd<B: Backend>(alloc: Global, pair: &mut Pair<B>) -> Result<[Said; 4], Fail> {
    wake(alloc, pair)?;
    let write = arrive(alloc, pair, 1, WRITE_TWO, &[5; 1024])?;
    let read = arrive(alloc, pair, 2, READ_TWO, &[])?;
    let nothing = arrive(alloc, pair, 3, READ_NOTHING, &[])?;
    let further = arrive(alloc, pair, 4, READ_NOTHING, &[])?;
    Ok([write, read, nothing, further])
}

fn status<B: Backend>(pair: &Pair<B>, no: u32) -> Option<Status> {
    match pair.book().reply(numbered(no)) {
        Some(reply) => Some(reply.status),
        None => None,
    }
}

#[test]
fn a_crowded_unit_turns_commands_away(rt: HostRuntime) -> Result<(), Fail> {
    let alloc = rt.alloc();
    let ram = Ram::open(alloc, 8)?;
    let mut pair = Pair::open(alloc, Ha::None, LunNo(0), 2, 3, ROOM, ram)?;
    let said = crowd(alloc, &mut pair)?;
    let statuses = [2, 4].map(|no| status(&pair, no));
    let wanted = [
        Said::Queued(1),
        Said::Turned(2),
        Said::Queued(3),
        Said::Turned(4),
    ];
    assert_eq!(rt; said, wanted);
    assert_eq!(rt; statuses, [Some(Status::Busy), Some(Status::TaskSetFull)]);
    Ok(())
}

// Status, SENSE KEY and ADDITIONAL SENSE CODE of a command that ended with sense data.
fn sense<B: Backend>(pair: &Pair<B>, no: u32) -> Option<(Status, u8, u8)> {
    let reply = pair.book().reply(numbered(no))?;
    match &reply.sense {
        Some(sense) => Some((reply.status, sense.key, sense.asc)),
        None => None,
    }
}

// The medium cut the second write behind its first block.
fn has_cut(book: &Book) -> bool {
    let cut = Event::Cut {
        no: numbered(2),
        puts: 1,
        why: Why::Medium,
        told: false,
    };
    for place in 0..book.len() {
        if *book.event(place) == cut {
            return true;
        }
    }
    false
}

#[test]
fn a_fault_of_the_medium_cuts(rt: HostRuntime) -> Result<(), Fail> {
    let alloc = rt.alloc();
    // it fails at the second put of the second write
    let medium = FaultyRam::open(alloc, 8, [3].to_vec(alloc)?)?;
    let mut pair = Pair::open(alloc, Ha::None, LunNo(0), 3, 4, ROOM, medium)?;
    let (overlapped, read, data) = overlap_and_read(alloc, &mut pair, READ_TWO)?;
    let cut = has_cut(pair.book());
    let failed = sense(&pair, 2);
    assert_eq!(rt; overlapped, OVERLAPPED);
    assert_eq!(rt; read, READ_BEHIND);
    assert_eq!(rt; data, (1024, 0x22, 0));
    assert!(rt; cut);
    // MEDIUM ERROR, WRITE ERROR
    assert_eq!(rt; failed, Some((Status::CheckCondition, 3, 0x0c)));
    Ok(())
}
