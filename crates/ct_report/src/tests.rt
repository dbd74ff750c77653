ghost use Rattle.std.specs.Prelude.{◌≡◌, true, IsSome, is_none};
ghost use Rattle.ct_book.specs.Journals.{reply_of};
ghost use Rattle.ct_book.specs.Facts.{cutter_of};
ghost use Rattle.ct_book.specs.Kept.{IsCommandNo, IsFunctionNo, IsWorkNo, IsCutter, StandsIf, CanBePushed};

use crate::byte_print::push_byte_text;
use crate::disk::push_disk;
use crate::push_unit;
use ct_book::{Book, Cmd, Event, Kind2, Why, Work};
use ct_cdb::{Attr2, CdbBytes};
use ct_medium::{Backend, Ram};
use ct_sense::{Reply, Sense, Status, key};
use ct_tmf::{Ask, Function, Outcome};
use ct_word::{Block, Bytes, CmdNo, LunNo, Nexus, Node, Room, Tag};
use std::alloc::Global;
use std::test::Fail;

const NEXUS: Nexus = Nexus { port: 0, init: 1 };

const ROOM: Room = Room {
    commands: 3,
    functions: 2,
    pieces: 0,
};

const MISCOMPARE: Sense = Sense {
    key: key::MISCOMPARE,
    asc: 0x1d,
    ascq: 0x00,
    info: Some(0x0201),
};

// The number that a command gets, or 0 where it is handed back.
fn arrive(alloc: Global, book: &mut Book, node: Node, line: u32) -> Result<CmdNo, Fail> {
    let cdb = CdbBytes::new(Bytes::from_vec([0; 6].to_vec(alloc)?));
    let out = Bytes::new(alloc);
    let cmd = Cmd::new(alloc, line, NEXUS, 1, Tag(1), Attr2::Simple, cdb, out)?;
    Ok(add(book, node, Work::Cmd(cmd)))
}

fn ask(book: &mut Book, line: u32) -> CmdNo {
    let function = Function::AbortTaskSet;
    let ask = Ask {
        line,
        nexus: NEXUS,
        function,
    };
    add(book, Node::A, Work::Ask(ask))
}

fn add(book: &mut Book, node: Node, work: Work<Cmd>) -> CmdNo {
    if book.spare() == 0 {
        return CmdNo::new(0);
    }
    match book.add(node, work, 0) {
        Ok(no) => no,
        Err(_) => CmdNo::new(0),
    }
}

fn is_command(book: &Book, no: CmdNo) -> bool
    ensures { result ≡ true → IsCommandNo book.now no }
{
    matches!(book.work(no), Some(Work::Cmd(_)))
}

fn is_function(book: &Book, no: CmdNo) -> bool
    ensures { result ≡ true → IsFunctionNo book.now no }
{
    matches!(book.work(no), Some(Work::Ask(_)))
}

fn is_work(book: &Book, no: CmdNo) -> bool
    ensures { result ≡ true → IsWorkNo book.now no }
{
    book.work(no).is_some()
}

fn has_reply(book: &Book, no: CmdNo) -> bool
    ensures { result ≡ true → IsSome (reply_of book.now no) }
{
    book.reply(no).is_some()
}

fn is_reason(book: &Book, no: CmdNo, why: Why) -> bool
    ensures cutter { result ≡ true → IsCutter book.now (cutter_of why) }
    ensures reply { result ≡ true → StandsIf (is_none (cutter_of why)) (reply_of book.now no) }
{
    match why {
        Why::By(by) => is_work(book, by),
        Why::Medium => has_reply(book, no),
    }
}

fn can_be_pushed(book: &Book, event: &Event) -> bool
    ensures { result ≡ true → CanBePushed book.now event.now }
{
    match *event {
        Event::Came { .. } => false,
        Event::Enter { no }
        | Event::Begun { no }
        | Event::Granted { no }
        | Event::Moved { no, .. } => is_command(book, no),
        Event::Turned { no } | Event::Ended { no } => is_command(book, no) && has_reply(book, no),
        Event::Cut { no, why, .. } => is_command(book, no) && is_reason(book, no, why),
        Event::Asked { no } | Event::Closed { no, .. } => is_function(book, no),
        Event::Deliver { no, .. } => is_work(book, no),
    }
}

// Writes an event, where it can be written.
fn write(book: &mut Book, event: &Event) -> bool {
    if book.spare() == 0 || !can_be_pushed(book, event) {
        return false;
    }
    book.push(*event);
    true
}

// Keeps the reply of a command, where it can be kept.
fn answer(
    alloc: Global,
    book: &mut Book,
    no: CmdNo,
    status: Status,
    sense: Option<Sense>,
    descriptor: bool,
    body: &[u8],
) -> Result<(), Fail> {
    let body = Bytes::from_vec(Vec::from_slice(alloc, body)?);
    if is_command(book, no) && book.reply(no).is_none() {
        let reply = Reply {
            status,
            sense,
            descriptor,
            body,
        };
        book.answer(no, reply);
    }
    Ok(())
}

// What is printed of a logical unit with an empty disk.
fn printed(alloc: Global, lun: u8, book: &Book) -> Result<Vec<u8>, Fail> {
    let disk = Ram::open(alloc, 2)?;
    Ok(push_unit(Vec::new(alloc), LunNo(lun), book, &disk)?)
}

// Three commands, two of node A and one of B, with a reply each, and two functions.
fn open_book(alloc: Global) -> Result<Book, Fail> {
    let mut book = Book::open(alloc, ROOM)?;
    for (node, line) in [(Node::A, 7), (Node::B, 8), (Node::A, 10)] {
        arrive(alloc, &mut book, node, line)?;
    }
    ask(&mut book, 4294967295);
    ask(&mut book, 12);
    Ok(book)
}

fn answer_all(alloc: Global, book: &mut Book) -> Result<(), Fail> {
    let cases: [(u32, Status, Option<Sense>, &[u8]); 3] = [
        (1, Status::Good, None, b"\0\0\x0f"),
        (2, Status::TaskSetFull, None, b""),
        (3, Status::CheckCondition, Some(MISCOMPARE), b""),
    ];
    for (no, status, sense, body) in cases {
        answer(alloc, book, CmdNo::new(no), status, sense, false, body)?;
    }
    Ok(())
}

fn deliver(node: Node, kind: Kind2, no: CmdNo) -> Event {
    Event::Deliver { node, kind, no }
}

fn cut(no: CmdNo, puts: u32, why: Why, told: bool) -> Event {
    Event::Cut {
        no,
        puts,
        why,
        told,
    }
}

fn close(no: CmdNo, outcome: Outcome) -> Event {
    Event::Closed { no, outcome }
}

// One event of each kind at least, each way in which a command is cut, and each message.
fn events() -> [Event; 21] {
    let [a, b, c, by, other] = [1, 2, 3, 4, 5].map(|no| CmdNo::new(no));
    [
        Event::Enter { no: a },
        Event::Begun { no: a },
        Event::Moved { no: a, count: 12 },
        Event::Ended { no: a },
        deliver(Node::A, Kind2::Ask, b),
        Event::Turned { no: b },
        deliver(Node::B, Kind2::Reply, b),
        Event::Granted { no: c },
        deliver(Node::B, Kind2::Grant, c),
        deliver(Node::A, Kind2::Function, by),
        Event::Asked { no: by },
        deliver(Node::B, Kind2::Stop, c),
        cut(b, 3, Why::By(by), true),
        cut(c, 0, Why::By(a), false),
        deliver(Node::A, Kind2::Stopped, c),
        deliver(Node::A, Kind2::Finish, c),
        cut(c, 11, Why::Medium, false),
        close(by, Outcome::Complete),
        deliver(Node::B, Kind2::Response, by),
        close(other, Outcome::Succeeded),
        close(other, Outcome::Rejected),
    ]
}

#[test]
fn tells_of_each_event(rt: HostRuntime) -> Result<(), Fail> {
    let alloc = rt.alloc();
    let mut book = open_book(alloc)?;
    answer_all(alloc, &mut book)?;
    for event in events() {
        assert!(rt; write(&mut book, &event), "at {event:?}");
    }
    let text = printed(alloc, 15, &book)?;
    let lines = "lun 15\ncame 1 a 7\ncame 2 b 8\ncame 3 a 10\ncame 4 a 4294967295\ncame 5 a 12\n\
        in 1\nbegun 1\nmoved 1 12\nended 1 GOOD data 00*2.0f\ndeliver a ask 2\n\
        turned 2 TASK SET FULL\ndeliver b reply 2\ngranted 3\ndeliver b grant 3\ndeliver a function 4\n\
        asked 4\ndeliver b stop 3\ncut 2 3 by 4 told\ncut 3 0 by 1 silent\ndeliver a stopped 3\n\
        deliver a finish 3\n\
        cut 3 11 medium CHECK CONDITION sense f0000e000002010a000000001d0000000000\n\
        closed 4 FUNCTION COMPLETE\ndeliver b response 4\nclosed 5 FUNCTION SUCCEEDED\n\
        closed 5 FUNCTION REJECTED\n";
    assert_eq!(rt; text.as_slice(), lines.as_bytes());
    Ok(())
}

// What is printed of a command that ends at once.
fn ended(
    alloc: Global,
    status: Status,
    sense: Option<Sense>,
    descriptor: bool,
    body: &[u8],
) -> Result<Vec<u8>, Fail> {
    let mut book = Book::open(alloc, ROOM)?;
    let no = arrive(alloc, &mut book, Node::A, 2)?;
    answer(alloc, &mut book, no, status, sense, descriptor, body)?;
    write(&mut book, &Event::Ended { no });
    printed(alloc, 0, &book)
}

#[test]
fn tells_of_each_answer(rt: HostRuntime) -> Result<(), Fail> {
    let alloc = rt.alloc();
    let reset = Some(Sense::new(key::UNIT_ATTENTION, 0x29, 0x01));
    let differs = Some(MISCOMPARE);
    let cases: [(Status, Option<Sense>, bool, &[u8], &str); 9] = [
        (Status::Good, None, false, b"", "GOOD"),
        (Status::Busy, None, false, b"", "BUSY"),
        (
            Status::ReservationConflict,
            None,
            true,
            b"",
            "RESERVATION CONFLICT",
        ),
        (Status::AcaActive, None, false, b"", "ACA ACTIVE"),
        (Status::TaskAborted, None, false, b"", "TASK ABORTED"),
        (
            Status::CheckCondition,
            reset,
            false,
            b"",
            "CHECK CONDITION sense 700006000000000a00000000290100000000",
        ),
        (
            Status::CheckCondition,
            reset,
            true,
            b"",
            "CHECK CONDITION sense 7206290100000000",
        ),
        (
            Status::CheckCondition,
            differs,
            true,
            b"",
            "CHECK CONDITION sense 720e1d000000000c000a80000000000000000201",
        ),
        (
            Status::CheckCondition,
            differs,
            false,
            b"\xab\xab",
            "CHECK CONDITION sense f0000e000002010a000000001d0000000000 data ab*2",
        ),
    ];
    for (status, sense, descriptor, body, answer) in cases {
        let text = ended(alloc, status, sense, descriptor, body)?;
        let lines = format!(in alloc; "lun 0\ncame 1 a 2\nended 1 {answer}\n")?;
        assert_eq!(rt; text.as_slice(), lines.as_bytes());
    }
    Ok(())
}

// Puts a block of equal bytes on a disk.
fn put(alloc: Global, disk: &mut Ram, lba: u32, byte: u8) -> Result<(), Fail> {
    let mut block = Block::zeros(alloc)?;
    block.fill(&[byte; 512]);
    if lba < disk.len() {
        let _ = disk.swap(lba, &mut block);
    }
    Ok(())
}

fn disk_of(alloc: Global, bytes: &[u8]) -> Result<Ram, Fail> {
    let mut disk = Ram::open(alloc, 9)?;
    let mut lba = 0;
    for byte in bytes {
        put(alloc, &mut disk, lba, *byte)?;
        lba = lba.wrapping_add(1);
    }
    Ok(disk)
}

#[test]
fn tells_of_a_disk(rt: HostRuntime) -> Result<(), Fail> {
    let alloc = rt.alloc();
    let book = Book::open(alloc, ROOM)?;
    let disk = disk_of(alloc, b"\x00\x07\x07\x08\x00\x07\x00\x00\x01")?;
    let before = Vec::from_slice(alloc, b"before\n")?;
    let text = push_unit(before, LunNo(2), &book, &disk)?;
    let lines =
        "before\nlun 2\ndisk 1 2 07*512\ndisk 3 3 08*512\ndisk 5 5 07*512\ndisk 8 8 01*512\n";
    assert_eq!(rt; text.as_slice(), lines.as_bytes());
    Ok(())
}

#[test]
fn prints_bytes_and_blocks(rt: HostRuntime) -> Result<(), Fail> {
    let alloc = rt.alloc();
    let disk = disk_of(alloc, b"\x05\x05\x05\x05\x05\x05\x05\x05\x05")?;
    let mut text = Vec::new(alloc);
    push_byte_text(&mut text, b"")?;
    push_byte_text(&mut text, b"\x01\x01\x02\n")?;
    push_disk(&mut text, &disk)?;
    // what is behind the second block was never written
    push_disk(&mut text, &disk_of(alloc, b"\x00\x06")?)?;
    let lines = b"01*2.02.0adisk 0 8 05*512\ndisk 1 1 06*512\n";
    assert_eq!(rt; text.as_slice(), lines.as_slice());
    Ok(())
}
