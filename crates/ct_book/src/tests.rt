ghost use Rattle.std.specs.Prelude.{◌≡◌, ◌<◌, true, IfOk, IsSome};
ghost use Rattle.ct_word.specs.Nexuses.{IsNexus};
ghost use Rattle.ct_book.specs.Journals.{is_command, reply_of};
ghost use Rattle.ct_book.specs.Kept.{IsCommandNo, IsFunctionNo, IsWorkNo};

use super::*;
use ct_cdb::{Attr2, CdbBytes};
use ct_sense::{Reply, Status};
use ct_tmf::{Ask, Function, Outcome};
use ct_word::{Bytes, CmdNo, Nexus, NexusSet, Node, Room, Tag};
use std::alloc::Global;
use std::test::Fail;

const OWN: Nexus = Nexus { port: 1, init: 2 };

const OTHER: Nexus = Nexus { port: 2, init: 2 };

const ROOM: Room = Room {
    commands: 3,
    functions: 1,
    pieces: 10,
};

const READ: &[u8] = b"\x28\0\0\0\0\0\0\0\x02\0";

const WRITE: &[u8] = b"\x2a\0\0\0\0\0\0\0\x02\0";

fn command(alloc: Global, nexus: Nexus, cdb: &[u8]) -> Result<Work<Cmd>, Fail>
    requires { IsNexus nexus }
    ensures { IfOk result (λ work. is_command work ≡ true) }
{
    let cmd = Cmd::new(
        alloc,
        7,
        nexus,
        1,
        Tag(3),
        Attr2::Simple,
        CdbBytes::new(Bytes::from_vec(cdb.to_vec(alloc)?)),
        Bytes::new(alloc),
    )?;
    Ok(Work::Cmd(cmd))
}

// The number that a work gets, or 0 where it is handed back.
fn arrive(book: &mut Book, work: Work<Cmd>, pieces: u32) -> u32 {
    if book.spare() == 0 {
        return 0;
    }
    match book.add(Node::A, work, pieces) {
        Ok(no) => no.number(),
        Err(_) => 0,
    }
}

fn read(alloc: Global, book: &mut Book, nexus: Nexus, pieces: u32) -> Result<u32, Fail>
    requires { IsNexus nexus }
{
    let work = command(alloc, nexus, READ)?;
    Ok(arrive(book, work, pieces))
}

fn ask(book: &mut Book) -> u32 {
    let work = Work::Ask(Ask {
        line: 9,
        nexus: OWN,
        function: Function::ClearTaskSet,
    });
    arrive(book, work, 0)
}

fn is_command(book: &Book, no: CmdNo) -> bool
    ensures { result ≡ true → IsCommandNo book.now no }
{
    matches!(book.work(no), Some(Work::Cmd(_)))
}

fn is_function(book: &Book, no: CmdNo) -> bool
    ensures { result ≡ true → IsFunctionNo book.now no }
{
    matches!(book.work(no), Some(Work::Ask(_)))
}

fn is_work(book: &Book, no: CmdNo) -> bool
    ensures { result ≡ true → IsWorkNo book.now no }
{
    book.work(no).is_some()
}

fn has_reply(book: &Book, no: CmdNo) -> bool
    ensures { result ≡ true → IsSome (reply_of book.now no) }
{
    book.reply(no).is_some()
}

// Keeps a reply, where the number is that of a command without one.
fn answer(alloc: Global, book: &mut Book, no: CmdNo) {
    if is_command(book, no) && book.reply(no).is_none() {
        book.answer(
            no,
            Reply {
                status: Status::Good,
                sense: None,
                descriptor: false,
                body: Bytes::new(alloc),
            },
        );
    }
}

fn cut(book: &mut Book, no: u32, by: u32) {
    let no = CmdNo::new(no);
    let by = CmdNo::new(by);
    if is_command(book, no) && is_work(book, by) && book.spare() > 0 {
        book.push(Event::Cut {
            no,
            puts: 5,
            why: Why::By(by),
            told: true,
        });
    }
}

fn close(book: &mut Book, no: u32) {
    let no = CmdNo::new(no);
    if is_function(book, no) && book.spare() > 0 {
        book.push(Event::Closed {
            no,
            outcome: Outcome::Complete,
        });
    }
}

fn counts(book: &Book) -> [u32; 3] {
    [book.len(), book.count(), book.spare()]
}

#[test]
fn fills_a_book(rt: HostRuntime) -> Result<(), Fail> {
    let alloc = rt.alloc();
    let mut book = Book::open(alloc, ROOM)?;
    assert_eq!(rt; counts(&book), [0, 0, 10 + 30 + 12]);
    assert_eq!(rt; read(alloc, &mut book, OWN, 2)?, 1);
    assert_eq!(rt; ask(&mut book), 2);
    assert_eq!(rt; counts(&book), [2, 2, 50]);
    let works = [0, 1, 2, 3].map(|no| is_work(&book, CmdNo::new(no)));
    assert_eq!(rt; works, [false, true, true, false]);
    Ok(())
}

fn first_event(book: &Book) -> Option<Event> {
    if book.len() > 0 {
        Some(*book.event(0))
    } else {
        None
    }
}

#[test]
fn keeps_a_reply(rt: HostRuntime) -> Result<(), Fail> {
    let alloc = rt.alloc();
    let mut book = Book::open(alloc, ROOM)?;
    assert_eq!(rt; read(alloc, &mut book, OWN, 2)?, 1);
    let no = CmdNo::new(1);
    assert!(rt; !has_reply(&book, no));
    answer(alloc, &mut book, no);
    assert!(rt; has_reply(&book, no));
    let came = Event::Came {
        no,
        node: Node::A,
        line: 7,
    };
    assert_eq!(rt; first_event(&book), Some(came));
    Ok(())
}

#[test]
fn tells_whose_commands_were_cut(rt: HostRuntime) -> Result<(), Fail> {
    let alloc = rt.alloc();
    let mut book = Book::open(alloc, ROOM)?;
    read(alloc, &mut book, OWN, 0)?;
    read(alloc, &mut book, OTHER, 0)?;
    ask(&mut book);
    cut(&mut book, 1, 3);
    cut(&mut book, 2, 3);
    close(&mut book, 3);
    let entries = book.history(alloc)?;
    let mut others = NexusSet::open();
    others.add(OTHER);
    let cleared = CmdNo::new(3);
    let ended = [
        Entry::Cut(CmdNo::new(1), 5, Why::By(cleared)),
        Entry::Cut(CmdNo::new(2), 5, Why::By(cleared)),
        Entry::Func(cleared, others),
    ];
    assert_eq!(rt; entries.as_slice(), ended.as_slice());
    Ok(())
}

// The room for data that a command brings.
fn room_of(alloc: Global, cdb: &[u8]) -> Result<usize, Fail> {
    let mut book = Book::open(alloc, ROOM)?;
    let work = command(alloc, OWN, cdb)?;
    match book.add(Node::B, work, 0) {
        Ok(no) => Ok(book.take_body(no).room()),
        Err(_) => Ok(9),
    }
}

#[test]
fn reserves_room_for_data(rt: HostRuntime) -> Result<(), Fail> {
    let alloc = rt.alloc();
    assert_eq!(rt; room_of(alloc, READ)?, 1024);
    assert_eq!(rt; room_of(alloc, WRITE)?, 0);
    assert_eq!(rt; room_of(alloc, b"\xff")?, 0);
    Ok(())
}
