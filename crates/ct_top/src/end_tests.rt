use crate::served::declared_blocks;
use crate::{Served, UnitEnd, play_on, target_one};
use ct_book::{Book, Entry, Why};
use ct_io::{MemSink, MemSource};
use ct_medium::{Backend, FaultyRam};
use ct_pair::End;
use ct_script::{parse, scripts_are_read_line_by_line};
use ct_sense::Status;
use ct_word::{CmdNo, LunNo, NexusSet};
use std::alloc::Global;
use std::process::Abort;
use std::test::Fail;

// Of a disk of 8 blocks the first two are written by a command each, and read together.
const SCRIPT: &str =
    "lun 0 blocks 8\nport 0 a\nmap 0 0 0 0\ncmd 0 0 0 1 simple 000000000000\nsync\n\
    cmd 0 0 0 1 simple 2a000000000000000100 a5*512\nsync\n\
    cmd 0 0 0 2 simple 2a000000000100000100 a6*512\nsync\n\
    cmd 0 0 0 3 simple 28000000000000000200\n";

/// A command as it ended: its status, SENSE KEY and ADDITIONAL SENSE CODE, and how much data came, with the first byte
/// of each of its first two blocks.
#[derive(Clone, Copy, Debug, PartialEq, Eq)]
struct Told {
    status: Status,
    sense: Option<(u8, u8)>,
    data: (usize, u8, u8),
}

const GOOD: Told = Told {
    status: Status::Good,
    sense: None,
    data: (0, 0, 0),
};

fn ended(book: &Book, no: u32) -> Option<Told> {
    let reply = book.reply(CmdNo::new(no))?;
    let body = reply.body.as_slice();
    Some(Told {
        status: reply.status,
        sense: match &reply.sense {
            Some(sense) => Some((sense.key, sense.asc)),
            None => None,
        },
        data: (
            body.len(),
            *body.get(0).unwrap_or(&0),
            *body.get(512).unwrap_or(&0),
        ),
    })
}

fn failed(asc: u8) -> Told {
    Told {
        status: Status::CheckCondition,
        sense: Some((3, asc)),
        data: (0, 0, 0),
    }
}

// The first byte of a block.
fn byte_at<B: Backend>(medium: &mut B, lba: u32) -> u8 {
    let mut block = [0xff; 512];
    if lba < medium.len() {
        let _ = medium.get(lba, &mut block);
    }
    block[0]
}

// What is left of the script over a medium of which these calls fail.
fn play_over(rt: &impl Abort, alloc: Global, fails: &[u64]) -> Result<End<FaultyRam>, Fail> {
    let script = parse(alloc, SCRIPT.as_bytes())?;
    let blocks = declared_blocks(script.lines()).expect(rt, "a unit is declared");
    let medium = FaultyRam::open(alloc, blocks, Vec::from_slice(alloc, fails)?)?;
    Ok(play_on(alloc, script, medium)?)
}

#[test]
fn plays_over_a_medium_that_fails(rt: HostRuntime) -> Result<(), Fail> {
    let End {
        book,
        mut medium,
        ..
    } = play_over(&rt, rt.alloc(), &[0])?;
    let read = Told {
        data: (1024, 0, 0xa6),
        ..GOOD
    };
    // the write that fails begins and is cut: it has one event less than one that moves and ends
    assert_eq!(rt; book.len(), 17);
    assert_eq!(rt; ended(&book, 2), Some(failed(0x0c)));
    assert_eq!(rt; ended(&book, 3), Some(GOOD));
    assert_eq!(rt; ended(&book, 4), Some(read));
    assert_eq!(rt;
        (byte_at(&mut medium, 0), byte_at(&mut medium, 1)),
        (0, 0xa6)
    );
    Ok(())
}

#[test]
fn a_read_of_the_medium_fails(rt: HostRuntime) -> Result<(), Fail> {
    let End {
        book,
        mut medium,
        ..
    } = play_over(&rt, rt.alloc(), &[2])?;
    assert_eq!(rt; ended(&book, 2), Some(GOOD));
    assert_eq!(rt; ended(&book, 3), Some(GOOD));
    assert_eq!(rt; ended(&book, 4), Some(failed(0x11)));
    assert_eq!(rt;
        (byte_at(&mut medium, 0), byte_at(&mut medium, 1)),
        (0xa5, 0xa6)
    );
    Ok(())
}

// What is left of a script where all goes well.
fn left_behind(alloc: Global, script: &str) -> Result<Vec<UnitEnd>, Fail> {
    let words = vec![in alloc; String::from_str(alloc, "play")?]?;
    let script = Vec::from_slice(alloc, script.as_bytes())?;
    let mut source = MemSource::new(script, 4096, Vec::new(alloc));
    let mut sink = MemSink::new(4096, Vec::new(alloc));
    sink.reserve(alloc, 4096)?;
    let Served { ends, .. } = target_one(alloc, &words, &mut source, &mut sink);
    Ok(ends)
}

#[test]
fn leaves_what_it_played(rt: HostRuntime) -> Result<(), Fail> {
    let mut ends = left_behind(rt.alloc(), SCRIPT)?;
    let left = ends.len();
    assert_eq!(rt; left, 1);
    let Some(
        UnitEnd {
            lun,
            book,
            mut disk,
        },
    ) = ends.pop()
    else {
        return Ok(());
    };
    let read = Told {
        data: (1024, 0xa5, 0xa6),
        ..GOOD
    };
    assert_eq!(rt; lun, LunNo(0));
    assert_eq!(rt; ended(&book, 1).map(|e| e.sense), Some(Some((6, 0x29))));
    assert_eq!(rt; ended(&book, 4), Some(read));
    assert_eq!(rt;
        (
            byte_at(&mut disk, 0),
            byte_at(&mut disk, 1),
            byte_at(&mut disk, 2)
        ),
        (0xa5, 0xa6, 0)
    );
    Ok(())
}

// A write of 8 blocks is aborted behind its fifth.
const ABORTED: &str =
    "lun 0 blocks 512\nport 0 a\nmap 0 0 0 0\nmap 1 0 0 0\ncmd 0 0 0 1 simple 000000000000\n\
    cmd 1 0 0 1 simple 000000000000\nsync\ncmd 0 0 0 1 simple 2a000000000000000800 33*4096\n\
    step 0 3 5\ntask 0 0 0 abort-task 1\ncmd 0 0 0 2 simple 28000000000000000800\n";

#[test]
fn a_history_has_a_function_and_its_cut(rt: HostRuntime) -> Result<(), Fail> {
    let alloc = rt.alloc();
    let no = CmdNo::new;
    for UnitEnd { book, .. } in left_behind(alloc, ABORTED)? {
        let history = book.history(alloc)?;
        let wanted = [
            Entry::Ran(no(1)),
            Entry::Ran(no(2)),
            Entry::Cut(no(3), 5, Why::By(no(4))),
            Entry::Func(no(4), NexusSet::open()),
            Entry::Ran(no(5)),
        ];
        assert_eq!(rt; history.as_slice(), wanted.as_slice());
    }
    Ok(())
}

#[test]
fn laws_can_be_called() {
    scripts_are_read_line_by_line();
}
