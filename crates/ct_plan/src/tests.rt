ghost use Rattle.std.specs.Prelude.{◌≡◌, ◌<◌, ◌≤◌, length, false, IfOk};
ghost use Rattle.ct_cdb.specs.Profiles.{Fits, giving, has_no_phase, most_named};
ghost use Rattle.ct_pool.specs.Leases.{leases_out};
ghost use Rattle.ct_plan.specs.Tasks.{IsReady};

use super::*;
use ct_cdb::{Class, Few, Form, Op, Phase, Profile, Ranges, SerIdx, rows_fit};
use ct_medium::{Backend, FaultyRam, Ram};
use ct_pool::Pool;
use ct_word::{Block, NoMemory, Reserve};
use std::alloc::Global;
use std::process::Abort;
use std::test::Fail;

const READ: Op = Op::Read {
    form: Form::Ten,
    lba: 1,
    count: 2,
};

const WRITE: Op = Op::Write {
    form: Form::Ten,
    lba: 1,
    count: 2,
};

const READ_NOTHING: Op = Op::Read {
    form: Form::Ten,
    lba: 3,
    count: 0,
};

const ALL: Option<PieceEnd> = Some(PieceEnd::All);

#[test]
fn plans_block_operations(rt: HostRuntime) {
    let plan = Plan::of(&READ, &[], 3);
    assert_eq!(rt;
        (plan.length(), plan.need(), plan.writes_done(2)),
        (2, 2, 0)
    );
    if plan.length() == 2 {
        assert_eq!(rt;
            (plan.next(0), plan.next(1)),
            (BlockOp::Get(1), BlockOp::Get(2))
        );
    }
    let plan = Plan::of(&WRITE, &[0; 1024], 3);
    assert_eq!(rt;
        (plan.length(), plan.need(), plan.writes_done(1)),
        (2, 2, 1)
    );
    if plan.length() == 2 {
        assert_eq!(rt;
            (plan.next(0), plan.next(1)),
            (BlockOp::Put(1, 0), BlockOp::Put(2, 1))
        );
    }
    // a range that leaves the disk, data-out that is too short, and no blocks
    assert_eq!(rt; Plan::of(&READ, &[], 2).length(), 0);
    assert_eq!(rt; Plan::of(&WRITE, &[0; 1023], 3).length(), 0);
    assert_eq!(rt; Plan::of(&READ_NOTHING, &[], 3).length(), 0);
    any_pieces();
    whole();
}

// Makes pieces of so many blocks, as far as the medium lets it: how many operations are done, and how the last piece
// ended.
fn make_pieces<B: Backend>(
    t: &mut Task,
    out: &[u8],
    blocks: u32,
    pool: &mut Pool,
    medium: &mut B,
) -> Piece
    requires { IsReady (length out.now) (length (B.blocks medium.old)) pool.old t.old }
    ensures ready { IsReady (length out.now) (length (B.blocks medium.new)) pool.new t.new }
    ensures lease { t.new.lease ≡ t.old.lease }
    ensures leases { leases_out pool.new ≡ leases_out pool.old }
    ensures contexts { pool.new.contexts ≡ pool.old.contexts }
    ensures size { length (B.blocks medium.new) ≡ length (B.blocks medium.old) }
{
    for _ in 0..t.plan.length() {
        if t.done >= t.plan.length() {
            break;
        }
        let piece = advance(t, out, blocks, pool, medium);
        if piece.end.is_some() {
            return Piece {
                moved: t.done,
                end: piece.end,
            };
        }
    }
    Piece {
        moved: t.done,
        end: None,
    }
}

// Performs a command in pieces of so many blocks: how many operations were made, how the last piece ended, and the
// data.
fn perform<B: Backend>(
    profile: Profile,
    out: &[u8],
    blocks: u32,
    pool: &mut Pool,
    body: Reserve<u8>,
    medium: &mut B,
) -> Option<(Piece, Reserve<u8>)>
    requires small { length (B.blocks medium.old) ≤ 65536 }
    requires fits { Fits profile }
    requires room { profile.data_in ≤ body.room }
    requires leases { leases_out pool.old < pool.old.contexts }
    ensures size { length (B.blocks medium.new) ≡ length (B.blocks medium.old) }
    ensures leases { leases_out pool.new ≡ leases_out pool.old }
    ensures contexts { pool.new.contexts ≡ pool.old.contexts }
{
    let plan = Plan::by(profile, out.len(), medium.len());
    match pool.take(plan.need()) {
        Some(lease) => {
            let mut t = Task {
                plan,
                lease,
                body,
                done: 0,
            };
            let last = make_pieces(&mut t, out, blocks, pool, medium);
            let Task {
                plan: _,
                lease,
                body,
                done: _,
            } = t;
            pool.give(lease);
            Some((last, body))
        }
        None => None,
    }
}

// Writes a block of ones and one of twos in pieces of so many blocks, and reads them back: the ends of both, and the
// data.
fn written_and_read(
    alloc: Global,
    blocks: u32,
) -> Result<Option<(Piece, Piece, Reserve<u8>)>, NoMemory> {
    let mut out = [1; 1024];
    out[512..].fill(2);
    let mut pool = Pool::open(alloc, 4, 1)?;
    let mut ram = Ram::open(alloc, 4)?;
    let none = Reserve::open(alloc, 1024)?;
    let data_in = Reserve::open(alloc, 1024)?;
    rows_fit();
    let write = Profile::of(&WRITE, &out, 4);
    let Some((written, _)) = perform(write, &out, blocks, &mut pool, none, &mut ram) else {
        return Ok(None);
    };
    let read = Profile::of(&READ, &[], 4);
    let Some((read, data_in)) = perform(read, &[], blocks, &mut pool, data_in, &mut ram) else {
        return Ok(None);
    };
    Ok(Some((written, read, data_in)))
}

#[test]
fn does_the_same_in_any_pieces(rt: HostRuntime) -> Result<(), Fail> {
    for blocks in [1, 9] {
        let (written, read, data_in) = written_and_read(rt.alloc(), blocks)?.expect(
            &rt,
            "two blocks are free",
        );
        assert_eq!(rt; (written.moved, written.end), (2, ALL));
        assert_eq!(rt; (read.moved, read.end), (2, ALL));
        assert!(rt; data_in.len() == 1024);
        let (ones, twos) = data_in.as_slice().split_at(512);
        assert_eq!(rt; ones, [1; 512].as_slice());
        assert_eq!(rt; twos, [2; 512].as_slice());
    }
    Ok(())
}

// One phase, or two.
fn in_order(first: Phase, second: Option<Phase>) -> Few<Phase>
    ensures some { has_no_phase result ≡ false }
    ensures named { most_named 2 result ≤ 4 }
    ensures giving { giving result ≤ 2 }
{
    match second {
        Some(second) => Few::two(first, second),
        None => Few::one(first),
    }
}

// The row of a command of these phases on blocks 1 and 2.
fn row(first: Phase, second: Option<Phase>) -> Profile
    ensures fits { Fits result }
    ensures room { result.data_in ≡ 2048 }
{
    let mut row = Profile {
        index: SerIdx::Wr,
        class: Class::Reading,
        reports_attention: true,
        needs_started: true,
        is_write: false,
        data_out: 2048,
        data_in: 2048,
        need: 5,
        ranges: Ranges::one(1, 2),
        phases: in_order(first, second),
    };
    if row.writes() {
        row.class = Class::Writing;
        row.is_write = true;
    }
    row
}

// Blocks of these bytes each, with another byte at one place.
fn data_out(bytes: [u8; 4], odd: Option<usize>) -> [u8; 2048] {
    let mut out = [bytes[0]; 2048];
    out[512..].fill(bytes[1]);
    out[1024..].fill(bytes[2]);
    out[1536..].fill(bytes[3]);
    if let Some(at) = odd
        && at < 2048
    {
        out[at] = 9;
    }
    out
}

// A block of zeros, one of ones, one of twos and one of zeros.
fn disk(alloc: Global) -> Result<Ram, NoMemory>
    ensures { IfOk result (λ ram. length ram ≡ 4) }
{
    let mut ram = Ram::open(alloc, 4)?;
    let mut block = Block::zeros(alloc)?;
    block.fill(&[1; 512]);
    let _ = ram.swap(1, &mut block);
    block.fill(&[2; 512]);
    let _ = ram.swap(2, &mut block);
    Ok(ram)
}

// A command, by its phases and its data-out.
#[derive(Clone, Copy, Debug)]
struct Case {
    first: Phase,
    second: Option<Phase>,
    out: [u8; 4],
    odd: Option<usize>,
}

// Performs a command in pieces of so many blocks: how many operations were made, how the last piece ended, the blocks
// and the data.
fn performed(
    alloc: Global,
    case: Case,
    blocks: u32,
) -> Result<Option<(Piece, Ram, Reserve<u8>)>, NoMemory> {
    let mut pool = Pool::open(alloc, 5, 1)?;
    let mut ram = disk(alloc)?;
    let body = Reserve::open(alloc, 2048)?;
    let out = data_out(case.out, case.odd);
    let row = row(case.first, case.second);
    match perform(row, &out, blocks, &mut pool, body, &mut ram) {
        Some((last, data_in)) => Ok(Some((last, ram, data_in))),
        None => Ok(None),
    }
}

// The blocks are of these bytes each.
fn assert_blocks(rt: &impl Abort, found: &Ram, bytes: [u8; 4]) {
    assert_eq!(rt; found.len(), 4);
    let mut lba = 0;
    for byte in bytes {
        assert!(rt; lba < found.len());
        assert_eq!(rt; *found.block(lba), [byte; 512]);
        lba = lba.wrapping_add(1);
    }
}

// The data is of blocks of these bytes each.
fn assert_data(rt: &impl Abort, found: &[u8], bytes: &[u8]) {
    assert_eq!(rt; (found.len() / 512, found.len() % 512), (bytes.len(), 0));
    for (block, byte) in found.chunks(512).zip(bytes) {
        assert_eq!(rt; block, [*byte; 512].as_slice());
    }
}

// A command with one block each of these bytes as its data-out.
fn plain(first: Phase, second: Option<Phase>, out: [u8; 4]) -> Case {
    Case {
        first,
        second,
        out,
        odd: None,
    }
}

// The same, with another byte at a place of the data-out.
fn odd(first: Phase, second: Option<Phase>, out: [u8; 4], at: usize) -> Case {
    Case {
        first,
        second,
        out,
        odd: Some(at),
    }
}

// So many operations, up to the plan's end.
fn all(moved: u32) -> Piece {
    Piece { moved, end: ALL }
}

// So many operations, up to a difference at this byte of the data-out.
fn differs(moved: u32, at: u32) -> Piece {
    Piece {
        moved,
        end: Some(PieceEnd::Miscompare(at)),
    }
}

#[test]
fn does_each_phase(rt: HostRuntime) -> Result<(), Fail> {
    use Phase::{Compare, Get, Look, Put, PutSame, PutSecondHalf, Zero};
    let before = [0, 1, 2, 0];
    let (same, other) = ([1, 2, 3, 4], [5, 6, 7, 8]);
    let put = Some(PutSecondHalf);
    let cases: [(Case, Piece, [u8; 4], &[u8]); 11] = [
        (plain(Get, None, other), all(2), before, &[1, 2]),
        (plain(Look, None, other), all(2), before, &[]),
        (plain(PutSame, None, other), all(2), [0, 5, 5, 0], &[]),
        (plain(Zero, None, other), all(2), [0; 4], &[]),
        (plain(Compare, None, same), all(2), before, &[]),
        (plain(Put, Some(Look), other), all(4), [0, 5, 6, 0], &[]),
        (plain(Get, Some(Zero), other), all(4), [0; 4], &[1, 2]),
        (plain(Compare, put, same), all(4), [0, 3, 4, 0], &[]),
        (plain(Zero, put, other), all(4), [0, 7, 8, 0], &[]),
        // the second block differs in its fourth byte, and the first in its first one
        (odd(Compare, put, same, 515), differs(2, 515), before, &[]),
        (odd(Compare, put, same, 0), differs(1, 0), before, &[]),
    ];
    for (case, made, disk, data) in cases {
        for blocks in [1, 9] {
            let (last, ram, data_in) = performed(rt.alloc(), case, blocks)?.expect(
                &rt,
                "five blocks are free",
            );
            assert_eq!(rt; last, made, "at {case:?}");
            assert_blocks(&rt, &ram, disk);
            assert_data(&rt, data_in.as_slice(), data);
        }
    }
    Ok(())
}

// Performs phases on a medium of four blocks of zeros, with zeros as data-out; the call of this number fails.
fn failed_at(
    alloc: Global,
    first: Phase,
    second: Option<Phase>,
    call: u64,
) -> Result<Option<Piece>, NoMemory> {
    let mut pool = Pool::open(alloc, 5, 1)?;
    let body = Reserve::open(alloc, 2048)?;
    let mut medium = FaultyRam::open(alloc, 4, [call].to_vec(alloc)?)?;
    match perform(
        row(first, second),
        &[0; 2048],
        9,
        &mut pool,
        body,
        &mut medium,
    ) {
        Some((last, _)) => Ok(Some(last)),
        None => Ok(None),
    }
}

#[test]
fn tells_of_faults(rt: HostRuntime) -> Result<(), Fail> {
    let put = Some(Phase::PutSecondHalf);
    let cases = [
        (Phase::Get, None, 0, 0, PieceEnd::ReadFault(1)),
        (Phase::Look, None, 1, 1, PieceEnd::ReadFault(2)),
        (Phase::Compare, None, 1, 1, PieceEnd::ReadFault(2)),
        (Phase::Put, None, 0, 0, PieceEnd::WriteFault(1)),
        (Phase::Zero, None, 1, 1, PieceEnd::WriteFault(2)),
        (Phase::Zero, None, 2, 2, PieceEnd::All),
        (Phase::Compare, put, 3, 3, PieceEnd::WriteFault(2)),
    ];
    for (first, second, call, moved, end) in cases {
        let last = failed_at(rt.alloc(), first, second, call)?.expect(&rt, "five blocks are free");
        assert_eq!(rt;
            (last.moved, last.end),
            (moved, Some(end)),
            "{first:?} {second:?} {call}"
        );
    }
    Ok(())
}
