//! Commands in pieces against a plain program, which does them one at a time, each whole, in the order in which they
//! ended.

ghost use Rattle.std.specs.Prelude.{◌≤◌, ◌<◌, ◌^◌, length};

use crate::Pair;
use crate::test_acts::{Said, arrive, next, number_of, numbered, step, wake};
use ct_book::{Book, Event};
use ct_medium::{Backend, Ram};
use ct_sense::Status;
use ct_word::limit::{BLOCK_SIZE, MOST_STEP};
use ct_word::{Ha, LunNo, Room};
use std::alloc::{AllocError, Global};
use std::ops::Range;
use std::test::Fail;

const READ_10: u8 = 0x28;

const WRITE_10: u8 = 0x2a;

// READ (10), or WRITE (10) whose first block is of a byte, and each further block of the next byte.
#[derive(Clone, Copy)]
struct Access {
    first: u8,
    count: u8,
    written: Option<u8>,
}

fn read(first: u8, count: u8) -> Access {
    Access {
        first,
        count,
        written: None,
    }
}

fn write(first: u8, count: u8, byte: u8) -> Access {
    Access {
        first,
        count,
        written: Some(byte),
    }
}

impl Access {
    fn cdb(&self) -> [u8; 10] {
        let code = match self.written {
            Some(_) => WRITE_10,
            None => READ_10,
        };
        [code, 0, 0, 0, 0, self.first, 0, 0, self.count, 0]
    }

    fn data_out(&self, alloc: Global) -> Result<Vec<u8>, AllocError> {
        let mut out = Vec::new(alloc);
        if let Some(byte) = self.written {
            for place in 0..self.count {
                out.extend_from_slice(&[byte.wrapping_add(place); BLOCK_SIZE])?;
            }
        }
        Ok(out)
    }

    fn blocks(&self) -> Range<usize> {
        let first = self.first as usize;
        first..first + self.count as usize
    }
}

// A command comes, with its number as its tag.
fn arrive_as<B: Backend>(
    alloc: Global,
    pair: &mut Pair<B>,
    number: u32,
    command: &Access,
) -> Result<Said, Fail> {
    let out = command.data_out(alloc)?;
    arrive(alloc, pair, number, &command.cdb(), out.as_slice())
}

// The first command comes and ends, and these come; whether all enter the task set.
fn arrive_all<B: Backend>(
    alloc: Global,
    pair: &mut Pair<B>,
    commands: &[Access],
) -> Result<bool, Fail>
    requires { length commands.now < 2 ^ 32 }
{
    wake(alloc, pair)?;
    for (place, command) in commands.iter().enumerate() {
        let number = place as u32 + 1;
        if arrive_as(alloc, pair, number, command)? != Said::Queued(number) {
            return Ok(false);
        }
    }
    Ok(true)
}

// The numbers of the commands that ended behind the first, in the order in which they did.
fn ended(alloc: Global, book: &Book) -> Result<Vec<u32>, AllocError> {
    let mut order = Vec::new(alloc);
    for place in 0..book.len() {
        if let Event::Ended { no } = *book.event(place) {
            if number_of(no) > 0 {
                order.push(number_of(no))?;
            }
        }
    }
    Ok(order)
}

// A block begins and ends with a byte.
fn is_block_of(block: &[u8], byte: u8) -> bool {
    block.len() == BLOCK_SIZE && block.first() == Some(&byte) && block.last() == Some(&byte)
}

// The data are so many blocks, each of its byte.
fn are_blocks(body: &[u8], bytes: &[u8]) -> bool {
    let mut blocks = body.chunks(BLOCK_SIZE);
    for byte in bytes {
        match blocks.next() {
            Some(block) if is_block_of(block, *byte) => {}
            _ => return false,
        }
    }
    blocks.next().is_none()
}

// Puts a byte into the first block, and into each further block the next byte.
fn put_from(blocks: &mut [u8], first: u8) {
    let mut byte = first;
    for block in blocks {
        *block = byte;
        byte = byte.wrapping_add(1);
    }
}

// Does a command whole on a disk of one byte a block, and tells whether these are its data.
fn run_whole(disk: &mut [u8], command: &Access, body: &[u8]) -> bool {
    match (disk.get_mut(command.blocks()), command.written) {
        (Some(blocks), Some(byte)) => {
            put_from(blocks, byte);
            body.is_empty()
        }
        (Some(blocks), None) => are_blocks(body, blocks),
        (None, _) => false,
    }
}

// Does the command with a number, and tells whether it was answered so.
fn run_numbered(disk: &mut [u8], commands: &[Access], book: &Book, number: u32) -> bool {
    let command = match number {
        0 => None,
        number => commands.get(number as usize - 1),
    };
    match (command, book.reply(numbered(number))) {
        (Some(command), Some(reply)) => {
            reply.status == Status::Good && run_whole(disk, command, reply.body.as_slice())
        }
        _ => false,
    }
}

// Does commands in an order, and tells whether each was answered so.
fn run_in_order(disk: &mut [u8], commands: &[Access], book: &Book, order: &[u32]) -> bool {
    for number in order {
        if !run_numbered(disk, commands, book, *number) {
            return false;
        }
    }
    true
}

// The blocks of a medium are these, each of its byte.
fn holds<B: Backend>(medium: &mut B, disk: &[u8]) -> bool {
    let mut block = [0; BLOCK_SIZE];
    let mut lba = 0;
    for byte in disk {
        if lba >= medium.len()
            || medium.get(lba, &mut block).is_err()
            || !is_block_of(&block, *byte)
        {
            return false;
        }
        lba += 1;
    }
    lba == medium.len()
}

// The replies of a unit and its medium are those of the commands one at a time, each whole, in an order.
fn is_serial<B: Backend>(
    alloc: Global,
    pair: Pair<B>,
    commands: &[Access],
    order: &[u32],
) -> Result<bool, Fail> {
    let mut end = pair.close();
    let mut disk = vec![in alloc; 0; end.medium.len() as usize]?;
    let answered = run_in_order(disk.as_mut_slice(), commands, &end.book, order);
    Ok(answered && holds(&mut end.medium, disk.as_slice()))
}

// Goes on with whole commands until nothing is left to do.
fn finish<B: Backend>(pair: &mut Pair<B>, commands: &[Access]) -> bool {
    for _ in commands {
        next(pair, MOST_STEP);
    }
    next(pair, MOST_STEP) == Said::Idle
}

const FEW: usize = 5;

// Writes that overlap, one that only touches another, and a read across them.
fn few() -> [Access; FEW] {
    [
        write(0, 6, 0x11),
        write(4, 6, 0x22),
        write(10, 2, 0x33),
        write(2, 3, 0x44),
        read(0, 12),
    ]
}

const FEW_BLOCKS: u32 = 12;

const FEW_ROOM: Room = Room {
    commands: FEW as u32 + 1,
    functions: 0,
    pieces: 29,
};

const ORDER_COUNT: usize = 4;

// The orders in which they can end: of the others only the read waits for the third write.
const ORDERS: [[u32; FEW]; ORDER_COUNT] = [
    [3, 1, 2, 4, 5],
    [1, 3, 2, 4, 5],
    [1, 2, 3, 4, 5],
    [1, 2, 4, 3, 5],
];

const BASE: u32 = FEW as u32;

const DIGITS: u32 = 4;

const NUMBERS: u32 = BASE * BASE * BASE * BASE;

// The digits of a number to the base name the commands that are stepped, in so many rounds, each time by so many blocks.
#[derive(Clone, Copy, Debug)]
struct Steps {
    number: u32,
    rounds: u32,
    blocks: u32,
}

fn make_steps<B: Backend>(pair: &mut Pair<B>, steps: Steps)
    requires { 1 ≤ steps.blocks }
{
    for _ in 0..steps.rounds {
        let mut digits = steps.number;
        for _ in 0..DIGITS {
            step(pair, digits % BASE + 1, steps.blocks);
            digits /= BASE;
        }
    }
}

fn place_among_orders(order: &[u32]) -> Option<usize> {
    ORDERS.iter().position(|wanted| wanted.as_slice() == order)
}

// In which of the orders the few commands end, if that is serial.
fn run_few(alloc: Global, steps: Steps) -> Result<Option<usize>, Fail>
    requires { 1 ≤ steps.blocks }
{
    let ram = Ram::open(alloc, FEW_BLOCKS)?;
    let room = FEW_ROOM;
    let mut pair = Pair::open(
        alloc,
        Ha::None,
        LunNo(0),
        room.commands,
        room.pieces,
        room,
        ram,
    )?;
    let commands = few();
    let entered = arrive_all(alloc, &mut pair, &commands)?;
    make_steps(&mut pair, steps);
    let finished = finish(&mut pair, &commands);
    let order = ended(alloc, pair.book())?;
    let serial = is_serial(alloc, pair, &commands, order.as_slice())?;
    if entered && finished && serial {
        Ok(place_among_orders(order.as_slice()))
    } else {
        Ok(None)
    }
}

#[test]
fn overlapping_pieces_end_as_one_at_a_time(rt: HostRuntime) -> Result<(), Fail> {
    let alloc = rt.alloc();
    for blocks in [1, 3, 5] {
        let mut came = [false; ORDER_COUNT];
        // one round, and as many as the longest command has pieces
        for rounds in [1, FEW_BLOCKS.div_ceil(blocks)] {
            for number in 0..NUMBERS {
                let steps = Steps {
                    number,
                    rounds,
                    blocks,
                };
                match run_few(alloc, steps)? {
                    Some(place) if place < ORDER_COUNT => came[place] = true,
                    _ => panic!(rt; "{steps:?}"),
                }
            }
        }
        assert_eq!(rt; came, [true; ORDER_COUNT], "in pieces of {blocks}");
    }
    Ok(())
}
