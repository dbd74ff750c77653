//! Acts of the tests, with answers that can be compared. In each unit a first command takes the unit attention of power on;
//! acts and answers number the commands behind it from 1 on.

ghost use Rattle.std.specs.Prelude.{◌≤◌};

use crate::{Act, Answer, Pair};
use ct_book::{Cmd, Work};
use ct_cdb::{Attr2, CdbBytes};
use ct_medium::Backend;
use ct_word::{Bytes, CmdNo, Nexus, Node, Tag};
use std::alloc::Global;
use std::test::Fail;

pub(crate) const NEXUS: Nexus = Nexus { port: 1, init: 2 };

// The line of each command.
const LINE: u32 = 7;

/// An answer without what it hands back.
#[derive(Clone, Copy, Debug, PartialEq, Eq)]
pub(crate) enum Said {
    Queued(u32),
    Turned(u32),
    NoRoom(u32),
    Moved(u32),
    Ended(u32, u32),
    Blocked(u32),
    Gone,
    Nothing,
    Idle,
    Other,
}

/// The number of a command behind the first, and back.
pub(crate) fn number_of(no: CmdNo) -> u32 {
    no.number().saturating_sub(1)
}

pub(crate) fn numbered(number: u32) -> CmdNo {
    CmdNo::new(number.saturating_add(1))
}

/// The first command comes and ends.
pub(crate) fn wake<B: Backend>(alloc: Global, pair: &mut Pair<B>) -> Result<Said, Fail> {
    arrive(alloc, pair, 0, &[0; 6], &[])?;
    Ok(step(pair, 0, 1))
}

pub(crate) fn plain(answer: Answer) -> Said {
    match answer {
        Answer::Queued(no) => Said::Queued(number_of(no)),
        Answer::Turned(no) => Said::Turned(number_of(no)),
        Answer::NoRoom(work) => Said::NoRoom(name(&work)),
        Answer::Moved(no) => Said::Moved(number_of(no)),
        Answer::Ended(no, line) => Said::Ended(number_of(no), line),
        Answer::Blocked(by) => Said::Blocked(number_of(by)),
        Answer::Gone => Said::Gone,
        Answer::Nothing => Said::Nothing,
        Answer::Idle => Said::Idle,
        _ => Said::Other,
    }
}

// The tag of a command, or the line of a function, that was handed back.
fn name(work: &Work<Cmd>) -> u32 {
    match work {
        Work::Cmd(cmd) => cmd.command().tag.0,
        Work::Ask(ask) => ask.line,
    }
}

/// A simple command comes.
pub(crate) fn arrive<B: Backend>(
    alloc: Global,
    pair: &mut Pair<B>,
    tag: u32,
    cdb: &[u8],
    out: &[u8],
) -> Result<Said, Fail> {
    let cdb = CdbBytes::new(Bytes::from_vec(cdb.to_vec(alloc)?));
    let out = Bytes::from_vec(out.to_vec(alloc)?);
    let cmd = Cmd::new(alloc, LINE, NEXUS, 1, Tag(tag), Attr2::Simple, cdb, out)?;
    Ok(plain(pair.act(Act::Arrive(Node::A, Work::Cmd(cmd)))))
}

pub(crate) fn step<B: Backend>(pair: &mut Pair<B>, no: u32, blocks: u32) -> Said
    requires { 1 ≤ blocks }
{
    plain(pair.act(Act::Step(numbered(no), blocks)))
}

pub(crate) fn next<B: Backend>(pair: &mut Pair<B>, blocks: u32) -> Said
    requires { 1 ≤ blocks }
{
    plain(pair.act(Act::Next(blocks)))
}
