//! What `play` does with one logical unit.

ghost use Rattle.std.specs.Prelude.{◌≡◌, ◌≤◌, ◌<◌, [], Some, length, replicate, IfOk, OnOk};
ghost use Rattle.ct_plan.specs.Plans.{plan_of};
ghost use Rattle.ct_book.specs.Journals.{works_in};
ghost use Rattle.ct_machine.specs.Runs.{replay, IsRun};
ghost use Rattle.ct_pair.specs.Pairs.{medium_cuts};
ghost use Rattle.ct_script.specs.Rules.{IsInRange, declared_blocks};
ghost use Rattle.ct_script.specs.Lines.{IsWithin};
ghost use Rattle.ct_top.specs.Commands.{works_sent, pieces_in, room_of, declared_sizes, opening_of};
ghost use Rattle.ct_top.specs.Played.{point_of, Drains, ByLine, ByLines, IsPlayed};

use ct_book::{Cmd, Work};
use ct_cdb::Profile;
use ct_law::{
    acts_write, arrivals_alone_take_room, idle_is_silent, next_does_something, runs_fit_their_room,
    works_are_kept,
};
use ct_medium::Backend;
use ct_pair::{Act, Answer, End, Pair};
use ct_script::{Line, Script, Sizes, Word};
use ct_tmf::Ask;
use ct_word::limit::{DEPTH, MOST_STEP, POOL};
use ct_word::{CmdNo, Ha, LunNo, NoMemory, Node, Room};
use std::alloc::Global;

/// The number under which a nexus sees the unit, as a set of bits.
const VISIBLE: u16 = 1;

/// Plays a script on the logical unit that it declares, with the task set and the pool that it declares, over a medium
/// of as many blocks. The error is that memory ran out, which can be before an act alone. An act fails only where an
/// operation of the medium failed meanwhile.
pub fn play_on<B: Backend>(alloc: Global, script: Script, medium: B) -> Result<End<B>, NoMemory>
    requires declared { declared_blocks script ≡ Some (length (B.blocks medium)) }
    requires zeros { B.blocks medium ≡ replicate (length (B.blocks medium)) (replicate 512 0) }
    requires unfailed { B.faults medium ≡ 0 }
    ensures lun { IfOk result (λ end. end.lun ≡ record { 0 = 0 }) }
    ensures played { IfOk result (λ end. IsPlayed (opening_of (length (B.blocks medium)) script) script (B.faults medium) (record { journal = end.book.journal; faults = B.faults end.medium })) }
    ensures cuts { IfOk result (λ end. medium_cuts end.book.journal ≡ B.faults end.medium) }
    ensures run { IfOk result (λ end. IsRun (opening_of (length (B.blocks medium)) script) end.book.journal) }
    ensures arrived { IfOk result (λ end. works_in end.book.journal ≡ works_sent script) }
    ensures disk { IfOk result (λ end. B.blocks end.medium ≡ (replay (opening_of (length (B.blocks medium)) script) end.book.journal).blocks) }
{
    arrivals_alone_take_room();
    works_are_kept();
    script.is_within();
    let room = room_of(script.lines(), medium.len());
    let Sizes { depth, pool } = sizes_of(script.lines());
    let mut pair = Pair::open(alloc, Ha::None, LunNo(0), depth, pool, room, medium)?;
    play_lines(alloc, &mut pair, script.into_lines())?;
    drain(&mut pair);
    Ok(pair.close())
}

// Exactly the room that the works of these lines take, on a disk of so many blocks.
fn room_of(lines: &[Line], blocks: u32) -> Room
    requires within { IsWithin lines.now }
    requires declared { declared_blocks lines.now ≡ Some blocks }
    ensures { result ≡ room_of blocks lines.now }
{
    let mut commands = 0;
    let mut functions = 0;
    let mut pieces = 0u64;
    for line in lines {
        match &line.word {
            Word::Cmd { .. } => commands += 1,
            Word::Task { .. } => functions += 1,
            _ => {}
        }
        pieces += pieces_in(line, blocks);
    }
    Room {
        commands,
        functions,
        pieces: pieces as u32,
    }
}

// How many commands and blocks of a pool the unit has that these lines declare.
fn sizes_of(lines: &[Line]) -> Sizes
    ensures { result ≡ declared_sizes lines.now }
{
    for line in lines {
        if let Word::Lun { sizes, .. } = &line.word {
            return *sizes;
        }
    }
    Sizes {
        depth: DEPTH,
        pool: POOL,
    }
}

// How many block operations a line's work plans.
#[tactic(auto, unfolding(ct_exec::specs::Executions::plan_in, ct_book::specs::Works::profile_in))]
fn pieces_in(line: &Line, blocks: u32) -> u64
    ensures { result ≡ pieces_in blocks line.now }
{
    match &line.word {
        Word::Cmd { cdb, out, .. } => {
            let profile = Profile::by(cdb.decoded(), out.as_slice(), blocks);
            planned(&profile, out.len(), blocks)
        }
        _ => 0,
    }
}

// How many block operations the plan of a row has, with so many bytes of data-out.
fn planned(profile: &Profile, out: usize, blocks: u32) -> u64
    ensures { result ≡ length (plan_of out blocks profile.now) }
{
    if profile.is_performed(out, blocks) {
        profile.operations()
    } else {
        0
    }
}

// The lines, one after another.
fn play_lines<B: Backend>(
    alloc: Global,
    pair: &mut Pair<B>,
    lines: Vec<Line>,
) -> Result<(), NoMemory>
    requires { IsWithin lines.items }
    ensures opening { pair.new.opening ≡ pair.old.opening }
    ensures done { OnOk result (ByLines pair.old.opening lines.items (point_of pair.old) (point_of pair.new)) }
{
    for line in lines {
        play_line(alloc, pair, line)?;
    }
    Ok(())
}

fn play_line<B: Backend>(alloc: Global, pair: &mut Pair<B>, line: Line) -> Result<(), NoMemory>
    requires { IsInRange line.word }
    ensures opening { pair.new.opening ≡ pair.old.opening }
    ensures done { OnOk result (ByLine pair.old.opening line.no line.word (point_of pair.old) (point_of pair.new)) }
{
    let Line { no, word } = line;
    match word {
        Word::Cmd {
            n,
            tag,
            attr,
            cdb,
            out,
            ..
        } => {
            let command = Cmd::new(alloc, no, n, VISIBLE, tag, attr, cdb, out)?;
            pair.act(Act::Arrive(Node::A, Work::Cmd(command)));
        }
        Word::Task { n, function, .. } => {
            let ask = Ask {
                line: no,
                nexus: n,
                function,
            };
            pair.act(Act::Arrive(Node::A, Work::Ask(ask)));
        }
        Word::Step { no, blocks, .. } => {
            pair.act(Act::Step(CmdNo::new(no), blocks));
        }
        Word::Drain { .. } | Word::Sync => drain(pair),
        Word::Lun { .. } | Word::Port { .. } | Word::Map { .. } => {}
    }
    Ok(())
}

// All that can be done is done.
fn drain<B: Backend>(pair: &mut Pair<B>)
    ensures opening { pair.new.opening ≡ pair.old.opening }
    ensures drained { Drains pair.old.opening (point_of pair.old) (point_of pair.new) }
{
    loop {
        pair.journal_is_a_run();
        next_does_something();
        idle_is_silent();
        acts_write();
        if let Answer::Idle = pair.act(Act::Next(MOST_STEP)) {
            return;
        }
        pair.journal_is_a_run();
        runs_fit_their_room();
    }
}
