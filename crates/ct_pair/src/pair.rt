ghost use Rattle.std.specs.Prelude.{◌≡◌, ◌<◌, ◌≤◌, ◌^◌, [], replicate, length, map, IfOk};
ghost use Rattle.ct_word.specs.declared.names.Ha.TheVariants as mode;
ghost use Rattle.ct_book.specs.Journals.{numbered};
ghost use Rattle.ct_book.specs.Kept.{events_for};
ghost use Rattle.ct_machine.specs.declared.act.Act.TheVariants as act;
ghost use Rattle.ct_machine.specs.States.{State};
ghost use Rattle.ct_machine.specs.Acts.Answers.{line_by};
ghost use Rattle.ct_machine.specs.Runs.{replay, IsAllowed, IsRun};
ghost use Rattle.ct_lun.specs.States.{at_a};
ghost use Rattle.ct_lun.specs.Calls.{said, said_next};
ghost use Rattle.ct_pair.specs.Pairs.{Acts, medium_cuts};

use ct_book::{Book, Cmd, Work};
use ct_lun::{Lun, Stepped};
use ct_machine::{Act, Answer, Opening};
use ct_medium::Backend;
use ct_word::limit::MOST_BLOCKS;
use ct_word::{CmdNo, Ha, LunNo, NoMemory, Node, Room};
use std::alloc::Global;
use std::marker::Model;

/// One logical unit with its nodes and its journal. All memory is taken when it is opened.
#[derive(Drop)]
pub struct Pair<B: Backend> {
    opening: Opening,
    lun: Lun<B>,
    book: Book,
}

impl<B: Backend> Model for Pair<B> {
    ghost use Rattle.ct_pair.specs.Pairs.{PairState, IsPair};

    ghost Value = { PairState };

    ghost view = { λ p. record { opening = p.opening; desk = p.lun; book = p.book } };

    ghost invariant = { λ p. IsPair p.opening p.lun p.book };
}

/// What a closed pair leaves: which logical unit it was, its book and its medium.
#[derive(Drop)]
pub struct End<B: Backend> {
    pub lun: LunNo,
    pub book: Book,
    pub medium: B,
}

impl<B: Backend> Pair<B> {
    /// A unit of one node with an empty task set for `depth` commands, 1 to 256, a pool of so many blocks for what its
    /// commands need meanwhile, and room for so many commands, task management functions and block operations. The medium has 1 to 65,536 blocks, all zeros, and has not failed. The error is that memory ran out.
    pub fn open(
        alloc: Global,
        ha: Ha,
        lun: LunNo,
        depth: u32,
        pool: u32,
        room: Room,
        medium: B,
    ) -> Result<Pair<B>, NoMemory>
        requires single { ha ≡ mode.None }
        requires low { 1 ≤ depth }
        requires high { depth ≤ 256 }
        requires events { events_for room < 2 ^ 32 }
        requires some { 1 ≤ length (B.blocks medium) }
        requires few { length (B.blocks medium) ≤ MOST_BLOCKS }
        requires zeros { B.blocks medium ≡ replicate (length (B.blocks medium)) (replicate 512 0) }
        requires unfailed { B.faults medium ≡ 0 }
        ensures opening { IfOk result (λ p. p.opening ≡ record {
          ha = ha;
          lun = lun;
          blocks = length (B.blocks medium);
          depth = depth;
          pool = pool;
          room = room;
        }) }
        ensures empty { IfOk result (λ p. p.book.journal ≡ []) }
        ensures faults { IfOk result (λ p. p.desk.faults ≡ B.faults medium) }
    {
        let opening = Opening {
            ha,
            lun,
            blocks: medium.len(),
            depth,
            pool,
            room,
        };
        let book = Book::open(alloc, room)?;
        let lun = Lun::open(alloc, lun, depth, pool, medium)?;
        Ok(Pair { opening, lun, book })
    }

    /// Does an act, and takes no memory. Counts of block operations are at least 1, and a work comes at node A. A work
    /// for which there is no room is handed back.
    pub fn act(&mut self, act: Act) -> Answer
        requires { IsAllowed self.old.opening act }
        ensures { Acts self.old self.new act result }
    {
        match act {
            Act::Arrive(node, work) => self.arrive(node, work),
            Act::Step(no, blocks) => self.step(no, blocks),
            Act::Deliver(_) => {
                // no message is on its way: a look at a field shows the check what holds of every pair
                let _ = &self.opening;
                Answer::Nothing
            }
            Act::Next(blocks) => self.next(blocks),
        }
    }

    // A work comes. It is handed back where there is no room for it; else a command enters or is refused, and a function is
    // answered.
    fn arrive(&mut self, node: Node, work: Work<Cmd>) -> Answer
        requires { IsAllowed self.old.opening (act.Arrive node work) }
        ensures { Acts self.old self.new (act.Arrive node work) result }
    {
        match work {
            Work::Cmd(cmd) => self.lun.arrive(cmd, &mut self.book),
            Work::Ask(ask) => self.lun.ask(ask, &mut self.book),
        }
    }

    fn step(&mut self, no: CmdNo, blocks: u32) -> Answer
        requires { 1 ≤ blocks }
        ensures { Acts self.old self.new (act.Step no blocks) result }
    {
        let step = self.lun.step(no, blocks, &mut self.book);
        said(no, step, &self.book)
    }

    fn next(&mut self, blocks: u32) -> Answer
        requires { 1 ≤ blocks }
        ensures { Acts self.old self.new (act.Next blocks) result }
    {
        let step = self.lun.next(blocks, &mut self.book);
        said_next(step, &self.book)
    }

    /// The book of the unit. Its journal is a run, with a cut for each fault of the medium.
    pub fn book(&self) -> &Book
        ensures book { result.now ≡ self.now.book }
        ensures run { IsRun self.now.opening result.now.journal }
        ensures cuts { medium_cuts result.now.journal ≡ self.now.desk.faults }
    {
        &self.book
    }

    /// The journal is a run of the machine at any time, with a cut for each fault of the medium, and no task management
    /// function is open between two acts.
    pub fn journal_is_a_run(&self)
        ensures run { IsRun self.now.opening self.now.book.journal }
        ensures closed { (replay self.now.opening self.now.book.journal).functions ≡ [] }
        ensures cuts { medium_cuts self.now.book.journal ≡ self.now.desk.faults }
    {
        let _ = &self.opening;
    }

    /// The book and the medium: the journal is a run, with a cut for each fault of the medium, and the blocks are those
    /// that it leads to.
    pub fn close(self) -> End<B>
        ensures lun { result.lun ≡ self.opening.lun }
        ensures book { result.book ≡ self.book }
        ensures run { IsRun self.opening self.book.journal }
        ensures blocks { B.blocks result.medium ≡ (replay self.opening self.book.journal).blocks }
        ensures faults { B.faults result.medium ≡ self.desk.faults }
        ensures cuts { medium_cuts self.book.journal ≡ self.desk.faults }
    {
        let Pair { opening, lun, book } = self;
        End {
            lun: opening.lun,
            book,
            medium: lun.into_medium(),
        }
    }
}

// The answer to a step of a command.
fn said(no: CmdNo, step: Stepped, book: &Book) -> Answer
    ensures { (s : State) → s.arrivals ≡ map at_a book.now.works → result ≡ said no s step }
{
    match step {
        Stepped::Moved => Answer::Moved(no),
        Stepped::Ended => Answer::Ended(no, line(no, book)),
        Stepped::Blocked(by) => Answer::Blocked(by),
        Stepped::Gone => Answer::Gone,
    }
}

// The answer to a step of the command that comes next, if there is one.
fn said_next(step: Option<(CmdNo, Stepped)>, book: &Book) -> Answer
    ensures { (s : State) → s.arrivals ≡ map at_a book.now.works → result ≡ said_next s step }
{
    match step {
        Some((no, step)) => said(no, step, book),
        None => Answer::Idle,
    }
}

// The line of a work, or 0 where no work has the number.
fn line(no: CmdNo, book: &Book) -> u32
    ensures { result ≡ line_by (numbered no (map at_a book.now.works)) }
{
    match book.work(no) {
        Some(Work::Cmd(command)) => command.line,
        Some(Work::Ask(ask)) => ask.line,
        None => 0,
    }
}
