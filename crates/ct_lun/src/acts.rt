//! What is done to a unit.

ghost use Rattle.std.specs.Prelude.{◌≡◌, ◌+◌, ◌<◌, ◌≤◌, length, true, false, None, IfSome, IfNone, IsNone, IsSomeAnd};
ghost use Rattle.ct_matrix.specs.Queues.{command_of, blocker_of, next_ready_of, first_begun_of};
ghost use Rattle.ct_machine.specs.Acts.Answers.{first_some};
ghost use Rattle.ct_lun.specs.Desk.{Desk, slot_at, slot_of};
ghost use Rattle.ct_exec.specs.Executions.{refusal_of};
ghost use Rattle.ct_lun.specs.States.{command_in, state_of};
ghost use Rattle.ct_lun.specs.Agreement.{AgreesWith};
ghost use Rattle.ct_lun.specs.Calls.{Does, said, said_next};
ghost use Rattle.ct_lun.specs.Acts.{going, beginning_by, stepping_by, step_of, next_of};

use crate::mechanics::command;
use crate::said::{Reached, Stepped, how_far};
use crate::search::place;
use crate::unit::Lun;
use ct_book::{Book, Event, Why};
use ct_matrix::Waits;
use ct_medium::Backend;
use ct_word::CmdNo;

impl<B: Backend> Lun<B> {
    // Moves a command that began.
    fn move_on(&mut self, at: usize, blocks: u32, book: &mut Book) -> Stepped
        requires within { at < length self.old.slots }
        requires agrees { AgreesWith self.old book.old }
        requires begun { (slot_at self.old.slots at).begun ≡ true }
        requires room { 2 ≤ book.old.spare }
        ensures { Does self.old self.new book.old book.new (going self.old book.old at blocks) (said (slot_at self.old.slots at).no (state_of self.old book.old) result) }
    {
        let no = self.slot(at).no;
        let piece = self.work(at, blocks, book);
        match how_far(piece.end) {
            Reached::Part => Stepped::Moved,
            Reached::End => {
                self.finish(at, None, Event::Ended { no }, book);
                Stepped::Ended
            }
            Reached::Differs(offset) => {
                let why = self.difference(offset);
                self.finish(at, Some(why), Event::Ended { no }, book);
                Stepped::Ended
            }
            Reached::Fault => {
                let (why, puts) = self.fault(at);
                let event = Event::Cut {
                    no,
                    puts,
                    why: Why::Medium,
                    told: false,
                };
                self.finish(at, Some(why), event, book);
                Stepped::Ended
            }
        }
    }

    // Begins a waiting command that nothing makes wait, and moves it, or ends it at once.
    fn begin(&mut self, at: usize, blocks: u32, book: &mut Book) -> Stepped
        requires within { at < length self.old.slots }
        requires agrees { AgreesWith self.old book.old }
        requires waits { (slot_at self.old.slots at).begun ≡ false }
        requires room { length self.old.slots + 2 ≤ book.old.spare }
        ensures { Does self.old self.new book.old book.new (beginning_by self.old book.old at blocks) (said (slot_at self.old.slots at).no (state_of self.old book.old) result) }
    {
        let no = self.slot(at).no;
        match self.check(command(no, book)) {
            Some(refusal) => {
                self.finish(at, Some(refusal), Event::Ended { no }, book);
                Stepped::Ended
            }
            None => self.begin_unrefused(at, blocks, book),
        }
    }

    // The same where no check refuses it.
    fn begin_unrefused(&mut self, at: usize, blocks: u32, book: &mut Book) -> Stepped
        requires within { at < length self.old.slots }
        requires agrees { AgreesWith self.old book.old }
        requires waits { (slot_at self.old.slots at).begun ≡ false }
        requires unrefused { refusal_of self.old.control (length self.old.blocks) (command_in book.old.works (slot_at self.old.slots at).no) ≡ None }
        requires room { length self.old.slots + 2 ≤ book.old.spare }
        ensures { Does self.old self.new book.old book.new (beginning_by self.old book.old at blocks) (said (slot_at self.old.slots at).no (state_of self.old book.old) result) }
    {
        if self.slot(at).task.plan.length() == 0 {
            let no = self.slot(at).no;
            let cleared = self.end_at_once(at, book);
            self.clear(no, &cleared, book);
            return Stepped::Ended;
        }
        self.start(at, book);
        self.move_on(at, blocks, book)
    }

    // A step of the command at a place.
    fn step_at(&mut self, at: usize, blocks: u32, book: &mut Book) -> Stepped
        requires within { at < length self.old.slots }
        requires agrees { AgreesWith self.old book.old }
        requires room { length self.old.slots + 2 ≤ book.old.spare }
        ensures { Does self.old self.new book.old book.new (stepping_by self.old book.old at blocks) (said (slot_at self.old.slots at).no (state_of self.old book.old) result) }
    {
        if self.slot(at).begun {
            return self.move_on(at, blocks, book);
        }
        if let Some(by) = self.blocker(at) {
            return Stepped::Blocked(by);
        }
        self.begin(at, blocks, book)
    }

    // For which command a waiting one has to wait.
    fn blocker(&self, at: usize) -> Option<CmdNo>
        requires within { at < length self.now.slots }
        requires waits { IsSomeAnd (command_of (slot_at self.now.slots at).no self.now.set.commands) (λ c. c.held.begun ≡ false) }
        ensures { IfSome (command_of (slot_at self.now.slots at).no self.now.set.commands) (λ c. result ≡ blocker_of self.now.set c) }
    {
        self.queue.blocker(self.slot(at).no)
    }

    /// Moves a command by at most so many block operations, where nothing makes it wait.
    pub fn step(&mut self, no: CmdNo, blocks: u32, book: &mut Book) -> Stepped
        requires agrees { AgreesWith self.old book.old }
        requires room { 0 < length self.old.slots → length self.old.slots + 2 ≤ book.old.spare }
        ensures { Does self.old self.new book.old book.new (step_of self.old book.old no blocks) (said no (state_of self.old book.old) result) }
    {
        match self.find(no) {
            Some(at) => self.step_at(at, blocks, book),
            None => Stepped::Gone,
        }
    }

    // Where the command with a number stands.
    fn find(&self, no: CmdNo) -> Option<usize>
        ensures within { IfSome result (λ at. at < length self.now.slots) }
        ensures named { IfSome result (λ at. (slot_at self.now.slots at).no ≡ no) }
        ensures none { IfNone result (IsNone (slot_of no self.now.slots)) }
    {
        let at = place(&self.slots, no);
        if at == self.slots.len() {
            None
        } else {
            Some(at)
        }
    }

    /// A step of the first command that is ready, or else of the first that began; None where the task set is empty.
    pub fn next(&mut self, blocks: u32, book: &mut Book) -> Option<(CmdNo, Stepped)>
        requires agrees { AgreesWith self.old book.old }
        requires room { 0 < length self.old.slots → length self.old.slots + 2 ≤ book.old.spare }
        ensures { Does self.old self.new book.old book.new (next_of self.old book.old blocks) (said_next (state_of self.old book.old) result) }
    {
        match self.next_no() {
            Some(no) => Some((no, self.step(no, blocks, book))),
            None => None,
        }
    }

    // The first command that is ready, or else the first that began.
    fn next_no(&self) -> Option<CmdNo>
        ensures { result ≡ first_some (next_ready_of self.now.set) (first_begun_of self.now.set) }
    {
        match self.queue.next_ready() {
            Some(no) => Some(no),
            None => self.queue.first_begun(),
        }
    }
}
