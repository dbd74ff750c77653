//! How a command enters the task set.

ghost use Rattle.std.specs.Prelude.{◌≡◌, ◌<◌, ◌≤◌, length, true, false, Some, None, IsNone, IfOk, IfErr, OnOk, OnErr};
ghost use Rattle.ct_pool.specs.Leases.{Takes, leases_out};
ghost use Rattle.ct_book.specs.Journals.{numbered, with_event, with_reply, without_body};
ghost use Rattle.ct_book.specs.Kept.{IsCommandNo};
ghost use Rattle.ct_exec.specs.Executions.{plan_in, need_in};
ghost use Rattle.ct_exec.specs.Refusals.{refused_reply};
ghost use Rattle.ct_machine.specs.States.{held_by};
ghost use Rattle.ct_machine.specs.Acts.Entries.{entering, turned_cause};
ghost use Rattle.ct_machine.specs.Acts.Arrivals.{arriving};
ghost use Rattle.ct_lun.specs.Desk.{Desk, slot_of};
ghost use Rattle.ct_lun.specs.Overlaps.{cause_by};
ghost use Rattle.ct_lun.specs.States.{command_in, state_of};
ghost use Rattle.ct_lun.specs.Agreement.{AgreesWith};
ghost use Rattle.ct_lun.specs.Calls.{Wrote, Does, entered_as};

use crate::mechanics::{Prepared, command, prepare};
use crate::said::Entered;
use crate::search::overlaps;
use crate::slot::Slot;
use crate::unit::Lun;
use ct_book::{Book, Cmd, Event, Work};
use ct_exec::{Refusal, check_condition};
use ct_machine::Answer;
use ct_matrix::Waits;
use ct_medium::Backend;
use ct_plan::Task;
use ct_pool::Lease;
use ct_sense::{Status, code};
use ct_word::{CmdNo, Nexus, Node, Tag};

impl<B: Backend> Lun<B> {
    /// A command comes at node A: it enters the task set or is refused, or there is no room for it.
    pub fn arrive(&mut self, cmd: Cmd, book: &mut Book) -> Answer
        requires agrees { AgreesWith self.old book.old }
        requires room { 0 < book.old.commands → 2 ≤ book.old.spare }
        ensures { Does self.old self.new book.old book.new (λ _. arriving Node.A (Work.Cmd cmd) (state_of self.old book.old)) result }
    {
        let prepared = prepare(cmd.command(), self.blocks());
        let _events = book.len();
        match book.add(Node::A, Work::Cmd(cmd), prepared.plan.length()) {
            Ok(no) => match self.enter(no, prepared, book) {
                Entered::Queued => Answer::Queued(no),
                Entered::Turned => Answer::Turned(no),
            },
            Err(work) => Answer::NoRoom(work),
        }
    }

    // A command of the book enters the task set, or is refused.
    fn enter(&mut self, no: CmdNo, prepared: Prepared, book: &mut Book) -> Entered
        requires agrees { AgreesWith self.old book.old }
        requires command { IsCommandNo book.old no }
        requires operations { prepared.plan.operations ≡
            plan_in (length self.old.blocks) (command_in book.old.works no) }
        requires need { prepared.plan.need ≡ need_in (length self.old.blocks) (command_in book.old.works no) }
        requires held { prepared.held ≡ held_by (length self.old.blocks) (command_in book.old.works no) false }
        requires fresh { IsNone (slot_of no self.old.slots) }
        requires unanswered { numbered no book.old.replies ≡ Some None }
        requires untaken { numbered no book.old.untaken ≡ Some true }
        requires room { 0 < book.old.spare }
        ensures answer { result ≡ entered_as (turned_cause (state_of self.old book.old) (command_in book.old.works no)) }
        ensures wrote { Wrote self.old self.new book.old book.new (entering no (command_in book.old.works no) (state_of self.old book.old)).journal }
        ensures agrees { AgreesWith self.new book.new }
        ensures faults { self.new.faults ≡ self.old.faults }
    {
        let command = command(no, book);
        let (nexus, tag) = (command.nexus, command.tag);
        let Prepared { plan, held } = prepared;
        match self.admit(nexus, tag, plan.need()) {
            Ok(lease) => {
                let body = book.take_body(no);
                let task = Task {
                    plan,
                    lease,
                    body,
                    done: 0,
                };
                let slot = Slot {
                    no,
                    nexus,
                    tag,
                    begun: false,
                    task,
                };
                self.put_in(slot, held);
                book.push(Event::Enter { no });
                Entered::Queued
            }
            Err(refusal) => {
                turn_away(no, refusal, book);
                Entered::Turned
            }
        }
    }

    // A lease for a command that may enter, or why it is refused.
    fn admit(&mut self, nexus: Nexus, tag: Tag, need: u32) -> Result<Lease, Refusal>
        requires out { leases_out self.old.pool ≡ length self.old.set.commands }
        requires contexts { self.old.pool.contexts ≡ self.old.set.depth }
        ensures free { OnOk result (cause_by self.old (record { nexus = nexus; tag = tag }) need ≡ None) }
        ensures takes { IfOk result (Takes self.old.pool self.new.pool need) }
        ensures after { OnOk result (self.new ≡ record self.old { pool = self.new.pool }) }
        ensures cause { IfErr result (λ refusal. cause_by self.old (record { nexus = nexus; tag = tag }) need ≡ Some (refused_reply refusal)) }
        ensures unchanged { OnErr result (self.new ≡ self.old) }
    {
        if overlaps(&self.slots, nexus, tag) {
            return Err(check_condition(&self.control, code::OVERLAPPED_COMMANDS_ATTEMPTED, None));
        }
        if self.queue.is_full() {
            return Err(Refusal::of_status(Status::TaskSetFull));
        }
        match self.pool.take(need) {
            Some(lease) => Ok(lease),
            None => Err(Refusal::of_status(Status::Busy)),
        }
    }
}

// Refuses a command at its arrival.
fn turn_away(no: CmdNo, refusal: Refusal, book: &mut Book)
    requires command { IsCommandNo book.old no }
    requires unanswered { numbered no book.old.replies ≡ Some None }
    requires untaken { numbered no book.old.untaken ≡ Some true }
    requires room { 0 < book.old.spare }
    ensures { book.new ≡ with_event (with_reply (without_body book.old no) no (refused_reply refusal)) (Event.Turned no) }
{
    let body = book.take_body(no).into_empty();
    book.answer(no, refusal.into_reply(body));
    book.push(Event::Turned { no });
}
