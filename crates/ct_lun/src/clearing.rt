//! How the waiting commands are cut that another command clears (SPC-4, PREEMPT AND ABORT).

ghost use Rattle.std.specs.Prelude.{◌≡◌, ◌<◌, ◌≤◌, length, take};
ghost use Rattle.ct_plan.specs.Plans.{puts_among};
ghost use Rattle.ct_book.specs.declared.event.Event.TheVariants as event;
ghost use Rattle.ct_book.specs.declared.event.Why.TheVariants as why;
ghost use Rattle.ct_book.specs.Journals.{with_event};
ghost use Rattle.ct_book.specs.Kept.{IsCommandNo, IsWorkNo};
ghost use Rattle.ct_machine.specs.Events.Ends.{is_cleared};
ghost use Rattle.ct_machine.specs.Acts.Functions.{numbers_of};
ghost use Rattle.ct_lun.specs.Desk.{Desk, slot_at};
ghost use Rattle.ct_lun.specs.States.{task_in, state_of};
ghost use Rattle.ct_lun.specs.Agreement.{Agrees, AgreesWith};
ghost use Rattle.ct_lun.specs.Calls.{Leaves, Clears};

use crate::mechanics::command;
use crate::unit::Lun;
use ct_book::{Book, Event, Why};
use ct_medium::Backend;
use ct_word::{CmdNo, NexusSet};

impl<B: Backend> Lun<B> {
    /// Cuts the waiting commands of some nexuses, in queue order, by the command that cleared the nexuses.
    pub(crate) fn clear(&mut self, by: CmdNo, cleared: &NexusSet, book: &mut Book)
        requires agrees { AgreesWith self.old book.old }
        requires reason { IsCommandNo book.old by }
        requires room { length self.old.slots ≤ book.old.spare }
        ensures { Clears self.old self.new book.old book.new by cleared.now (numbers_of (state_of self.old book.old).tasks) }
    {
        let mut at = 0;
        while at < self.count() {
            if self.is_cleared(at, cleared, book) {
                let told = self.tells_aborts();
                self.cut(at, by, told, book);
            } else {
                at += 1;
            }
        }
    }

    // Whether the command at a place waits, and its nexus is one of these.
    fn is_cleared(&self, at: usize, cleared: &NexusSet, book: &Book) -> bool
        requires within { at < length self.now.slots }
        requires agrees { Agrees self.now book.now }
        ensures { result ≡ is_cleared cleared.now (task_in book.now.works (slot_at self.now.slots at)) }
    {
        let slot = self.slot(at);
        !slot.begun && cleared.has(command(slot.no, book).nexus)
    }

    /// Cuts a command by another work, and writes whether its initiator is told.
    pub(crate) fn cut(&mut self, at: usize, by: CmdNo, told: bool, book: &mut Book)
        requires within { at < length self.old.slots }
        requires agrees { Agrees self.old book.old }
        requires reason { IsWorkNo book.old by }
        requires room { 0 < book.old.spare }
        ensures leaves { Leaves self.old self.new at }
        ensures book { book.new ≡ with_event book.old (event.Cut (slot_at self.old.slots at).no
            (puts_among (take (slot_at self.old.slots at).task.done (slot_at self.old.slots at).task.plan.operations))
            (why.By by) told) }
    {
        let slot = self.slot(at);
        let no = slot.no;
        let puts = slot.task.plan.writes_done(slot.task.done);
        self.take_out(at);
        book.push(Event::Cut {
            no,
            puts,
            why: Why::By(by),
            told,
        });
    }
}
