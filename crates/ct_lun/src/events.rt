//! Steps of a unit that write one event.

ghost use Rattle.std.specs.Prelude.{◌≡◌, ◌<◌, ◌≤◌, [], ◌∷◌, length, take, slice_get, slice_set, Some, None, IfSome, true, false};
ghost use Rattle.ct_plan.specs.Plans.{puts_among};
ghost use Rattle.ct_matrix.specs.Queues.{with_begun};
ghost use Rattle.ct_book.specs.Works.{room_for};
ghost use Rattle.ct_book.specs.Journals.{numbered};
ghost use Rattle.ct_book.specs.Kept.{IsCommandNo};
ghost use Rattle.ct_exec.specs.Executions.{reply_moved, reply_failed, execute, refusal_of, plan_in};
ghost use Rattle.ct_exec.specs.Refusals.{refused_reply};
ghost use Rattle.ct_lun.specs.Desk.{Desk, slot_at, with_control};
ghost use Rattle.ct_lun.specs.States.{command_in};
ghost use Rattle.ct_lun.specs.Agreement.{Agrees};
ghost use Rattle.ct_lun.specs.Calls.{Goes, Leaves, IsOver, EndsAtOnce, Wrote, Spends, ending_reply, closed_book, moved_book, told};

use crate::mechanics::command;
use crate::unit::Lun;
use ct_book::{Book, Command, Event};
use ct_exec::{Instant, Refusal, failed, instant, miscompared, moved_reply};
use ct_matrix::Waits;
use ct_medium::Backend;
use ct_plan::Piece;
use ct_sense::Reply;
use ct_word::{CmdNo, NexusSet, Reserve};

impl<B: Backend> Lun<B> {
    /// Makes the next operations of a command that began, and writes how many they were.
    pub(crate) fn work(&mut self, at: usize, count: u32, book: &mut Book) -> Piece
        requires within { at < length self.old.slots }
        requires agrees { Agrees self.old book.old }
        requires left { (slot_at self.old.slots at).task.done < length (slot_at self.old.slots at).task.plan.operations }
        requires room { 0 < book.old.spare }
        ensures goes { Goes self.old self.new at count (command_in book.old.works (slot_at self.old.slots at).no).out result }
        ensures book { book.new ≡ moved_book book.old (slot_at self.old.slots at).no result.moved }
    {
        let no = self.slot(at).no;
        let command = command(no, book);
        let piece = self.go(at, count, command.out.as_slice());
        note_moved(no, piece.moved, book);
        piece
    }

    /// Why the medium failed a command at its next operation, and how many blocks were put before.
    pub(crate) fn fault(&self, at: usize) -> (Refusal, u32)
        requires within { at < length self.now.slots }
        requires left { (slot_at self.now.slots at).task.done < length (slot_at self.now.slots at).task.plan.operations }
        ensures why { IfSome (slice_get (slot_at self.now.slots at).task.plan.operations (slot_at self.now.slots at).task.done) (λ operation. refused_reply result.0 ≡ reply_failed self.now.control operation) }
        ensures puts { result.1 ≡ puts_among (take (slot_at self.now.slots at).task.done (slot_at self.now.slots at).task.plan.operations) }
    {
        let task = &self.slot(at).task;
        let why = failed(&self.control, task.plan.next(task.done));
        (why, task.plan.writes_done(task.done))
    }

    /// Why a command ended that found a difference, at this byte of its data-out.
    pub(crate) fn difference(&self, offset: u32) -> Refusal
        ensures { refused_reply result ≡ reply_moved self.now.control (Some offset) [] }
    {
        miscompared(&self.control, offset)
    }

    /// Takes a command out with its reply, and writes by which event it is over.
    pub(crate) fn finish(
        &mut self,
        at: usize,
        refusal: Option<Refusal>,
        event: Event,
        book: &mut Book,
    )
        requires within { at < length self.old.slots }
        requires agrees { Agrees self.old book.old }
        requires kind { IsOver (slot_at self.old.slots at).no event }
        requires room { 0 < book.old.spare }
        ensures leaves { Leaves self.old self.new at }
        ensures book { book.new ≡ closed_book book.old (slot_at self.old.slots at).no (ending_reply refusal (slot_at self.old.slots at).task.body.items) event }
    {
        let no = self.slot(at).no;
        let body = self.take_out(at);
        close(no, reply_with(refusal, body), event, book);
    }

    // What a command comes to that is executed at once.
    fn instant(&mut self, command: &Command, body: Reserve<u8>) -> Instant
        requires unrefused { refusal_of self.old.control (length self.old.blocks) command.now ≡ None }
        requires unplanned { plan_in (length self.old.blocks) command.now ≡ [] }
        requires empty { body.items ≡ [] }
        requires room { room_for command.now.cdb ≤ body.room }
        ensures after { self.new ≡ with_control self.old self.new.control }
        ensures done { execute (record { control = self.old.control; blocks = self.old.blocks }) command.now
            ≡ record {
              disk = record { control = self.new.control; blocks = self.old.blocks };
              reply = result.reply;
              cleared = result.cleared;
            } }
    {
        let blocks = self.medium.len();
        let done = instant(&mut self.control, command, body, blocks);
        self.queue.set_order(self.control.is_unrestricted());
        done
    }

    /// Executes a command at once that nothing refuses and that has no block operation, and hands out the nexuses whose
    /// waiting commands are to be cut behind it.
    pub(crate) fn end_at_once(&mut self, at: usize, book: &mut Book) -> NexusSet
        requires within { at < length self.old.slots }
        requires agrees { Agrees self.old book.old }
        requires waits { (slot_at self.old.slots at).begun ≡ false }
        requires unrefused { refusal_of self.old.control (length self.old.blocks) (command_in book.old.works (slot_at self.old.slots at).no) ≡ None }
        requires none { (slot_at self.old.slots at).task.plan.operations ≡ [] }
        requires room { 0 < book.old.spare }
        ensures { EndsAtOnce self.old self.new book.old book.new at result }
    {
        let no = self.slot(at).no;
        let body = self.take_out(at);
        let Instant { reply, cleared } = self.instant(command(no, book), body);
        close(no, reply, Event::Ended { no }, book);
        cleared
    }

    /// A waiting command begins.
    pub(crate) fn start(&mut self, at: usize, book: &mut Book)
        requires within { at < length self.old.slots }
        requires agrees { Agrees self.old book.old }
        requires waits { (slot_at self.old.slots at).begun ≡ false }
        requires room { 0 < book.old.spare }
        ensures after { self.new ≡ record self.old {
          set = record self.old.set { commands = with_begun (slot_at self.old.slots at).no self.old.set.commands };
          slots = slice_set self.old.slots at (record (slot_at self.old.slots at) { begun = true });
        } }
        ensures wrote { Wrote self.old self.new book.old book.new (told (Event.Begun (slot_at self.old.slots at).no) ∷ []) }
        ensures works { book.new.works ≡ book.old.works }
        ensures spends { Spends self.old self.new book.old book.new 1 }
    {
        let no = self.slot(at).no;
        self.set_begun(at);
        book.push(Event::Begun { no });
    }
}

fn note_moved(no: CmdNo, count: u32, book: &mut Book)
    requires command { IsCommandNo book.old no }
    requires room { 0 < book.old.spare }
    ensures { book.new ≡ moved_book book.old no count }
{
    if count != 0 {
        book.push(Event::Moved { no, count });
    }
}

fn reply_with(refusal: Option<Refusal>, body: Reserve<u8>) -> Reply
    ensures { result ≡ ending_reply refusal body.items }
{
    match refusal {
        Some(refusal) => refusal.into_reply(body.into_empty()),
        None => moved_reply(body),
    }
}

// Keeps the reply of a command, and writes by which event it is over.
fn close(no: CmdNo, reply: Reply, event: Event, book: &mut Book)
    requires command { IsCommandNo book.old no }
    requires unanswered { numbered no book.old.replies ≡ Some None }
    requires kind { IsOver no event }
    requires room { 0 < book.old.spare }
    ensures { book.new ≡ closed_book book.old no reply event }
{
    book.answer(no, reply);
    book.push(event);
}
