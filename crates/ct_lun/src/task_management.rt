//! Task management functions (SAM-5, clause 7). With one node each is taken up, cuts what it hits and is answered in one
//! act.

ghost use Rattle.std.specs.Prelude.{◌≡◌, ◌+◌, ◌<◌, ◌≤◌, length, take, not, ◌&&◌, Some};
ghost use Rattle.ct_word.specs.Nexuses.{is_same_nexus};
ghost use Rattle.std.specs.List.{list_any};
ghost use Rattle.ct_tmf.specs.Reaches.{hits, seeks};
ghost use Rattle.ct_plan.specs.Plans.{puts_among};
ghost use Rattle.ct_book.specs.declared.work.Work.TheVariants as kept;
ghost use Rattle.ct_book.specs.declared.event.Event.TheVariants as event;
ghost use Rattle.ct_book.specs.declared.event.Why.TheVariants as why;
ghost use Rattle.ct_book.specs.Journals.{numbered, with_event};
ghost use Rattle.ct_book.specs.Kept.{IsFunctionNo, IsWorkNo};
ghost use Rattle.ct_book.specs.Histories.{with_other};
ghost use Rattle.ct_exec.specs.Controls.{tells_aborts};
ghost use Rattle.ct_exec.specs.Closing.{closing_control};
ghost use Rattle.ct_machine.specs.Acts.Arrivals.{arriving};
ghost use Rattle.ct_machine.specs.Acts.Functions.{outcome_of};
ghost use Rattle.ct_lun.specs.Desk.{Desk, slot_at, with_control};
ghost use Rattle.ct_lun.specs.States.{command_in, state_of};
ghost use Rattle.ct_lun.specs.Agreement.{Agrees, AgreesWith};
ghost use Rattle.ct_lun.specs.Calls.{Leaves, Does};
ghost use Rattle.ct_lun.specs.Functions.{ask_in, CutsAll, IsAnswered};

use crate::search::seeks_any;
use crate::unit::Lun;
use ct_book::{Book, Event, Why, Work};
use ct_machine::Answer;
use ct_matrix::Waits;
use ct_medium::Backend;
use ct_tmf::{Ask, Outcome, hits};
use ct_word::{CmdNo, NexusSet, Node};

impl<B: Backend> Lun<B> {
    /// A function comes at node A: it is answered, or there is no room for it.
    pub fn ask(&mut self, ask: Ask, book: &mut Book) -> Answer
        requires agrees { AgreesWith self.old book.old }
        requires room { 0 < book.old.functions → length self.old.slots + 3 ≤ book.old.spare }
        ensures { Does self.old self.new book.old book.new (λ _. arriving Node.A (kept.Ask ask) (state_of self.old book.old)) result }
    {
        match book.add(Node::A, Work::Ask(ask), 0) {
            Ok(no) => Answer::Closed(no, self.function(no, book)),
            Err(work) => Answer::NoRoom(work),
        }
    }

    // A function of the book is taken up, cuts the commands that it hits, in queue order, and is answered.
    fn function(&mut self, no: CmdNo, book: &mut Book) -> Outcome
        requires agrees { AgreesWith self.old book.old }
        requires function { numbered no book.old.works ≡ Some (kept.Ask (ask_in book.old.works no)) }
        requires room { length self.old.slots + 2 ≤ book.old.spare }
        ensures { IsAnswered self.old self.new book.old book.new no (ask_in book.old.works no) result }
    {
        let ask = ask_of(no, book);
        book.push(Event::Asked { no });
        let others = self.cut_hit(no, &ask, book);
        self.close(no, &ask, &others, book)
    }

    // Cuts the commands that a function hits, in queue order. Returns the other nexuses than the asker's of which it cut one.
    fn cut_hit(&mut self, no: CmdNo, ask: &Ask, book: &mut Book) -> NexusSet
        requires agrees { AgreesWith self.old book.old }
        requires reason { IsWorkNo book.old no }
        requires room { length self.old.slots ≤ book.old.spare }
        ensures { CutsAll self.old self.new book.old book.new no ask.now result }
    {
        let mut others = NexusSet::open();
        let mut at = 0;
        while at < self.count() {
            if self.is_hit(at, ask) {
                self.cut_for(at, no, ask, &mut others, book);
            } else {
                at += 1;
            }
        }
        others
    }

    // Whether a function hits the command at a place.
    fn is_hit(&self, at: usize, ask: &Ask) -> bool
        requires { at < length self.now.slots }
        ensures { result ≡ hits ask.now (slot_at self.now.slots at).nexus (slot_at self.now.slots at).tag }
    {
        let slot = self.slot(at);
        hits(ask, slot.nexus, slot.tag)
    }

    // Cuts a command by a function, and notes its nexus where it isn't the asker's.
    fn cut_for(&mut self, at: usize, by: CmdNo, ask: &Ask, others: &mut NexusSet, book: &mut Book)
        requires within { at < length self.old.slots }
        requires agrees { Agrees self.old book.old }
        requires reason { IsWorkNo book.old by }
        requires room { 0 < book.old.spare }
        ensures leaves { Leaves self.old self.new at }
        ensures book { book.new ≡ with_event book.old (event.Cut (slot_at self.old.slots at).no
            (puts_among (take (slot_at self.old.slots at).task.done (slot_at self.old.slots at).task.plan.operations))
            (why.By by) (tells_aborts self.old.control && not (is_same_nexus ask.now.nexus (slot_at self.old.slots at).nexus))) }
        ensures others { others.new ≡ with_other ask.now.nexus (numbered (slot_at self.old.slots at).no book.old.works) others.old }
    {
        let nexus = self.slot(at).nexus;
        let told = self.tells_aborts() && !ask.nexus.is_same(nexus);
        if !nexus.is_same(ask.nexus) {
            others.add(nexus);
        }
        self.cut(at, by, told, book);
    }

    // Answers a function that cut what it hits: what it does to the control, and its outcome.
    fn close(&mut self, no: CmdNo, ask: &Ask, others: &NexusSet, book: &mut Book) -> Outcome
        requires agrees { Agrees self.old book.old }
        requires function { IsFunctionNo book.old no }
        requires room { 0 < book.old.spare }
        ensures outcome { result ≡ outcome_of ask.now (state_of self.old book.old) }
        ensures after { self.new ≡ with_control self.old (closing_control ask.now others.now self.old.control) }
        ensures book { book.new ≡ with_event book.old (event.Closed no result) }
    {
        let outcome = self.outcome(ask, book);
        self.control.close(ask, others);
        self.queue.set_order(self.control.is_unrestricted());
        book.push(Event::Closed { no, outcome });
        outcome
    }

    // Whether a query is about a command of the task set.
    fn is_sought(&self, ask: &Ask) -> bool
        ensures { result ≡ list_any (λ slot. seeks ask.now slot.nexus slot.tag) self.now.slots }
    {
        seeks_any(&self.slots, ask)
    }

    // FUNCTION SUCCEEDED for a query that finds a command, else FUNCTION COMPLETE.
    fn outcome(&self, ask: &Ask, book: &Book) -> Outcome
        requires { Agrees self.now book.now }
        ensures { result ≡ outcome_of ask.now (state_of self.now book.now) }
    {
        if self.is_sought(ask) {
            Outcome::Succeeded
        } else {
            Outcome::Complete
        }
    }
}

// The function with a number.
fn ask_of(no: CmdNo, book: &Book) -> Ask
    requires { IsFunctionNo book.now no }
    ensures { result ≡ ask_in book.now.works no }
{
    match book.work(no) {
        Some(Work::Ask(ask)) => *ask,
        _ => unreachable!(),
    }
}
