//! Steps of a unit that write no event.

ghost use Rattle.std.specs.Prelude.{◌≡◌, ◌+◌, ◌<◌, ◌≤◌, length, slice_set, IfSome, IfNone, IsNone, IsSome, IsSomeAnd, true, false, option_map};
ghost use Rattle.ct_word.specs.Nexuses.{IsNexus};
ghost use Rattle.ct_pool.specs.Leases.{IsLeaseOf};
ghost use Rattle.ct_plan.specs.Tasks.{IsReady};
ghost use Rattle.ct_matrix.specs.Queues.{command_of, placed, with_begun};
ghost use Rattle.ct_book.specs.Kept.{IsCommandNo};
ghost use Rattle.ct_exec.specs.Controls.{tells_aborts};
ghost use Rattle.ct_exec.specs.Executions.{plan_in, need_in, refusal_of, refused_control};
ghost use Rattle.ct_exec.specs.Refusals.{refused_reply};
ghost use Rattle.ct_machine.specs.States.{held_by};
ghost use Rattle.ct_lun.specs.Desk.{Desk, slot_at, placed_slot, with_control};
ghost use Rattle.ct_lun.specs.States.{command_in};
ghost use Rattle.ct_lun.specs.Calls.{Goes, Leaves};

use crate::search::first_waiting;
use crate::slot::Slot;
use crate::unit::Lun;
use ct_book::{Book, Command, Work};
use ct_cdb::Attr2;
use ct_exec::{Refusal, check};
use ct_matrix::{Footprint, Held, Waits, leave_uncounted};
use ct_medium::Backend;
use ct_plan::{Piece, Plan, Task, advance};
use ct_shelf::Shelf;
use ct_word::limit::MOST_BLOCKS;
use ct_word::{CmdNo, Reserve};

impl<B: Backend> Lun<B> {
    pub(crate) fn slot(&self, at: usize) -> &Slot
        requires { at < length self.now.slots }
        ensures { result.now ≡ slot_at self.now.slots at }
    {
        self.slots.item(at)
    }

    /// Whether a command that another nexus aborts ends with TASK ABORTED.
    pub(crate) fn tells_aborts(&self) -> bool
        ensures { result ≡ tells_aborts self.now.control }
    {
        self.control.tells_aborts()
    }

    /// How many commands are in the task set.
    pub(crate) fn count(&self) -> usize
        ensures { result ≡ length self.now.slots }
    {
        self.slots.len()
    }

    /// Puts a command into the task set.
    pub(crate) fn put_in(&mut self, slot: Slot, held: Held)
        requires begun { held.begun ≡ false }
        requires fresh { IsNone (command_of slot.no self.old.set.commands) }
        requires free { length self.old.set.commands < self.old.set.depth }
        requires same { length self.old.set.commands ≡ length self.old.slots }
        ensures { self.new ≡ record self.old {
          set = record self.old.set { commands = placed (record { no = slot.no; held = held }) self.old.set.commands };
          slots = placed_slot held.attr slot self.old.slots;
        } }
    {
        let no = slot.no;
        place_in(&mut self.slots, held.attr, slot);
        self.queue.enter(no, held);
    }

    /// Takes a command out of the task set, gives its blocks back, and hands out its data.
    pub(crate) fn take_out(&mut self, at: usize) -> Reserve<u8>
        requires within { at < length self.old.slots }
        requires held { IsSome (command_of (slot_at self.old.slots at).no self.old.set.commands) }
        requires leased { IsLeaseOf self.old.pool (slot_at self.old.slots at).task.lease }
        ensures leaves { Leaves self.old self.new at }
        ensures body { result ≡ (slot_at self.old.slots at).task.body }
    {
        let slot = self.slots.remove(at);
        leave_uncounted(&mut self.queue, slot.no);
        let Task {
            plan: _,
            lease,
            body,
            done: _,
        } = slot.into_task();
        self.pool.give(lease);
        body
    }

    /// Notes that a waiting command has begun.
    pub(crate) fn set_begun(&mut self, at: usize)
        requires within { at < length self.old.slots }
        requires waits { IsSomeAnd (command_of (slot_at self.old.slots at).no self.old.set.commands) (λ c. c.held.begun ≡ false) }
        ensures { self.new ≡ record self.old {
          set = record self.old.set { commands = with_begun (slot_at self.old.slots at).no self.old.set.commands };
          slots = slice_set self.old.slots at (record (slot_at self.old.slots at) { begun = true });
        } }
    {
        let slot = self.slots.item_mut(at);
        slot.begun = true;
        let no = slot.no;
        self.queue.begin(no);
    }

    /// Makes the next operations of a command with this data-out.
    pub(crate) fn go(&mut self, at: usize, count: u32, out: &[u8]) -> Piece
        requires within { at < length self.old.slots }
        requires left { (slot_at self.old.slots at).task.done < length (slot_at self.old.slots at).task.plan.operations }
        requires ready { IsReady (length out.now) (length self.old.blocks) self.old.pool (slot_at self.old.slots at).task }
        ensures { Goes self.old self.new at count out.now result }
    {
        let slot = self.slots.item_mut(at);
        advance(&mut slot.task, out, count, &mut self.pool, &mut self.medium)
    }

    /// The check of a command that begins.
    pub(crate) fn check(&mut self, command: &Command) -> Option<Refusal>
        ensures answer { refusal_of self.old.control (length self.old.blocks) command.now ≡ option_map refused_reply result }
        ensures refused { IfSome result (λ _. self.new ≡ with_control self.old (refused_control self.old.control command.now)) }
        ensures unchanged { IfNone result (self.new ≡ self.old) }
    {
        let blocks = self.medium.len();
        let refusal = check(&mut self.control, command, blocks)?;
        self.queue.set_order(self.control.is_unrestricted());
        Some(refusal)
    }
}

// Puts a slot where its command enters the queue.
fn place_in(slots: &mut Shelf<Slot>, attr: Attr2, slot: Slot)
    requires { 0 < slots.old.room }
    ensures placed { slots.new.items ≡ placed_slot attr slot slots.old.items }
    ensures counted { length slots.new.items + slots.new.room ≡ length slots.old.items + slots.old.room }
{
    match attr {
        Attr2::Head => {
            let at = first_waiting(slots);
            slots.insert(at, slot);
        }
        Attr2::Simple | Attr2::Ordered => slots.push(slot),
    }
}

/// The command with a number.
pub(crate) fn command(no: CmdNo, book: &Book) -> &Command
    requires { IsCommandNo book.now no }
    ensures command { result.now ≡ command_in book.now.works no }
    ensures nexus { IsNexus result.now.nexus }
{
    match book.work(no) {
        Some(Work::Cmd(command)) => command,
        _ => unreachable!(),
    }
}

/// What a command brings along where it arrives: its plan, and how the task set sees it while it waits.
#[derive(Debug, Drop)]
pub(crate) struct Prepared {
    pub plan: Plan,
    pub held: Held,
}

/// A command made ready to enter, by its row.
#[tactic(auto, unfolding(ct_exec::specs::Executions::plan_in, ct_exec::specs::Executions::need_in))]
pub(crate) fn prepare(command: &Command, blocks: u32) -> Prepared
    requires { blocks ≤ MOST_BLOCKS }
    ensures operations { result.plan.operations ≡ plan_in blocks command.now }
    ensures need { result.plan.need ≡ need_in blocks command.now }
    ensures held { result.held ≡ held_by blocks command.now false }
{
    let profile = command.profile(blocks);
    let out = command.out.len();
    let held = Held {
        index: profile.index,
        print: Footprint::by(&profile, out, blocks),
        attr: command.attr,
        begun: false,
    };
    Prepared {
        plan: Plan::by(profile, out, blocks),
        held,
    }
}
