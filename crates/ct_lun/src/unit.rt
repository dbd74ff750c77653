ghost use Rattle.std.specs.Prelude.{◌≡◌, ◌+◌, ◌-◌, ◌<◌, ◌≤◌, [], length, IfOk};
ghost use Rattle.ct_lun.specs.Desk.{Desk, opened_desk};

use crate::slot::Slot;
use ct_exec::Control;
use ct_matrix::Waits;
use ct_medium::Backend;
use ct_pool::Pool;
use ct_queue::Queue;
use ct_shelf::Shelf;
use ct_word::{LunNo, NoMemory};
use std::alloc::Global;
use std::marker::Model;

/// A logical unit: its control, its task set with what each command has for its work, its pool and its medium.
#[derive(Drop)]
pub struct Lun<B: Backend> {
    pub(crate) control: Control,
    pub(crate) queue: Queue,
    // In the order of the queue.
    pub(crate) slots: Shelf<Slot>,
    pub(crate) pool: Pool,
    pub(crate) medium: B,
}

impl<B: Backend> Model for Lun<B> {
    ghost use Rattle.std.specs.Prelude.{◌≡◌, ◌+◌, length};
    ghost use Rattle.ct_lun.specs.Desk.{Desk};

    ghost Value = { Desk };

    ghost view = { λ l. record {
      control = l.control;
      set = l.queue;
      slots = l.slots.items;
      pool = l.pool;
      blocks = B.blocks l.medium;
      faults = B.faults l.medium;
    } };

    ghost invariant = { λ l. length l.slots.items + l.slots.room ≡ l.queue.depth };
}

impl<B: Backend> Lun<B> {
    /// A unit with an empty task set for so many commands, 1 to 256, and so many blocks to lease.
    pub fn open(
        alloc: Global,
        lun: LunNo,
        depth: u32,
        pool: u32,
        medium: B,
    ) -> Result<Lun<B>, NoMemory>
        requires low { 1 ≤ depth }
        requires high { depth ≤ 256 }
        ensures { IfOk result (λ l. l ≡ opened_desk lun depth pool (B.blocks medium) (B.faults medium)) }
    {
        let control = Control::open(alloc, lun)?;
        let mut queue = Queue::open(alloc, depth)?;
        queue.set_order(control.is_unrestricted());
        let slots = Shelf::open(alloc, depth as usize)?;
        let pool = Pool::open(alloc, pool, depth)?;
        Ok(Lun {
            control,
            queue,
            slots,
            pool,
            medium,
        })
    }

    /// How many blocks the medium has.
    pub fn blocks(&self) -> u32
        ensures { result ≡ length self.now.blocks }
    {
        self.medium.len()
    }

    /// The medium, of which all else is let go.
    pub fn into_medium(self) -> B
        ensures blocks { B.blocks result ≡ self.blocks }
        ensures faults { B.faults result ≡ self.faults }
    {
        let Lun {
            control: _,
            queue: _,
            slots: _,
            pool: _,
            medium,
        } = self;
        medium
    }
}
