ghost use Rattle.std.specs.Prelude.{◌≡◌};

use ct_plan::Task;
use ct_word::{CmdNo, Nexus, Tag};

/// A command of the task set, from its entering on with the blocks that it needs and room for its data.
#[derive(Debug)]
pub struct Slot {
    pub no: CmdNo,
    pub nexus: Nexus,
    pub tag: Tag,
    /// Whether it began; one that waits did nothing yet.
    pub begun: bool,
    pub task: Task,
}

impl Slot {
    /// What it has for its work.
    pub(crate) fn into_task(self) -> Task
        ensures { result ≡ self.task }
    {
        let Slot {
            no: _,
            nexus: _,
            tag: _,
            begun: _,
            task,
        } = self;
        task
    }
}

// The blocks of a lease are the pool's, and are let go with it.
impl Drop for Slot {
    fn drop(self) {
        let Task {
            plan: _,
            lease,
            body: _,
            done: _,
        } = self.into_task();
        lease.abandon();
    }
}
