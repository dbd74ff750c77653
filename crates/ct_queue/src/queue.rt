ghost use Rattle.std.specs.Prelude.{◌≡◌, ◌≤◌, [], IfOk, IsSome, false};
ghost use Rattle.ct_matrix.specs.Queues.{command_of, without};

use crate::known_command::{Change, KnownCommand, known_of, refresh};
use crate::search::{begun, find, first_waiting, number_at, place, ready};
use ct_matrix::{Attr, Held, HeldCommand, Steps, Waits};
use ct_shelf::Shelf;
use ct_word::{CmdNo, NoMemory, Reserve};
use std::alloc::Global;
use std::marker::Model;
use std::sync::ledger::Ledger;

/// A task set (SAM-5, clause 8) as a list in queue order. All its memory is taken when it is opened.
#[derive(Debug, Drop)]
pub struct Queue {
    commands: Shelf<HeldCommand>,
    // Of each command, in the same order.
    known: Reserve<KnownCommand>,
    depth: u32,
    unrestricted: bool,
}

impl Model for Queue {
    ghost use Rattle.ct_matrix.specs.Queues.{TaskSet};
    ghost use Rattle.ct_queue.specs.Sound.{IsSound};
    ghost use Rattle.ct_queue.specs.KnownCommands.{AreKept};

    ghost Value = { TaskSet };

    ghost view = { λ q. record { commands = q.commands.items; depth = q.depth; unrestricted = q.unrestricted } };

    ghost invariant = { λ q. IsSound q.commands q.depth × AreKept q.unrestricted q.commands q.known };
}

impl Queue {
    /// An empty queue for so many commands, with reordering restricted.
    pub fn open(alloc: Global, depth: u32) -> Result<Queue, NoMemory>
        requires low { 1 ≤ depth }
        requires high { depth ≤ 256 }
        ensures { IfOk result (λ q. q ≡ record { commands = []; depth = depth; unrestricted = false }) }
    {
        Ok(Queue {
            commands: Shelf::open(alloc, depth as usize)?,
            known: Reserve::open(alloc, depth as usize)?,
            depth,
            unrestricted: false,
        })
    }
}

impl Waits for Queue {
    ghost state = { λ q. q };

    fn enter(&mut self, no: CmdNo, held: Held) {
        match held.attr {
            Attr::Head => {
                let at = first_waiting(self.known.as_slice());
                self.commands.insert(at, HeldCommand { no, held });
                let commands = &self.commands;
                let entered = commands.item(at);
                self.known
                    .insert(at, known_of(commands, entered, true, self.unrestricted));
                let change = Change::Entered(entered);
                refresh(&mut self.known, commands, &change, self.unrestricted);
            }
            Attr::Simple | Attr::Ordered => {
                let at = self.commands.len();
                self.commands.push(HeldCommand { no, held });
                let commands = &self.commands;
                self.known.push(known_of(commands, commands.item(at), true, self.unrestricted));
            }
        }
    }

    fn begin(&mut self, no: CmdNo) {
        let at = place(self.known.as_slice(), no);
        self.commands.item_mut(at).held.begun = true;
        let commands = &self.commands;
        let begun = commands.item(at);
        self.known
            .set(at, known_of(commands, begun, true, self.unrestricted));
        let change = Change::Begun(begun);
        refresh(&mut self.known, commands, &change, self.unrestricted);
    }

    fn set_order(&mut self, free_order: bool) {
        if self.unrestricted == free_order {
            return;
        }
        self.unrestricted = free_order;
        refresh(&mut self.known, &self.commands, &Change::Order, free_order);
    }

    fn blocker(&self, no: CmdNo) -> Option<CmdNo> {
        find(self.known.as_slice(), no)?.blocker
    }

    fn next_ready(&self) -> Option<CmdNo> {
        ready(self.known.as_slice())
    }

    fn first_begun(&self) -> Option<CmdNo> {
        begun(self.known.as_slice())
    }

    fn first(&self) -> Option<CmdNo> {
        number_at(self.known.as_slice(), 0)
    }

    fn after(&self, no: CmdNo) -> Option<CmdNo> {
        let known = self.known.as_slice();
        number_at(known, place(known, no) + 1)
    }

    fn len(&self) -> u32 {
        self.known.len() as u32
    }

    fn is_full(&self) -> bool {
        self.known.room() == 0
    }

    fn holds(&self, no: CmdNo) -> bool {
        find(self.known.as_slice(), no).is_some()
    }

    fn waits(&self, no: CmdNo) -> bool {
        match find(self.known.as_slice(), no) {
            Some(command) => !command.begun,
            None => false,
        }
    }

    fn leave<L: Ledger>(&mut self, no: CmdNo, steps: &mut Steps<L>)
        requires { IsSome (command_of no self.old.commands) }
        ensures left { self.new ≡ record self.old { commands = without no self.old.commands } }
        ensures counted { steps.new ≡ steps.old }
    {
        let at = place(self.known.as_slice(), no);
        let _left = self.commands.remove(at);
        let _kept = self.known.remove(at);
        let commands = &self.commands;
        refresh(
            &mut self.known,
            commands,
            &Change::Left(no),
            self.unrestricted,
        );
    }
}
