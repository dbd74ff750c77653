ghost use Rattle.std.specs.Prelude.{◌≡◌, ◌<◌, ◌≤◌, ◌==◌, length, IsNone, IsSome, IsSomeAnd, IfSome, is_some, false};
ghost use Rattle.ct_matrix.specs.Queues.{TaskSet, command_of, placed, with_begun, without, blocker_of, next_ready_of, first_begun_of, first_of, after_of, is_waiting};

use crate::held::Held;
use crate::steps::Steps;
use ct_word::CmdNo;
use std::marker::Brand;
use std::sync::ledger::{Blank, Ledger};

/// A structure that keeps the task set of a logical unit in queue order, and tells which commands wait for which
/// (SAM-5, clause 8).
pub trait Waits {
    ghost state: { Self → TaskSet };

    /// Takes in a command that has not begun: HEAD OF QUEUE right before the first that waits, any other last.
    fn enter(&mut self, no: CmdNo, held: Held)
        requires fresh { IsNone (command_of no (state self.old).commands) }
        requires room { length (state self.old).commands < (state self.old).depth }
        requires waits { held.begun ≡ false }
        ensures { state self.new ≡ record (state self.old) {
          commands = placed (record { no = no; held = held }) (state self.old).commands;
        } };

    /// A command that waits has begun.
    fn begin(&mut self, no: CmdNo)
        requires { IsSomeAnd (command_of no (state self.old).commands) (λ c. c.held.begun ≡ false) }
        ensures { state self.new ≡ record (state self.old) { commands = with_begun no (state self.old).commands } };

    /// Reordering is unrestricted from now on, or restricted (SPC-4, QUEUE ALGORITHM MODIFIER).
    fn set_order(&mut self, free_order: bool)
        ensures { state self.new ≡ record (state self.old) { unrestricted = free_order } };

    /// The first command in queue order for which a waiting one has to wait.
    fn blocker(&self, no: CmdNo) -> Option<CmdNo>
        requires { IsSomeAnd (command_of no (state self.now).commands) (λ c. c.held.begun ≡ false) }
        ensures { IfSome (command_of no (state self.now).commands) (λ c. result ≡ blocker_of (state self.now) c) };

    /// The first waiting command that has to wait for none.
    fn next_ready(&self) -> Option<CmdNo>
        ensures { result ≡ next_ready_of (state self.now) };

    /// The first command that has begun.
    fn first_begun(&self) -> Option<CmdNo>
        ensures { result ≡ first_begun_of (state self.now) };

    /// The first command.
    fn first(&self) -> Option<CmdNo>
        ensures { result ≡ first_of (state self.now).commands };

    /// The command right behind one that is held.
    fn after(&self, no: CmdNo) -> Option<CmdNo>
        requires { IsSome (command_of no (state self.now).commands) }
        ensures { result ≡ after_of no (state self.now).commands };

    /// How many commands are held.
    fn len(&self) -> u32
        ensures count { result ≡ length (state self.now).commands }
        ensures within { length (state self.now).commands ≤ (state self.now).depth };

    /// No more commands can enter.
    fn is_full(&self) -> bool
        ensures full { result ≡ (length (state self.now).commands == (state self.now).depth) }
        ensures within { length (state self.now).commands ≤ (state self.now).depth };

    /// A command is held.
    fn holds(&self, no: CmdNo) -> bool
        ensures { result ≡ is_some (command_of no (state self.now).commands) };

    /// A command is held, and has not begun.
    fn waits(&self, no: CmdNo) -> bool
        ensures { result ≡ is_waiting no (state self.now) };

    /// Takes a command out. A step is one call of `demand_counted`.
    fn leave<L: Ledger>(&mut self, no: CmdNo, steps: &mut Steps<L>)
        requires { IsSome (command_of no (state self.old).commands) }
        ensures left { state self.new ≡ record (state self.old) { commands = without no (state self.old).commands } }
        ensures counted { steps.old ≤ steps.new };
}

fn leave_from<W: Waits, L: Ledger>(waits: &mut W, no: CmdNo, blank: Blank)
    requires name { blank.name ≡ L.name }
    requires parts { blank.parts ≡ L.parts }
    requires one { L.parts ≡ 1 }
    requires held { IsSome (command_of no (W.state waits.old).commands) }
    ensures { W.state waits.new ≡ record (W.state waits.old) { commands = without no (W.state waits.old).commands } }
{
    let mut steps = Steps::<L>::new(blank);
    waits.leave(no, &mut steps);
}

/// Takes a command out, with no count of the steps.
pub fn leave_uncounted<W: Waits>(waits: &mut W, no: CmdNo)
    requires { IsSome (command_of no (W.state waits.old).commands) }
    ensures { W.state waits.new ≡ record (W.state waits.old) { commands = without no (W.state waits.old).commands } }
{
    leave_from::<W, Brand>(waits, no, Blank::new(1));
}
