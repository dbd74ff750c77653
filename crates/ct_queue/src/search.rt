//! Searches in a queue.

ghost use Rattle.std.specs.Prelude.{◌≡◌, true, false, slice_get};
ghost use Rattle.std.specs.List.{find, list_any, position_or_len};
ghost use Rattle.ct_matrix.specs.Conflicts.{has_to_wait};
ghost use Rattle.ct_matrix.specs.Queues.{first_to_wait_for};
ghost use Rattle.ct_queue.specs.KnownCommands.{has_number, waits_in, is_ready_in, has_begun_in, number_in};

use crate::known_command::KnownCommand;
use ct_matrix::{Attr, Demand, Held, HeldCommand, demand};
use ct_shelf::Shelf;
use ct_word::CmdNo;

/// Where the command with a number stands, or the length.
pub(crate) fn place(known: &[KnownCommand], no: CmdNo) -> usize
    ensures { result ≡ position_or_len (has_number no) known.now }
{
    for (at, command) in known.iter().enumerate() {
        if command.no == no {
            return at;
        }
    }
    known.len()
}

/// What is kept of the command with a number.
pub(crate) fn find(known: &[KnownCommand], no: CmdNo) -> Option<KnownCommand>
    ensures { result ≡ find (has_number no) known.now }
{
    for command in known {
        if command.no == no {
            return Some(*command);
        }
    }
    None
}

/// Where the first command that waits stands, or the length.
pub(crate) fn first_waiting(known: &[KnownCommand]) -> usize
    ensures { result ≡ position_or_len waits_in known.now }
{
    for (at, command) in known.iter().enumerate() {
        if !command.begun {
            return at;
        }
    }
    known.len()
}

/// A waiting command has to wait for a live one, which stands ahead of it or behind it.
pub(crate) fn waits_for(live: &Held, waiting: &Held, ahead: bool, free_order: bool) -> bool
    ensures { result ≡ has_to_wait free_order ahead live.now waiting.now }
{
    match demand(live, waiting, ahead, free_order) {
        Demand::Wait => true,
        Demand::Free => false,
    }
}

/// Some command has begun.
pub(crate) fn some_begun(commands: &Shelf<HeldCommand>) -> bool
    ensures { result ≡ list_any (λ c. c.held.begun) commands.now.items }
{
    for at in 0..commands.len() {
        if commands.item(at).held.begun {
            return true;
        }
    }
    false
}

/// The first command for which a waiting one has to wait. A HEAD OF QUEUE command waits for none where none has begun.
pub(crate) fn blocker(
    commands: &Shelf<HeldCommand>,
    waiting: &HeldCommand,
    some_begun: bool,
    free_order: bool,
) -> Option<CmdNo>
    requires { some_begun ≡ false → list_any (λ c. c.held.begun) commands.now.items ≡ false }
    ensures { result ≡ first_to_wait_for free_order true waiting.now commands.now.items }
{
    if let Attr::Head = waiting.held.attr {
        if !some_begun {
            return None;
        }
    }
    let mut ahead = true;
    for at in 0..commands.len() {
        let live = commands.item(at);
        if live.no == waiting.no {
            ahead = false;
        } else if waits_for(&live.held, &waiting.held, ahead, free_order) {
            return Some(live.no);
        }
    }
    None
}

/// The first waiting command that has to wait for none.
pub(crate) fn ready(known: &[KnownCommand]) -> Option<CmdNo>
    ensures { result ≡ number_in (find is_ready_in known.now) }
{
    for command in known {
        if !command.begun && command.blocker.is_none() {
            return Some(command.no);
        }
    }
    None
}

/// The first command that has begun.
pub(crate) fn begun(known: &[KnownCommand]) -> Option<CmdNo>
    ensures { result ≡ number_in (find has_begun_in known.now) }
{
    for command in known {
        if command.begun {
            return Some(command.no);
        }
    }
    None
}

/// The number of the command at a place.
pub(crate) fn number_at(known: &[KnownCommand], at: usize) -> Option<CmdNo>
    ensures { result ≡ number_in (slice_get known.now at) }
{
    known.get(at).map(|command| command.no)
}
