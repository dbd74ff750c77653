//! What a queue knows of each command, kept beside it until a change may tell another blocker.

ghost use Rattle.std.specs.Prelude.{◌≡◌, map, false};
ghost use Rattle.std.specs.List.{list_any};
ghost use Rattle.ct_matrix.specs.Queues.{first_to_wait_for};
ghost use Rattle.ct_queue.specs.KnownCommands.{known_in, is_blocked_by, may_touch, is_touched, IsRight};

use crate::search::{blocker, some_begun, waits_for};
use ct_matrix::HeldCommand;
use ct_shelf::Shelf;
use ct_word::{CmdNo, Reserve};

/// What a walk over the queue reads of a command.
#[derive(Clone, Copy, Debug, PartialEq, Eq)]
pub(crate) struct KnownCommand {
    pub no: CmdNo,
    pub begun: bool,
    /// The first command for which it has to wait; none where it has begun.
    pub blocker: Option<CmdNo>,
}

/// What changed a queue.
#[derive(Drop)]
pub(crate) enum Change<'a> {
    /// The order of reordering.
    Order,
    /// A HEAD OF QUEUE command entered.
    Entered(&'a HeldCommand),
    /// A command began.
    Begun(&'a HeldCommand),
    /// A command left.
    Left(CmdNo),
}

/// What is known of a command among all, of which some may have begun.
pub(crate) fn known_of(
    commands: &Shelf<HeldCommand>,
    command: &HeldCommand,
    some_begun: bool,
    free_order: bool,
) -> KnownCommand
    requires { some_begun ≡ false → list_any (λ c. c.held.begun) commands.now.items ≡ false }
    ensures { result ≡ known_in free_order commands.now.items command.now }
{
    let blocker = if command.held.begun {
        None
    } else {
        blocker(commands, command, some_begun, free_order)
    };
    KnownCommand {
        no: command.no,
        begun: command.held.begun,
        blocker,
    }
}

// What is known of a command names this one as its blocker.
fn is_blocked_by(known: &KnownCommand, no: CmdNo) -> bool
    ensures { result ≡ is_blocked_by no known.now }
{
    match known.blocker {
        Some(blocker) => blocker == no,
        None => false,
    }
}

// A change may tell another blocker of a command of which this is known, whatever the command is.
fn may_touch(change: &Change<'_>, known: &KnownCommand) -> bool
    ensures { result ≡ may_touch change.now known.now }
{
    match change {
        Change::Order | Change::Entered(_) => true,
        Change::Begun(begun) => !is_blocked_by(known, begun.no),
        Change::Left(no) => is_blocked_by(known, *no),
    }
}

// A change may tell another blocker of a command.
fn is_touched(
    change: &Change<'_>,
    command: &HeldCommand,
    known: &KnownCommand,
    free_order: bool,
) -> bool
    ensures { result ≡ is_touched change.now free_order command.now known.now }
{
    if command.held.begun {
        return false;
    }
    match change {
        Change::Order => true,
        Change::Entered(entered) => waits_for(&entered.held, &command.held, true, free_order),
        Change::Begun(begun) => {
            !is_blocked_by(known, begun.no)
                && waits_for(&begun.held, &command.held, false, free_order)
        }
        Change::Left(no) => is_blocked_by(known, *no),
    }
}

/// Finds anew the blockers that a change may have touched.
pub(crate) fn refresh(
    known: &mut Reserve<KnownCommand>,
    commands: &Shelf<HeldCommand>,
    change: &Change<'_>,
    free_order: bool,
)
    requires { IsRight change.now free_order commands.now.items commands.now.items known.old.items }
    ensures { known.new ≡ record known.old { items = map (known_in free_order commands.now.items) commands.now.items } }
{
    let some_begun = some_begun(commands);
    for at in 0..commands.len() {
        let kept = known.as_slice()[at];
        if may_touch(change, &kept) {
            let command = commands.item(at);
            if is_touched(change, command, &kept, free_order) {
                known.set(at, known_of(commands, command, some_begun, free_order));
            }
        }
    }
}
