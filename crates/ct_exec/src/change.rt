//! What a command changes of the logical unit, but its blocks.

ghost use Rattle.std.specs.Prelude.{◌≡◌};
ghost use Rattle.ct_exec.specs.Changes.{changed_by, changed_control, cleared_by_op, cleared_by};

use crate::action_faults::reserve_list;
use crate::control::Control;
use crate::modes::mode_list;
use ct_book::Command;
use ct_cdb::Op;
use ct_word::{Nexus, NexusSet};

/// Makes the change of a command that nothing refuses, and returns the nexuses whose commands it clears.
#[tactic(auto, unfolding(crate::specs::Changes::changed_control, crate::specs::Changes::cleared_by))]
pub(crate) fn change(c: &mut Control, command: &Command) -> NexusSet
    ensures changed { c.new ≡ changed_control c.old command.now }
    ensures cleared { result ≡ cleared_by c.old command.now }
{
    match command.cdb.decoded() {
        Ok(cdb) => change_by(c, command.nexus, command.out.as_slice(), &cdb.op),
        Err(_) => NexusSet::open(),
    }
}

fn change_by(c: &mut Control, nexus: Nexus, out: &[u8], op: &Op) -> NexusSet
    ensures changed { c.new ≡ changed_by c.old nexus out.now op.now }
    ensures cleared { result ≡ cleared_by_op c.old nexus out.now op.now }
{
    match *op {
        Op::PersistentReserveOut { action, list } => {
            if let Ok(list) = reserve_list(list, out) {
                return c.reserve(nexus, action, &list);
            }
        }
        Op::RequestSense { .. } => {
            c.take_attention(nexus);
        }
        Op::StartStopUnit { start } => c.start(start),
        Op::ModeSelect { form, list } => {
            if let Ok(list) = mode_list(form, list, out) {
                c.select(nexus, &list);
            }
        }
        _ => {}
    }
    NexusSet::open()
}
