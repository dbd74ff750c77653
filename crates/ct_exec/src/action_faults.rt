//! Why an action of PERSISTENT RESERVE OUT is refused (SPC-4, 5.12 and 6.16), before it is done.

ghost use Rattle.std.specs.Prelude.{◌≡◌};
ghost use Rattle.ct_resv.specs.Actions.{after_out};
ghost use Rattle.ct_exec.specs.Reserving.{reserve_list, fault_of_answer, action_fault};

use ct_cdb::{Op, ReserveOut};
use ct_param::{ListFault, ResvList, read_resv};
use ct_resv::{Reservations, ResvFault};
use ct_word::Nexus;

/// The keys of the list in so many bytes of the data-out, or its fault.
pub(crate) fn reserve_list(size: u32, out: &[u8]) -> Result<ResvList, ListFault>
    ensures { result ≡ reserve_list size out.now }
{
    read_resv(&out[..out.len().min(size as usize)])
}

/// Why the action of a command of a nexus is refused, if it is a PERSISTENT RESERVE OUT whose list has no fault.
pub(crate) fn action_fault(
    reservations: &Reservations,
    nexus: Nexus,
    out: &[u8],
    op: &Op,
) -> Option<ResvFault>
    ensures { result ≡ action_fault reservations.now nexus out.now op.now }
{
    match *op {
        Op::PersistentReserveOut { action, list } => match reserve_list(list, out) {
            Ok(list) => fault_of_trial(reservations, nexus, action, &list),
            Err(_) => None,
        },
        _ => None,
    }
}

// Why the action is refused on a copy of the reservations.
fn fault_of_trial(
    reservations: &Reservations,
    nexus: Nexus,
    action: ReserveOut,
    list: &ResvList,
) -> Option<ResvFault>
    ensures { result ≡ fault_of_answer (after_out reservations.now nexus action list.now).answer }
{
    reservations.copied().out(nexus, action, list).err()
}
