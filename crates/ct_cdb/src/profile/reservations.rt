//! Rows of persistent reservations (SPC-4, PERSISTENT RESERVE IN and PERSISTENT RESERVE OUT).

ghost use Rattle.std.specs.Prelude.{◌≡◌};
ghost use Rattle.ct_cdb.specs.Commands.Reservations.{reserve_in_length, persistent_reserve_in};
ghost use Rattle.ct_cdb.specs.Commands.Reservations.{persistent_reserve_out};

use super::{Class, Profile, still};
use crate::choices::ReserveIn;
use crate::op::SerIdx;
use ct_word::limit::MOST_REGISTRANTS;

/// PERSISTENT RESERVE IN
pub(super) fn persistent_reserve_in(action: ReserveIn, allocation: u16) -> Profile
    ensures { result ≡ persistent_reserve_in action allocation }
{
    Profile {
        data_in: u64::from(allocation).min(reserve_in_length(action)),
        ..still(SerIdx::Res, Class::Always)
    }
}

fn reserve_in_length(action: ReserveIn) -> u64
    ensures { result ≡ reserve_in_length action }
{
    match action {
        ReserveIn::ReadKeys => 8 + 8 * MOST_REGISTRANTS,
        ReserveIn::ReadReservation => 24,
        ReserveIn::ReportCapabilities => 8,
        ReserveIn::ReadFullStatus => 8 + 48 * MOST_REGISTRANTS,
    }
}

/// PERSISTENT RESERVE OUT
pub(super) fn persistent_reserve_out(list: u32) -> Profile
    ensures { result ≡ persistent_reserve_out list }
{
    Profile {
        data_out: u64::from(list),
        ..still(SerIdx::Res, Class::Always)
    }
}
