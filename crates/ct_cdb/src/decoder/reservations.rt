//! Rows of persistent reservations (SPC-4, PERSISTENT RESERVE IN and PERSISTENT RESERVE OUT).

ghost use Rattle.std.specs.Prelude.{◌≡◌};
ghost use Rattle.ct_cdb.specs.Rows.Reservations.{persistent_reserve_in, persistent_reserve_out};

use crate::choices::{ReservationType, ReserveIn, ReserveOut};
use crate::few::Few;
use crate::op::Op;
use crate::row::{Row, byte_at, field_at, four_at, two_at};

/// PERSISTENT RESERVE IN
pub(crate) fn persistent_reserve_in(bytes: &[u8]) -> Row
    ensures { result ≡ persistent_reserve_in bytes.now }
{
    let asked = ReserveIn::by(byte_at(bytes, 1) % 32);
    Row {
        size: 10,
        refusable: Few::one(field_at(1, asked.is_some())),
        op: Op::PersistentReserveIn {
            action: asked.unwrap_or(ReserveIn::ReadKeys),
            allocation: two_at(bytes, 7),
        },
    }
}

/// PERSISTENT RESERVE OUT
pub(crate) fn persistent_reserve_out(bytes: &[u8]) -> Row
    ensures { result ≡ persistent_reserve_out bytes.now }
{
    let code = byte_at(bytes, 1) % 32;
    let kind = ReservationType::by(byte_at(bytes, 2));
    let takes_type = !ReserveOut::has_type(code) || kind.is_some();
    let asked = ReserveOut::by(kind.unwrap_or(ReservationType::WriteExclusive), code);
    Row {
        size: 10,
        refusable: Few::two(field_at(1, asked.is_some()), field_at(2, takes_type)),
        op: Op::PersistentReserveOut {
            action: asked.unwrap_or(ReserveOut::Register),
            list: four_at(bytes, 5),
        },
    }
}
