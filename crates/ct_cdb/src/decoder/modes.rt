//! Rows of the commands about how a logical unit works (SPC-4, mode pages; SBC-3, START STOP UNIT).

ghost use Rattle.std.specs.Prelude.{◌≡◌};
ghost use Rattle.ct_cdb.specs.Rows.Modes.{mode_select, mode_select_6, mode_select_10, mode_sense, mode_sense_6};
ghost use Rattle.ct_cdb.specs.Rows.Modes.{mode_sense_10, start_stop_unit};

use crate::choices::{ModePage, PageControl};
use crate::few::Few;
use crate::op::{Form, Op};
use crate::row::{Row, bit_at, byte_at, field_at, two_at};

// A form with SP in byte 1.
fn mode_select(size: u8, bytes: &[u8], op: Op) -> Row
    ensures { result ≡ mode_select size bytes.now op }
{
    Row {
        size,
        refusable: Few::one(field_at(1, byte_at(bytes, 1) % 2 == 0)),
        op,
    }
}

/// MODE SELECT (6)
pub(crate) fn mode_select_6(bytes: &[u8]) -> Row
    ensures { result ≡ mode_select_6 bytes.now }
{
    let op = Op::ModeSelect {
        form: Form::Six,
        list: u16::from(byte_at(bytes, 4)),
    };
    mode_select(6, bytes, op)
}

/// MODE SELECT (10)
pub(crate) fn mode_select_10(bytes: &[u8]) -> Row
    ensures { result ≡ mode_select_10 bytes.now }
{
    let op = Op::ModeSelect {
        form: Form::Ten,
        list: two_at(bytes, 7),
    };
    mode_select(10, bytes, op)
}

// A form with this allocation length.
fn mode_sense(size: u8, form: Form, allocation: u16, bytes: &[u8]) -> Row
    ensures { result ≡ mode_sense size form allocation bytes.now }
{
    let (code, subcode) = (byte_at(bytes, 2) % 64, byte_at(bytes, 3));
    let takes_subcode = subcode == 0 || ModePage::asks_subpages(code, subcode);
    Row {
        size,
        refusable: Few::two(
            field_at(2, ModePage::whole(code).is_some()),
            field_at(3, takes_subcode),
        ),
        op: Op::ModeSense {
            form,
            no_descriptor: bit_at(1, 8, bytes),
            control: PageControl::by(byte_at(bytes, 2) / 64),
            page: ModePage::by(code, subcode).unwrap_or(ModePage::All),
            allocation,
        },
    }
}

/// MODE SENSE (6)
pub(crate) fn mode_sense_6(bytes: &[u8]) -> Row
    ensures { result ≡ mode_sense_6 bytes.now }
{
    mode_sense(6, Form::Six, u16::from(byte_at(bytes, 4)), bytes)
}

/// MODE SENSE (10)
pub(crate) fn mode_sense_10(bytes: &[u8]) -> Row
    ensures { result ≡ mode_sense_10 bytes.now }
{
    mode_sense(10, Form::Ten, two_at(bytes, 7), bytes)
}

/// START STOP UNIT
pub(crate) fn start_stop_unit(bytes: &[u8]) -> Row
    ensures { result ≡ start_stop_unit bytes.now }
{
    let flags = byte_at(bytes, 4);
    Row {
        size: 6,
        refusable: Few::one(field_at(4, flags / 16 == 0 && flags / 2 % 2 == 0)),
        op: Op::StartStopUnit {
            start: bit_at(4, 1, bytes),
        },
    }
}
