//! From bytes to a CDB. The code byte names a row of the table, which is one function; rows stand by family.

mod blocks;
mod inquiries;
mod modes;
mod reservations;

ghost use Rattle.std.specs.Prelude.{◌≡◌, ◌<◌, ◌++◌, List, true, false, IfSome, IfErr, OnOk};
ghost use Rattle.ct_cdb.specs.declared.op.Cdb.{Cdb as AnyCdb};
ghost use Rattle.ct_cdb.specs.declared.row.Field.{Field as AnyField};
ghost use Rattle.ct_cdb.specs.Forms.{cdb_of, row_of, read_by, tried};

use crate::few::Few;
use crate::op::{Cdb, CdbFault};
use crate::row::{Field, Row, byte_at, control_field};

/// Reads a CDB. Of several fields at fault the lowest is told.
pub fn decode(bytes: &[u8]) -> Result<Cdb, CdbFault>
    ensures { result ≡ cdb_of bytes.now }
{
    if bytes.is_empty() {
        return Err(CdbFault::Empty);
    }
    match row(bytes) {
        Some(row) => read_by(&row, bytes),
        None => Err(CdbFault::BadOperation),
    }
}

/// The row that the first byte names, if it names one.
#[tactic(auto, unfolding(crate::specs::Forms::row_of))]
fn row(bytes: &[u8]) -> Option<Row>
    ensures row { result ≡ row_of bytes.now }
    ensures some { IfSome result (λ row. 0 < row.size) }
{
    match byte_at(bytes, 0) {
        0x00 => Some(inquiries::test_unit_ready()),
        0x03 => Some(inquiries::request_sense(bytes)),
        0x08 => Some(blocks::read_6(bytes)),
        0x0a => Some(blocks::write_6(bytes)),
        0x12 => Some(inquiries::inquiry(bytes)),
        0x15 => Some(modes::mode_select_6(bytes)),
        0x1a => Some(modes::mode_sense_6(bytes)),
        0x1b => Some(modes::start_stop_unit(bytes)),
        0x25 => Some(inquiries::read_capacity_10()),
        0x28 => Some(blocks::read_10(bytes)),
        0x2a => Some(blocks::write_10(bytes)),
        0x2e => Some(blocks::write_and_verify_10(bytes)),
        0x2f => Some(blocks::verify_10(bytes)),
        0x35 => Some(blocks::synchronize_cache_10(bytes)),
        0x41 => Some(blocks::write_same_10(bytes)),
        0x42 => Some(blocks::unmap(bytes)),
        0x55 => Some(modes::mode_select_10(bytes)),
        0x5a => Some(modes::mode_sense_10(bytes)),
        0x5e => Some(reservations::persistent_reserve_in(bytes)),
        0x5f => Some(reservations::persistent_reserve_out(bytes)),
        0x88 => Some(blocks::read_16(bytes)),
        0x89 => Some(blocks::compare_and_write(bytes)),
        0x8a => Some(blocks::write_16(bytes)),
        0x8e => Some(blocks::write_and_verify_16(bytes)),
        0x8f => Some(blocks::verify_16(bytes)),
        0x91 => Some(blocks::synchronize_cache_16(bytes)),
        0x93 => Some(blocks::write_same_16(bytes)),
        0x9e => Some(inquiries::read_capacity_16(bytes)),
        0xa0 => Some(inquiries::report_luns(bytes)),
        0xa8 => Some(blocks::read_12(bytes)),
        0xaa => Some(blocks::write_12(bytes)),
        0xaf => Some(blocks::verify_12(bytes)),
        _ => None,
    }
}

/// What the bytes are by a row.
fn read_by(row: &Row, bytes: &[u8]) -> Result<Cdb, CdbFault>
    requires { 0 < row.now.size }
    ensures { result ≡ read_by row.now bytes.now }
{
    let (want, got) = (row.size, bytes.len() as u64);
    if got != u64::from(want) {
        return Err(CdbFault::BadLength { want, got });
    }
    let control = control_field(want, bytes);
    let cdb = Cdb {
        op: row.op,
        control: byte_at(bytes, usize::from(want - 1)),
    };
    accept_all(&row.refusable)?;
    accept(&control)?;
    Ok(cdb)
}

fn accept(field: &Field) -> Result<(), CdbFault>
    ensures good { OnOk result (field.now.accepted ≡ true) }
    ensures bad { IfErr result (λ fault. (field.now.accepted ≡ false) × (fault ≡ CdbFault.BadField field.now.byte)) }
{
    if field.accepted {
        Ok(())
    } else {
        Err(CdbFault::BadField { byte: field.byte })
    }
}

/// None of these fields is refused.
fn accept_all(fields: &Few<Field>) -> Result<(), CdbFault>
    ensures good { OnOk result ((more : List AnyField) (cdb : AnyCdb) →
        tried (fields.now ++ more) cdb ≡ tried more cdb) }
    ensures bad { IfErr result (λ fault. (more : List AnyField) (cdb : AnyCdb) →
        tried (fields.now ++ more) cdb ≡ Err fault) }
{
    match fields.items() {
        (None, _) => Ok(()),
        (Some(first), None) => accept(first),
        (Some(first), Some(second)) => {
            accept(first)?;
            accept(second)
        }
    }
}

#[cfg(test)]
mod tests {
    use super::*;
    use crate::op::{Form, Op};

    fn read(lba: u64, count: u32, control: u8) -> Result<Cdb, CdbFault> {
        let op = Op::Read {
            form: Form::Ten,
            lba,
            count,
        };
        Ok(Cdb { op, control })
    }

    fn write(lba: u64, count: u32, control: u8) -> Result<Cdb, CdbFault> {
        let op = Op::Write {
            form: Form::Ten,
            lba,
            count,
        };
        Ok(Cdb { op, control })
    }

    fn bad_length(want: u8, got: u64) -> Result<Cdb, CdbFault> {
        Err(CdbFault::BadLength { want, got })
    }

    fn bad_field(byte: u8) -> Result<Cdb, CdbFault> {
        Err(CdbFault::BadField { byte })
    }

    #[test]
    fn reads_the_table(rt: HostRuntime) {
        let cases: [(&[u8], Result<Cdb, CdbFault>); 16] = [
            (b"\x28\0\0\0\x01\xff\0\0\x01\0", read(511, 1, 0)),
            (b"\x2a\0\0\0\0\0\0\0\x01\0", write(0, 1, 0)),
            (
                b"\x2a\0\x12\x34\x56\x78\0\x01\0\0",
                write(0x1234_5678, 256, 0),
            ),
            // bits that are ignored
            (b"\x28\x1f\0\0\0\x02\xff\0\x03\xfb", read(2, 3, 0xfb)),
            (b"", Err(CdbFault::Empty)),
            (b"\xff", Err(CdbFault::BadOperation)),
            (b"\x29\0\0\0\0\0\0\0\0\0", Err(CdbFault::BadOperation)),
            (b"\x28\0\0\0\0\0\0\0\x01", bad_length(10, 9)),
            (b"\x2a\0\0\0\0\0\0\0\x01\0\0", bad_length(10, 11)),
            (b"\x28\x20\0\0\0\0\0\0\x01\0", bad_field(1)),
            (b"\x2a\0\0\0\0\0\0\x01\x01\0", bad_field(7)),
            (b"\x28\0\0\0\0\0\0\0\x01\x04", bad_field(9)),
            // several faults at once
            (b"\x28\xe0\0\0\0\0\0\xff\xff\xff", bad_field(1)),
            (b"\x2a\0\0\0\0\0\0\xff\xff\xff", bad_field(7)),
            (b"\x2a\xe0\0\0\0\0\0\xff\xff\xff\xff", bad_length(10, 11)),
            (b"\xff\xff", Err(CdbFault::BadOperation)),
        ];
        for (bytes, want) in cases {
            assert_eq!(rt; decode(bytes), want, "at {bytes:?}");
        }
    }
}
