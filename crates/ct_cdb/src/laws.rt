//! Laws of the definitions of this crate, each the contract of a function with an empty body.

ghost use Rattle.std.specs.Prelude.{◌≡◌, ◌≢◌, ◌↔◌, ℕ, List, [], length, Result};
ghost use Rattle.ct_cdb.specs.declared.op.Cdb.{Cdb};
ghost use Rattle.ct_cdb.specs.declared.op.CdbFault.{CdbFault as AnyFault};
ghost use Rattle.ct_cdb.specs.Forms.{cdb_of, row_of, accepted_cdb};
ghost use Rattle.ct_cdb.specs.Table.{HasRow, IsAccepted, IsLowest, is_refused};
ghost use Rattle.ct_cdb.specs.Encoding.{IsEncodable, bytes_of_cdb};
ghost use Rattle.ct_cdb.specs.declared.op.Op.{Op};
ghost use Rattle.ct_cdb.specs.Profiles.{profile_of, profile_by, room_of, reports, Fits};

use crate::op::CdbFault;

/// When bytes are a CDB, and when each fault is told.
pub fn table()
    ensures empty { (bytes : List ℕ) → (cdb_of bytes ≡ Err CdbFault.Empty) ↔ (bytes ≡ []) }
    ensures bad_operation { (bytes : List ℕ) →
        (cdb_of bytes ≡ Err CdbFault.BadOperation) ↔ ((bytes ≢ []) × (row_of bytes ≡ None)) }
    ensures bad_length { (bytes : List ℕ) (want got : ℕ) →
        (cdb_of bytes ≡ Err (CdbFault.BadLength want got)) ↔
        HasRow bytes (λ row. (want ≡ row.size) × (got ≡ length bytes) × (got ≢ want)) }
    ensures bad_field { (bytes : List ℕ) (byte : ℕ) →
        (cdb_of bytes ≡ Err (CdbFault.BadField byte)) ↔
        HasRow bytes (λ row. (length bytes ≡ row.size) × IsLowest (is_refused row bytes) byte) }
    ensures accepted { (bytes : List ℕ) (cdb : Cdb) →
        (cdb_of bytes ≡ Ok cdb) ↔
        HasRow bytes (λ row. IsAccepted row bytes × (cdb ≡ accepted_cdb row bytes)) }
{}

/// What is encoded is read as it was.
pub fn encoded_reads_back()
    ensures { (cdb : Cdb) → IsEncodable cdb → cdb_of (bytes_of_cdb cdb) ≡ Ok cdb }
{}

/// The columns of each command's row fit one another. Its room for data-in, and whether it reports an attention, depend on
/// the CDB alone.
pub fn rows_fit()
    ensures fits { (op : Op) (out : List ℕ) (blocks : ℕ) → Fits (profile_of op out blocks) }
    ensures undecoded { (decoded : Result Cdb AnyFault) (out : List ℕ) (blocks : ℕ) →
        Fits (profile_by decoded out blocks) }
    ensures room { (decoded : Result Cdb AnyFault) (out : List ℕ) (blocks : ℕ) →
        (profile_by decoded out blocks).data_in ≡ room_of decoded }
    ensures reports { (decoded : Result Cdb AnyFault) (out : List ℕ) (blocks : ℕ) →
        (profile_by decoded out blocks).reports_attention ≡ reports decoded }
{}

#[cfg(test)]
mod tests {
    use super::*;

    #[test]
    fn are_called() {
        table();
        encoded_reads_back();
        rows_fit();
    }
}
