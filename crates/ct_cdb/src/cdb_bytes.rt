ghost use Rattle.std.specs.Prelude.{◌≡◌};
ghost use Rattle.ct_cdb.specs.Forms.{cdb_of};

use crate::decoder::decode;
use crate::op::{Cdb, CdbFault};
use ct_word::Bytes;
use std::marker::Model;

/// The bytes of a CDB, with what they decode to. Contracts see the bytes.
#[derive(Debug, Drop)]
pub struct CdbBytes {
    bytes: Bytes,
    decoded: Result<Cdb, CdbFault>,
}

impl Model for CdbBytes {
    ghost use Rattle.std.specs.Prelude.{◌≡◌, ℕ, List};
    ghost use Rattle.ct_cdb.specs.Forms.{cdb_of};

    ghost Value = { List ℕ };

    ghost view = { λ c. c.bytes };

    ghost invariant = { λ c. c.decoded ≡ cdb_of c.bytes };
}

impl CdbBytes {
    /// Decodes the bytes.
    pub fn new(bytes: Bytes) -> CdbBytes
        ensures { result ≡ bytes }
    {
        let decoded = decode(bytes.as_slice());
        CdbBytes { bytes, decoded }
    }

    pub fn as_slice(&self) -> &[u8]
        ensures { result.now ≡ self.now }
    {
        self.bytes.as_slice()
    }

    /// What the bytes decode to.
    pub fn decoded(&self) -> &Result<Cdb, CdbFault>
        ensures { result.now ≡ cdb_of self.now }
    {
        &self.decoded
    }
}

#[cfg(test)]
mod tests {
    use super::*;
    use crate::op::{Form, Op};
    use std::test::Fail;

    #[test]
    fn keeps_bytes_and_what_they_decode_to(rt: HostRuntime) -> Result<(), Fail> {
        let op = Op::Read {
            form: Form::Ten,
            lba: 3,
            count: 2,
        };
        let short = CdbFault::BadLength { want: 10, got: 2 };
        let cases: [(&[u8], Result<Cdb, CdbFault>); 2] = [
            (
                b"\x28\0\0\0\0\x03\0\0\x02\x80",
                Ok(Cdb { op, control: 0x80 }),
            ),
            (b"\x28\0", Err(short)),
        ];
        for (bytes, decoded) in cases {
            let cdb = CdbBytes::new(Bytes::from_vec(bytes.to_vec(rt.alloc())?));
            assert_eq!(rt; cdb.as_slice(), bytes);
            assert_eq!(rt; *cdb.decoded(), decoded, "at {bytes:?}");
        }
        Ok(())
    }
}
