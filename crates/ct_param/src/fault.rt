ghost use Rattle.std.specs.Prelude.{◌≡◌};
ghost use Rattle.ct_param.specs.Faults.{sense_code_of};

use ct_sense::{SenseCode, code};

/// Why a parameter list is refused.
#[derive(Clone, Copy, Debug, PartialEq, Eq)]
pub enum ListFault {
    /// It ends too early: 1Ah/00h.
    BadLength,
    /// A field has a value that isn't accepted: 26h/00h.
    BadField,
    /// It names a block that isn't on the disk: 21h/00h.
    OutOfRange,
}

impl ListFault {
    /// The sense key and the additional sense code (SPC-4, 4.5).
    pub fn sense_code(self) -> SenseCode
        ensures { result ≡ sense_code_of self }
    {
        match self {
            ListFault::BadLength => code::PARAMETER_LIST_LENGTH_ERROR,
            ListFault::BadField => code::INVALID_FIELD_IN_PARAMETER_LIST,
            ListFault::OutOfRange => code::LBA_OUT_OF_RANGE,
        }
    }
}
