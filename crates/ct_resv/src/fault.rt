ghost use Rattle.std.specs.Prelude.{◌≡◌};
ghost use Rattle.ct_resv.specs.Faults.{sense_code_of};

use ct_sense::{SenseCode, code};

/// Why a PERSISTENT RESERVE OUT is refused.
#[derive(Clone, Copy, Debug, PartialEq, Eq)]
pub enum ResvFault {
    /// The status RESERVATION CONFLICT.
    Conflict,
    /// As many nexuses are registered as there is room for: 55h/04h.
    Full,
    /// A holder releases another type than that of its reservation: 26h/04h.
    BadRelease,
    /// The key 0 names no registrant: 26h/00h.
    BadKey,
}

impl ResvFault {
    /// The sense key and the additional sense code (SPC-4, 4.5); None for Conflict, which is a status.
    pub fn sense_code(self) -> Option<SenseCode>
        ensures { result ≡ sense_code_of self }
    {
        match self {
            ResvFault::Conflict => None,
            ResvFault::Full => Some(code::INSUFFICIENT_REGISTRATION_RESOURCES),
            ResvFault::BadRelease => Some(code::INVALID_RELEASE_OF_PERSISTENT_RESERVATION),
            ResvFault::BadKey => Some(code::INVALID_FIELD_IN_PARAMETER_LIST),
        }
    }
}
