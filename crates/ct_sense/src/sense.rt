ghost use Rattle.std.specs.Prelude.{◌≡◌};
ghost use Rattle.ct_sense.specs.Codes.{sense_of};

/// Sense data (SPC-4, 4.5). Contracts say by `IsSense` that the key is below 16.
#[derive(Clone, Copy, Debug, PartialEq, Eq)]
pub struct Sense {
    /// SENSE KEY
    pub key: u8,
    /// ADDITIONAL SENSE CODE
    pub asc: u8,
    /// ADDITIONAL SENSE CODE QUALIFIER
    pub ascq: u8,
    /// INFORMATION, where it is given
    pub info: Option<u32>,
}

impl Sense {
    /// Sense data that give no INFORMATION.
    pub fn new(key: u8, asc: u8, ascq: u8) -> Sense
        ensures { result ≡ record { key = key; asc = asc; ascq = ascq; info = None } }
    {
        Sense {
            key,
            asc,
            ascq,
            info: None,
        }
    }
}

/// An additional sense code with the sense key that it comes with (SPC-4, 4.5).
#[derive(Clone, Copy, Debug, PartialEq, Eq)]
pub struct SenseCode {
    /// SENSE KEY
    pub key: u8,
    /// ADDITIONAL SENSE CODE
    pub asc: u8,
    /// ADDITIONAL SENSE CODE QUALIFIER
    pub ascq: u8,
}

impl SenseCode {
    /// Sense data of this code.
    pub fn sense(self, info: Option<u32>) -> Sense
        ensures { result ≡ sense_of self info }
    {
        Sense {
            key: self.key,
            asc: self.asc,
            ascq: self.ascq,
            info,
        }
    }
}
