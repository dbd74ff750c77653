//! The parameter list of PERSISTENT RESERVE OUT (SPC-4, 6.16).

ghost use Rattle.std.specs.Prelude.{◌≡◌};
ghost use Rattle.ct_param.specs.ResvLists.{resv_list_of};

use crate::fault::ListFault;
use ct_word::u64_at;

/// Bytes of the list.
const LENGTH: usize = 24;

/// The byte of SPEC_I_PT, ALL_TG_PT and APTPL.
const OPTIONS: usize = 20;

/// The keys of a parameter list.
#[derive(Clone, Copy, Debug, PartialEq, Eq)]
pub struct ResvList {
    /// RESERVATION KEY
    pub key: u64,
    /// SERVICE ACTION RESERVATION KEY
    pub service_key: u64,
}

/// Reads the parameter list of a PERSISTENT RESERVE OUT. BadLength where it hasn't 24 bytes; then BadField where
/// SPEC_I_PT, ALL_TG_PT, APTPL or another bit of their byte is set.
#[tactic(auto, unfolding(crate::specs::ResvLists::resv_list_of))]
pub fn read_resv(bytes: &[u8]) -> Result<ResvList, ListFault>
    ensures { result ≡ resv_list_of bytes.now }
{
    if bytes.len() != LENGTH {
        return Err(ListFault::BadLength);
    }
    if bytes[OPTIONS] != 0 {
        return Err(ListFault::BadField);
    }
    Ok(ResvList {
        key: u64_at(bytes, 0),
        service_key: u64_at(bytes, 8),
    })
}
