//! Parameter lists: what a host sends with a command, beside blocks. Each list is read whole, and has a fixed size.
#![tactic(auto)]

mod fault;
mod laws;
mod mode;
mod resv;
mod short_bytes;
mod unmap;

pub use fault::ListFault;
pub use laws::apart;
pub use mode::{ModeList, read_mode};
pub use resv::{ResvList, read_resv};
pub use short_bytes::ShortBytes;
pub use unmap::{UnmapDescriptor, UnmapList, read_unmap};
