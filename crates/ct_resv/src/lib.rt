//! Persistent reservations (SPC-4, 5.12): which nexuses are registered with a logical unit, which of them holds it,
//! whose commands pass, and what PERSISTENT RESERVE OUT and PERSISTENT RESERVE IN make of it.
#![tactic(auto)]

mod access;
mod actions;
mod done;
mod fault;
mod laws;
mod registrants;
mod report;
mod reservations;

pub use done::Done;
pub use fault::ResvFault;
pub use laws::{always_sound, lengths, refusals_change_nothing, who_passes};
pub use registrants::{Registrant, Registrants};
pub use reservations::{Reservation, Reservations};
