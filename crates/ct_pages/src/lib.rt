//! Mode pages (SPC-4, 7.5, and SBC-3, 6.4): how a logical unit behaves, as a host reads it and changes it.
#![tactic(auto)]

mod laws;
mod pages;
mod select;
mod sense;

pub use laws::{lengths, selects};
pub use pages::ModePages;
pub use select::select_mode;
pub use sense::sense_mode;
