//! The data by which a host finds out about a disk: what INQUIRY, READ CAPACITY and REPORT LUNS return. The layer over
//! the choices of a CDB's fields and under the execution of commands.
#![tactic(auto)]

mod allocation;
mod capacity;
mod inquiries;
mod laws;
mod luns;
mod texts;
mod unmapped;
mod vpd;

pub use capacity::{capacity_10, capacity_16};
pub use inquiries::inquiry;
pub use laws::lengths;
pub use luns::report_luns;
pub use unmapped::direct;

#[cfg(test)]
mod tests;
