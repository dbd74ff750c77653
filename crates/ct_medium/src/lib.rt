//! The medium: blocks of 512 bytes that may fail to be read and written.
#![tactic(auto)]

mod backend;
mod call_log;
mod faulty_ram;
mod ram;
#[cfg(test)]
mod tests;

pub use backend::Backend;
pub use faulty_ram::FaultyRam;
pub use ram::Ram;
