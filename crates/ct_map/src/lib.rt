//! What a script declares beside its units: at which node a port is, and which logical unit an initiator sees through a
//! port under a number.
#![tactic(auto)]

mod laws;
mod map;

pub use laws::{ports_apart, units_apart};
pub use map::Map;

#[cfg(test)]
mod tests;
