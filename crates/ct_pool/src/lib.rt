//! A region of blocks that is leased in parts.
#![tactic(auto)]

mod lease;
mod moves;
mod pool;
#[cfg(test)]
mod tests;

pub use lease::Lease;
pub use pool::Pool;
