//! The checks of a command that begins, and what it does where it moves no block.
#![tactic(auto)]

mod action_faults;
mod at_once;
mod change;
mod checks;
mod control;
mod data;
mod ended;
mod modes;
mod refusal;
#[cfg(test)]
mod tests;

pub use at_once::instant;
pub use checks::{check, plan};
pub use control::Control;
pub use ended::Instant;
pub use refusal::{Refusal, check_condition, failed, miscompared, moved_reply};
