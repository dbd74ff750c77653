//! The top calls: from a script's bytes to the printed report.
#![tactic(auto)]

mod command;
#[cfg(test)]
mod end_tests;
mod played;
mod report;
mod served;
#[cfg(test)]
mod tests;

pub use command::{Command, read_command};
pub use ct_script::{Line, ParseError, Script, ScriptFault, What, Word};
pub use played::play_on;
pub use report::UnitEnd;
pub use served::{Exit, Served, target_one};
