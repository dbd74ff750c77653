//! Unit attention conditions (SAM-5, 5.14): which codes each I_T nexus still has to be told, and which of them first.
#![tactic(auto)]

mod attentions;
mod code_set;
mod laws;

pub use attentions::Attentions;
pub use code_set::{CodeSet, sense_code};
pub use laws::{first_of_several, raised_once, taken_apart};

#[cfg(test)]
mod tests;
