//! What one logical unit did, in print: the events of its journal, and the blocks that they left.
#![tactic(auto)]

mod answer;
mod byte_print;
mod disk;
mod journal;
mod unit;

pub use unit::push_unit;

#[cfg(test)]
mod tests;
