//! A turn lock over any machine: one journal, and each caller's acts in it once.
#![tactic(auto)]

mod machine;
mod rule;
mod steps;
mod turn;
mod view;

pub use machine::Machine;
pub use turn::{Seat, Turn, Unopened};
pub use view::Item;
