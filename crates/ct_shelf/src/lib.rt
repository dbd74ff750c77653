//! A list with reserved room whose items stay where they are put.
#![tactic(auto)]

mod shelf;
#[cfg(test)]
mod tests;

pub use shelf::Shelf;
