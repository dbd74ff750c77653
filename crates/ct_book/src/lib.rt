//! The journal of a logical unit: the works that came, what happened to them, and how they were answered.
#![tactic(auto)]

mod book;
mod event;
mod history;
mod work;

pub use book::Book;
pub use event::{Entry, Event, Kind2, Logged, Why};
pub use work::{Cmd, Command, Work};

#[cfg(test)]
mod tests;
