//! One logical unit with its two nodes and its journal: each act does what the written machine does. At this stage
//! there is one node.
#![tactic(auto)]

mod pair;

pub use ct_machine::{Act, Answer, Opening};
pub use pair::{End, Pair};

#[cfg(test)]
mod order_tests;
#[cfg(test)]
mod test_acts;
#[cfg(test)]
mod tests;
