//! The written machine of one logical unit with its two nodes: what an act does, as definitions in specs/, and the types
//! that they speak of.
#![tactic(auto)]

mod act;

pub use act::{Act, Answer, Opening};
