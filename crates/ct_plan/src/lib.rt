//! Plans: the block operations of a command, one by one.
#![tactic(auto)]

mod laws;
mod operation;
mod pieces;
mod plan;
mod task;
#[cfg(test)]
mod tests;

pub use laws::{any_pieces, whole};
pub use operation::BlockOp;
pub use pieces::advance;
pub use plan::Plan;
pub use task::{Piece, PieceEnd, Task};
