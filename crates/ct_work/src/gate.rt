//! What a caller sees of a phase while it runs.

/// It is told of lines. It may hold the thread that calls it, and changes nothing of the target. It is never called by a
/// thread that holds a turn.
pub trait Gate {
    /// A lane is about to make the act of this line.
    fn before(&self, line: u32);

    /// An act of the calling thread ended this line.
    fn after(&self, line: u32);
}

/// The gate that does nothing.
#[derive(Drop)]
pub struct Open;

impl Gate for Open {
    fn before(&self, _line: u32) {}

    fn after(&self, _line: u32) {}
}
