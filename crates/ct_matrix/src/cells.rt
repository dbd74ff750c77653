/// What a cell of the table says of two commands.
#[derive(Clone, Copy, Debug, PartialEq, Eq)]
pub enum Action {
    /// The second never waits for the first.
    Skip,
    /// They don't conflict.
    Pass,
    /// They conflict.
    Block,
    /// They conflict where reordering is restricted.
    OptBlock,
    /// They conflict where their footprints overlap.
    Extent,
    /// They conflict where their footprints overlap and reordering is restricted.
    OptExtent,
}
