/// One operation on a block of the medium. The first number is the block's LBA; where there is a second, it says which
/// block of 512 bytes of the data-out is meant, from 0.
#[derive(Clone, Copy, Debug, PartialEq, Eq)]
pub enum BlockOp {
    /// The block is given to the initiator.
    Get(u32),
    /// The block is read, and given to nobody.
    Look(u32),
    /// A block of the data-out is put.
    Put(u32, u32),
    /// A block of zeros is put.
    Zero(u32),
    /// The block is compared with a block of the data-out.
    Compare(u32, u32),
}
