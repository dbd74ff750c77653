//! READ CAPACITY (10) and (16).

ghost use Rattle.std.specs.Prelude.{◌≡◌, ◌≤◌, ◌-◌, ◌++◌, length};
ghost use Rattle.ct_inq.specs.Capacities.{capacity_10_data, capacity_16_data, long_capacity};

use crate::allocation::append_cut;
use ct_word::Reserve;
use ct_word::limit::BLOCK_SIZE;

/// LBPME: blocks can be unmapped
const LBPME: u8 = 0x80;

/// LBPRZ: unmapped blocks read as zeros
const LBPRZ: u8 = 0x40;

/// Adds the data-in of a READ CAPACITY (10) (SBC-3, 5.15) of a logical unit with so many blocks, 8 bytes.
#[tactic(auto, unfolding(crate::specs::Capacities::capacity_10_data))]
pub fn capacity_10(blocks: u32, into: &mut Reserve<u8>)
    requires { length (capacity_10_data blocks) ≤ into.old.room }
    ensures { let added = capacity_10_data blocks in
        into.new ≡ record { items = into.old.items ++ added; room = into.old.room - length added } }
{
    let mut bytes = [0; 8];
    bytes[..4].copy_from_slice(&(blocks.saturating_sub(1)).to_be_bytes());
    bytes[4..].copy_from_slice(&(BLOCK_SIZE as u32).to_be_bytes());
    into.append(&bytes);
}

/// Adds the data-in of a READ CAPACITY (16) (SBC-3, 5.16) of a logical unit with so many blocks, 32 bytes cut to the
/// allocation length in bytes.
#[tactic(auto, unfolding(crate::specs::Capacities::capacity_16_data))]
pub fn capacity_16(blocks: u32, allocation: u32, into: &mut Reserve<u8>)
    requires { length (capacity_16_data blocks allocation) ≤ into.old.room }
    ensures { let added = capacity_16_data blocks allocation in
        into.new ≡ record { items = into.old.items ++ added; room = into.old.room - length added } }
{
    append_cut(&long_capacity(blocks), allocation as usize, into);
}

#[tactic(auto, unfolding(crate::specs::Capacities::long_capacity))]
fn long_capacity(blocks: u32) -> [u8; 32]
    ensures { result ≡ long_capacity blocks }
{
    let mut bytes = [0; 32];
    bytes[..8].copy_from_slice(&u64::from(blocks.saturating_sub(1)).to_be_bytes());
    bytes[8..12].copy_from_slice(&(BLOCK_SIZE as u32).to_be_bytes());
    bytes[14] = LBPME | LBPRZ;
    bytes
}
