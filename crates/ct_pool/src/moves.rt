ghost use Rattle.std.specs.Prelude.{◌≤◌, length};
ghost use Rattle.ct_pool.specs.Sound.{Moves};

use ct_word::{Block, Reserve};

/// Moves so many blocks from the end of one list to the end of another.
pub(crate) fn move_blocks(from: &mut Reserve<Block>, to: &mut Reserve<Block>, count: u32)
    requires some { count ≤ length from.old.items }
    requires room { count ≤ to.old.room }
    ensures { Moves from.old to.old from.new to.new count }
{
    for _ in 0..count {
        if let Some(block) = from.pop() {
            let bytes: &[u8] = block.bytes();
            prove!(bytes.len() == 512);
            to.push(block);
        }
    }
}
