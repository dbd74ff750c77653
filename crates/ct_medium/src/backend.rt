ghost use Rattle.std.specs.Prelude.{◌≡◌, ℕ, List, [], ◌<◌, length, slice_set, slice_index_or, OnOk, OnErr};
ghost use Rattle.ct_word.specs.Causes.{HasCause, no_end};

use ct_word::{Block, Failed};

/// Blocks of 512 bytes. A call that fails changes none of them, and raises the count of faults by one; no other does.
pub trait Backend: Drop {
    ghost blocks: { Self → List (List ℕ) };

    // How many calls failed.
    ghost faults: { Self → ℕ };

    /// The number of blocks.
    fn len(&self) -> u32
        ensures { result ≡ length (blocks self.now) };

    /// Copies a block.
    fn get(&mut self, lba: u32, into: &mut [u8; 512]) -> Result<(), Failed>
        requires { lba < length (blocks self.old) }
        ensures got { OnOk result (into.new ≡ slice_index_or (blocks self.old) lba []) }
        ensures kept { OnErr result (into.new ≡ into.old) }
        ensures stays { blocks self.new ≡ blocks self.old }
        ensures cause { HasCause no_end (faults self.old) (faults self.new) result };

    /// Puts a block in the place of another, which is handed out.
    fn swap(&mut self, lba: u32, block: &mut Block) -> Result<(), Failed>
        requires { lba < length (blocks self.old) }
        ensures put { OnOk result (blocks self.new ≡ slice_set (blocks self.old) lba block.old) }
        ensures given { OnOk result (block.new ≡ slice_index_or (blocks self.old) lba []) }

        ensures stays { OnErr result (blocks self.new ≡ blocks self.old) }
        ensures kept { OnErr result (block.new ≡ block.old) }

        ensures cause { HasCause no_end (faults self.old) (faults self.new) result };
}
