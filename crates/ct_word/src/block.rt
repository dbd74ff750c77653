ghost use Rattle.std.specs.Prelude.{◌≡◌, replicate, length, IfOk};
ghost use Rattle.std.specs.Borrow.{sem};

use crate::NoMemory;
use std::alloc::Global;
use std::marker::Model;

/// A block of 512 bytes on the heap, as contracts see it: a list.
#[derive(Debug, Drop)]
pub struct Block {
    bytes: Box<[u8; 512]>,
}

impl Model for Block {
    ghost use Rattle.std.specs.Prelude.{List, ℕ};

    ghost Value = { List ℕ };

    ghost view = { λ b. b.bytes.value };
}

impl Block {
    ghost use Rattle.ct_word.specs.LendsBytes.{LendsBytes};

    /// A block of zeros.
    pub fn zeros(alloc: Global) -> Result<Block, NoMemory>
        ensures { IfOk result (λ b. b ≡ replicate 512 0) }
    {
        Ok(Block {
            bytes: Box::new(alloc, [0; 512])?,
        })
    }

    pub fn bytes(&self) -> &[u8; 512]
        ensures { result.now ≡ self.now }
    {
        &self.bytes
    }

    /// The bytes for writing.
    pub fn bytes_mut(&mut self) -> &mut [u8; 512]
        ensures* writes_back { sem 𝓛 (LendsBytes self.entry result) }
        ensures value { result.now ≡ self.old }
    {
        &mut self.bytes
    }

    /// Puts other bytes in the place of those that are there.
    pub fn fill(&mut self, bytes: &[u8])
        requires { length bytes.now ≡ 512 }
        ensures { self.new ≡ bytes.now }
    {
        self.bytes.copy_from_slice(bytes);
    }
}
