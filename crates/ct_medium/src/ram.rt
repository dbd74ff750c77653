ghost use Rattle.std.specs.Prelude.{◌≡◌, ◌<◌, [], false, replicate, length, slice_set, slice_index_or, IfOk, IsOk};

use crate::Backend;
use ct_word::{Block, Failed, NoMemory, Reserve};
use std::alloc::Global;
use std::marker::Model;
use std::mem;

/// A medium in memory, seen as the list of its blocks. It never fails. All its memory is taken when it is opened, and a
/// block uses its part from its first write on.
#[derive(Debug, Drop)]
pub struct Ram {
    // The place of each LBA's block in the list, 0 until it is written.
    places: Vec<u32>,
    // A block of zeros, and behind it the blocks that were written.
    list: Reserve<[u8; 512]>,
}

impl Model for Ram {
    ghost use Rattle.std.specs.Prelude.{ℕ, List};
    ghost use Rattle.ct_medium.specs.Places.{blocks_at, IsPlaced};

    ghost Value = { List (List ℕ) };

    ghost view = { λ r. blocks_at r.places.items r.list.items };

    ghost invariant = { λ r. IsPlaced r.places.items r.list };
}

impl Ram {
    /// So many blocks of zeros.
    pub fn open(alloc: Global, blocks: u32) -> Result<Ram, NoMemory>
        ensures { IfOk result (λ r. r ≡ replicate blocks (replicate 512 0)) }
    {
        let places = vec![in alloc; 0; blocks as usize]?;
        let mut list = Reserve::open(alloc, blocks as usize + 1)?;
        list.push(zeros());
        Ok(Ram { places, list })
    }

    pub fn block(&self, lba: u32) -> &[u8; 512]
        requires { lba < length self.now }
        ensures { result.now ≡ slice_index_or self.now lba [] }
    {
        &self.list.as_slice()[self.places[lba as usize] as usize]
    }

    /// Whether a block was ever written. If it wasn't, it is all zeros.
    pub fn is_written(&self, lba: u32) -> bool
        requires { lba < length self.now }
        ensures { result ≡ false → slice_index_or self.now lba [] ≡ replicate 512 0 }
    {
        self.places[lba as usize] != 0
    }
}

impl Backend for Ram {
    ghost use Rattle.std.specs.Prelude.{ℕ};

    ghost blocks = { λ r. r };

    ghost faults = { λ _. 0 };

    fn len(&self) -> u32
        ensures { result ≡ length self.now }
    {
        self.places.len() as u32
    }

    fn get(&mut self, lba: u32, into: &mut [u8; 512]) -> Result<(), Failed>
        requires { lba < length self.old }
        ensures ok { IsOk result }
        ensures got { into.new ≡ slice_index_or self.old lba [] }
        ensures stays { self.new ≡ self.old }
    {
        into.copy_from_slice(self.block(lba));
        Ok(())
    }

    fn swap(&mut self, lba: u32, block: &mut Block) -> Result<(), Failed>
        requires { lba < length self.old }
        ensures ok { IsOk result }
        ensures put { self.new ≡ slice_set self.old lba block.old }
        ensures given { block.new ≡ slice_index_or self.old lba [] }
    {
        let place = self.places[lba as usize] as usize;
        if place == 0 {
            self.places[lba as usize] = self.list.len() as u32;
            self.list.push(*block.bytes());
            block.fill(&[0; 512]);
        } else {
            mem::swap(self.list.item_mut(place), block.bytes_mut());
        }
        Ok(())
    }
}

fn zeros() -> [u8; 512]
    ensures { result ≡ replicate 512 0 }
{
    [0; 512]
}
